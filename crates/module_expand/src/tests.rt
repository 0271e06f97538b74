mod accepted;
mod duplicates;
mod large;
mod models;
mod renamings;
mod told;
