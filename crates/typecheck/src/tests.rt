mod chains;
mod expressions;
mod largest;
mod models;
mod refused;
