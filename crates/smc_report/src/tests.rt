use super::*;

mod causes;
mod names;
mod places;
mod refusals;
mod reports;
mod settings;
mod types;
