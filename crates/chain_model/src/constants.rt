use crate::values::{Sort, Value};
use smc_num::Text;

/// A constant that is given from outside: its name, the sort that its value is spelled with, and the value.
#[derive(Debug, Drop)]
pub struct Given {
    pub name: Text,
    pub sort: Sort,
    pub value: Value,
}
