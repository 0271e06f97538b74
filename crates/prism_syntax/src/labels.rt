/// Whether the names of labels may stand in an expression, as they may in the state formulas of a property.
#[derive(Clone, Copy, Debug, PartialEq, Eq)]
pub enum Labels {
    Allowed,
    Refused,
}
