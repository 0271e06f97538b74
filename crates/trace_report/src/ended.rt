/// How a trace ended.
#[derive(Clone, Copy, Debug, PartialEq, Eq)]
pub enum Ended {
    /// All states that were asked for were made.
    Whole,
    /// A state was not made.
    Fault,
}
