//! What is known of the states that a step from a state may lead to.

/// What a state's next states are, as far as one draw at most tells them apart.
#[derive(Clone, Copy, Debug, PartialEq, Eq)]
pub enum Next {
    /// The state has no choice, and stays as it is.
    Stays,
    /// There is one, and nothing is drawn.
    One,
    /// There are two, and one draw tells them apart: the first comes where it is below this threshold.
    Drawn(u64),
    /// More may be drawn, or a step may fault.
    Untold,
}
