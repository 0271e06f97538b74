/// What the counts of successes and failures decide, under a plan or under the sequential test.
#[derive(Clone, Copy, Debug, PartialEq, Eq)]
pub enum Class {
    /// The hypothesis is accepted.
    Accept,
    /// The hypothesis is rejected.
    Reject,
    /// The counts lie too close to a boundary to say on which side. A plan never answers this.
    Close,
    /// Nothing is decided yet, and the next trace is drawn.
    Go,
}
