/// What a monitor says of the pairs that it has seen.
#[derive(Clone, Copy, Debug, PartialEq, Eq)]
pub enum Step {
    /// They settle the path formula as true.
    True,
    /// They settle it as false.
    False,
    /// They don't settle it.
    More,
}
