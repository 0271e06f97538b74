use std::collections::LinkedList;

/// How many blocks a board has, and how many workers.
#[derive(Clone, Copy)]
pub struct Size {
    pub blocks: u64,
    pub workers: u64,
}

/// What the seat of one worker has done and seen. No value of it is made: it stands in contracts alone.
pub struct View {
    /// The blocks of the board.
    pub blocks: u64,
    /// The workers of the board.
    pub workers: u64,
    /// The tickets that are left.
    pub tickets: u64,
    /// The tickets that were used.
    pub used: u64,
    /// The blocks that were claimed.
    pub claims: LinkedList<u64>,
    /// The blocks that were published, each with its code.
    pub published: LinkedList<(u64, u64)>,
    /// The blocks whose code was seen, each with that code.
    pub seen: LinkedList<(u64, u64)>,
    /// The numbers to which the stop was lowered.
    pub lowered: LinkedList<u64>,
    /// The least stop that was read.
    pub least: u64,
    /// The number of steps.
    pub steps: u64,
    /// The word of the latest step that gave an old value, and that value.
    pub last: (u64, u64),
}
