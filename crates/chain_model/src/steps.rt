use sqlite_items::Items;

/// A choice of a state: one enabled command without an action, or an action with one enabled command of each module
/// that takes part in it. The choice of a state without one has neither.
#[derive(Debug, Drop)]
pub struct Choice {
    pub action: Option<u32>,
    pub commands: Items<u32>,
}

/// What a step takes: a choice, and of each of its commands a branch.
#[derive(Debug, Drop)]
pub struct Taken {
    pub choice: Choice,
    pub branches: Items<u32>,
}
