/// An order of the places of a graph, or why there is none.
#[derive(Debug, Drop)]
pub enum Order {
    /// All places, each after what it uses.
    Whole(Vec<u32>),
    /// The first place that reaches itself.
    Cyclic(u32),
}
