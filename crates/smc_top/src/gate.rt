/// A gate that a worker passes after it has claimed a block of traces and before it draws it. The workers share it. A test
/// may hold a worker there; the call on which a run rests returns where `pass` does.
pub trait Gate {
    /// Lets the worker through that draws this block.
    fn pass(&self, block: u64);
}

/// The program's gate: it holds nobody.
#[derive(Clone, Copy, Debug)]
pub struct NoGate;

impl Gate for NoGate {
    fn pass(&self, _block: u64) {}
}
