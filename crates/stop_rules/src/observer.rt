ghost use Rattle.std.specs.Prelude.{◌≡◌, IsTrue};
ghost use Rattle.stop_rules.specs.Observers.{Observation, observe, is_ready, stay_of, line_of};

use crate::line::Line;

/// Whether an observer wants to see further outcomes.
#[derive(Clone, Copy, Debug, PartialEq, Eq)]
pub enum Stay {
    Keep,
    Leave,
}

/// An observer of a run. It sees of each admitted trace, in numeric order, whether the trace succeeded,
/// and has a line for the report. Boxed observers are made by `main` or by a test, and handed in.
pub trait Observer: Drop {
    // What the observer has seen so far.
    ghost observation: { Self → Observation };

    /// Sees the next admitted trace. A recorder has room for one more bit.
    fn feed(&mut self, bit: bool) -> Stay
        requires { IsTrue (is_ready (observation self.old)) }
        ensures observation { observation self.new ≡ observe (observation self.old) bit }
        ensures stay { result ≡ stay_of (observation self.new) };

    /// Sets `out` to the observer's line.
    fn line(&self, out: &mut Line)
        ensures { out.new ≡ line_of (observation self.now) };
}
