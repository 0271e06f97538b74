ghost use Rattle.std.specs.Prelude.{◌≡◌, ◌+◌, ◌^◌, ◌<◌, ◌≤◌, ◌↔◌, Some, None, IfSome, IfNone, IsTrue};
ghost use Rattle.stop_rules.specs.declared.end.End.{End};
ghost use Rattle.stop_rules.specs.Decision.{cause_at, counted, end_with};
ghost use Rattle.stop_rules.specs.Run.{EndsAmong, GoesPast};
ghost use Rattle.stop_rules.specs.Codes.{IsCode, given_in, truths_in, seen_in};

use crate::code::{given, success_at};
use crate::end::{Cause, End};
use crate::goal::Goal;
use sampling_plan::Class;
use std::marker::Model;

/// The counts of the outcomes that a run has admitted so far: `d` successes and `f` failures.
#[derive(Clone, Copy, Debug, PartialEq, Eq)]
pub struct Tally {
    d: u64,
    f: u64,
}

impl Model for Tally {
    ghost use Rattle.stop_rules.specs.Decision.{Counts};

    ghost Value = { Counts };

    ghost view = { λ t. record { d = t.d; f = t.f } };

    ghost inverse = { λ t. record { d = t.d; f = t.f } };
}

impl Tally {
    /// The counts with which a run begins.
    pub fn new(d: u64, f: u64) -> Self
        ensures { result ≡ record { d = d; f = f } }
    {
        Tally { d, f }
    }

    /// The counts of successes and of failures.
    pub fn counts(&self) -> (u64, u64)
        ensures d { result.0 ≡ self.now.d }
        ensures f { result.1 ≡ self.now.f }
    {
        (self.d, self.f)
    }

    /// How many outcomes were admitted.
    pub(crate) fn admitted(&self) -> u64
        requires { self.now.d + self.now.f < 2 ^ 64 }
        ensures { result ≡ self.now.d + self.now.f }
    {
        self.d + self.f
    }

    /// Admits the outcomes of a block of `count` traces, in order, up to the one that ends the run. Answers
    /// the end where the run ends among them.
    pub fn feed_code(&mut self, goal: &Goal, code: u64, count: u32) -> Option<End>
        requires code { IsCode code count }
        requires room { self.old.d + self.old.f + count ≤ goal.now.limit }

        ensures end { (end : End) → (result ≡ Some end)
            ↔ EndsAmong goal.now self.old (seen_in goal.now.flip code count) end }
        ensures ended { IfSome result (λ end. self.new ≡ record { d = end.d; f = end.f }) }
        ensures whole { IfNone result (given_in code ≡ count) }
        ensures past { IfNone result (GoesPast goal.now self.old (truths_in goal.now.flip code) self.new) }

        ensures more { self.old.d + self.old.f ≤ self.new.d + self.new.f }
        ensures few { self.new.d + self.new.f ≤ self.old.d + self.old.f + given_in code }
    {
        let given = given(code);
        for position in 0..given {
            let truth = success_at(goal.flip, code, position);
            if let Some(end) = self.admit(goal, truth) {
                return Some(end);
            }
        }
        if given < count {
            return Some(self.end(Cause::Fault));
        }
        None
    }

    /// Admits the outcome of the next trace, which is no fault. Answers the end where the run ends with it.
    fn admit(&mut self, goal: &Goal, truth: bool) -> Option<End>
        requires { self.old.d + self.old.f < goal.now.limit }
        ensures counts { self.new ≡ counted truth self.old }
        ensures end { result ≡ end_with goal.now self.old (Some truth) }
    {
        if truth {
            self.d += 1;
        } else {
            self.f += 1;
        }
        let cause = self.cause(goal)?;
        Some(self.end(cause))
    }

    /// Why a run ends with these counts, if it does.
    fn cause(&self, goal: &Goal) -> Option<Cause>
        requires { self.now.d + self.now.f ≤ 2 ^ 28 }
        ensures { result ≡ cause_at goal.now self.now }
    {
        match goal.rule.class(self.d, self.f) {
            Class::Accept => Some(Cause::Accept),
            Class::Reject => Some(Cause::Reject),
            Class::Close => Some(Cause::Close),
            Class::Go => (self.d + self.f == goal.limit).then_some(Cause::Limit),
        }
    }

    /// An end with the present counts.
    fn end(&self, cause: Cause) -> End
        ensures { result ≡ record { cause = cause; d = self.now.d; f = self.now.f } }
    {
        End {
            cause,
            d: self.d,
            f: self.f,
        }
    }
}
