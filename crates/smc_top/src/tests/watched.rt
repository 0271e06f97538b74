//! Runs that observers of a test's own watch, past a gate of its own.

ghost use Rattle.std.specs.Prelude.{IfOk, IsTrue, map};
ghost use Rattle.std.specs.List.{list_all};
ghost use Rattle.stop_rules.specs.Observers.{is_ready};

use super::models::{COIN, COUNTER, STEP};
use super::*;
use std::test::Fail;
use stop_rules::{Line, Stay};

/// An observer of the test's own: it tells the longest run of true under the name of its kind.
#[derive(Drop)]
struct Own {
    longest: LongestRun,
}

impl Own {
    ghost use Rattle.std.specs.Prelude.{◌≡◌};
    ghost use Rattle.stop_rules.specs.Observers.{longest_run};

    /// An observer that was fed nothing.
    fn new() -> Own
        ensures { ⟦<Own as Observer>⟧.observation result ≡ longest_run 0 0 }
    {
        Own {
            longest: LongestRun::new(),
        }
    }
}

impl Observer for Own {
    ghost observation = { λ o. ⟦<LongestRun as Observer>⟧.observation o.longest };

    fn feed(&mut self, bit: bool) -> Stay {
        self.longest.feed(bit)
    }

    fn line(&self, out: &mut Line) {
        self.longest.line(out);
    }
}

/// A gate of the test's own, which holds nobody.
#[derive(Clone, Copy)]
struct Open;

impl Gate for Open {
    fn pass(&self, _block: u64) {}
}

/// Runs with what they write.
static RUNS: [Row; 8] = [
    (
        "check|--model=M|--property=P>=1/2 [ F<=1 x=1 ]|--plan=10,7",
        STEP,
        0,
        "result: accepted\n\
        samples: 8\n\
        successes: 8\n\
        failures: 0\n\
        claim: at least\n\
        test: plan 10,7\n\
        limit: 1000000\n\
        seed: 1\n\
        longest run of true: 8\n\
        batches of 4: 2 full, least 4, most 4\n",
    ),
    (
        "check|--model=M|--property=P>=1/2 [ F<=0 x=1 ]|--plan=10,7",
        STEP,
        1,
        "result: rejected\n\
        samples: 3\n\
        successes: 0\n\
        failures: 3\n\
        claim: at least\n\
        test: plan 10,7\n\
        limit: 1000000\n\
        seed: 1\n\
        longest run of true: 0\n\
        batches of 4: 0 full, least 0, most 0\n",
    ),
    (
        "check|--model=M|--property=P<=1/2 [ F<=0 x=1 ]|--plan=10,7",
        STEP,
        0,
        "result: accepted\n\
        samples: 8\n\
        successes: 8\n\
        failures: 0\n\
        claim: at most\n\
        test: plan 10,7\n\
        limit: 1000000\n\
        seed: 1\n\
        longest run of true: 8\n\
        batches of 4: 2 full, least 4, most 4\n",
    ),
    (
        "check|--model=M|--property=P>=1/2 [ F<=1 x=1 ]|--plan=10,4",
        COIN,
        0,
        "result: accepted\n\
        samples: 6\n\
        successes: 5\n\
        failures: 1\n\
        claim: at least\n\
        test: plan 10,4\n\
        limit: 1000000\n\
        seed: 1\n\
        longest run of true: 3\n\
        batches of 4: 1 full, least 3, most 3\n",
    ),
    (
        "check|--model=M|--property=P>=1/2 [ F<=1 x=1 ]|--plan=1,0",
        STEP,
        0,
        "result: accepted\n\
        samples: 1\n\
        successes: 1\n\
        failures: 0\n\
        claim: at least\n\
        test: plan 1,0\n\
        limit: 1000000\n\
        seed: 1\n\
        longest run of true: 1\n\
        batches of 4: 0 full, least 0, most 0\n",
    ),
    (
        "check|--model=M|--property=P>=1/2 [ F<=1 x=1 ]|--plan=10,7",
        "dtmc module m x:[0..3]; [] x=0 -> 1/2:(x'=1)+1/2:(x'=4); endmodule",
        8,
        "result: fault\n\
        trace: 3\n\
        step: 1\n\
        cause: x outside its range\n\
        samples: 3\n\
        successes: 3\n\
        failures: 0\n\
        claim: at least\n\
        test: plan 10,7\n\
        limit: 1000000\n\
        seed: 1\n\
        longest run of true: 3\n\
        batches of 4: 0 full, least 0, most 0\n",
    ),
    (
        "check|--model=M|--property=P>=0.9 [ F<=10 x=5 ]|--plan=10,7",
        COUNTER,
        8,
        "result: fault\n\
        trace: 0\n\
        step: 4\n\
        cause: x outside its range\n\
        samples: 0\n\
        successes: 0\n\
        failures: 0\n\
        claim: at least\n\
        test: plan 10,7\n\
        limit: 1000000\n\
        seed: 1\n\
        longest run of true: 0\n\
        batches of 4: 0 full, least 0, most 0\n",
    ),
    (
        "trace|--model=M|--steps=0",
        STEP,
        0,
        "state 0: x=0\n\
        draws: 0\n",
    ),
];

/// An observer of the test's own, and batches of four.
fn observers(alloc: Global) -> Result<Vec<Box<dyn Observer>>, AllocError>
    ensures { IfOk result (λ boxes. IsTrue (list_all is_ready (map (λ b. observation b) boxes.items))) }
{
    let own = Box::new(alloc, Own::new())?;
    let batches = Box::new(alloc, Batches::new(4))?;
    Ok(Vec::from_array(alloc, [own as Box<dyn Observer>, batches])?)
}

/// Whether a run with a gate and an observer of the test's own, and batches of four, ends and writes as its row says.
fn is_watched<R: Threads + Sync + AllocGlobal>(rt: &R, row: &Row) -> Result<bool, AllocError> {
    let alloc = rt.alloc();
    let words = words_of(alloc, row.0)?;
    let mut source = MemFiles::new(file(alloc, row.1)?, Vec::new(alloc));
    let mut sink = MemSink::new(alloc, 4096, 4096, Vec::new(alloc))?;
    let watch = observers(alloc)?;
    let status = run(
        rt,
        alloc,
        words.as_slice(),
        &mut source,
        &mut sink,
        &Open,
        watch,
    );
    Ok(status.code() == row.2 && sink.bytes() == row.3.as_bytes())
}

#[test]
fn observers_see_the_admitted_traces_and_each_has_its_line(rt: HostRuntime) -> Result<(), Fail> {
    for row in &RUNS {
        assert!(rt; is_watched(&rt, row)?, "{row:?}");
    }
    Ok(())
}
