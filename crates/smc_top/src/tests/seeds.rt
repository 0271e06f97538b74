//! Runs of several seeds, against an independent simulation.

use super::models::COIN;
use super::*;
use smc_io::{MemFiles, MemSink};
use std::alloc::{AllocError, Global};
use std::test::Fail;
use std::thread::Threads;

/// Three commands with the same guard.
const WAYS: &str =
    "dtmc module w x:[0..6] init 3; [] x=1 -> 1/2:(x'=0)+1/2:(x'=2); [] x=2 -> 1/2:(x'=1)+1/2:(x'=3); [] x=3 -> 1/2:(x'=2)+1/2:(x'=4); [] x=3 -> 1/2:(x'=1)+1/2:(x'=5); [] x=3 -> 1/1:(x'=6); [] x=4 -> 1/2:(x'=3)+1/2:(x'=5); [] x=5 -> 1/2:(x'=4)+1/2:(x'=6); endmodule";

/// A command of 64 branches.
const BRANCHES: &str =
    "dtmc module b x:[0..64] init 64; [] x=64 -> 1/4096:(x'=0)+1/4096:(x'=1)+1/4096:(x'=2)+1/4096:(x'=3)+1/4096:(x'=4)+1/4096:(x'=5)+1/4096:(x'=6)+1/4096:(x'=7)+1/4096:(x'=8)+1/4096:(x'=9)+1/4096:(x'=10)+1/4096:(x'=11)+1/4096:(x'=12)+1/4096:(x'=13)+1/4096:(x'=14)+1/4096:(x'=15)+1/4096:(x'=16)+1/4096:(x'=17)+1/4096:(x'=18)+1/4096:(x'=19)+1/4096:(x'=20)+1/4096:(x'=21)+1/4096:(x'=22)+1/4096:(x'=23)+1/4096:(x'=24)+1/4096:(x'=25)+1/4096:(x'=26)+1/4096:(x'=27)+1/4096:(x'=28)+1/4096:(x'=29)+1/4096:(x'=30)+1/4096:(x'=31)+96/4096:(x'=32)+96/4096:(x'=33)+96/4096:(x'=34)+96/4096:(x'=35)+96/4096:(x'=36)+96/4096:(x'=37)+96/4096:(x'=38)+96/4096:(x'=39)+96/4096:(x'=40)+96/4096:(x'=41)+96/4096:(x'=42)+96/4096:(x'=43)+96/4096:(x'=44)+96/4096:(x'=45)+96/4096:(x'=46)+96/4096:(x'=47)+160/4096:(x'=48)+160/4096:(x'=49)+160/4096:(x'=50)+160/4096:(x'=51)+160/4096:(x'=52)+160/4096:(x'=53)+160/4096:(x'=54)+160/4096:(x'=55)+160/4096:(x'=56)+160/4096:(x'=57)+160/4096:(x'=58)+160/4096:(x'=59)+160/4096:(x'=60)+160/4096:(x'=61)+160/4096:(x'=62)+128/4096:(x'=63); endmodule";

/// Forty commands, of which few apply in a state.
const COMMANDS: &str =
    "dtmc module c x:[0..40] init 0; y:[0..3] init 0; [] x=0 -> 1/3:(x'=3)+1/3:(x'=5)+1/3:(y'=0); [] x=1 -> 1/3:(x'=10)+1/3:(x'=16)+1/3:(y'=1); [] x=2 -> 1/3:(x'=17)+1/3:(x'=27)+1/3:(y'=2); [] x=3 -> 1/3:(x'=24)+1/3:(x'=38)+1/3:(y'=3); [] x=4 -> 1/3:(x'=31)+1/3:(x'=8)+1/3:(y'=0); [] x=5 -> 1/3:(x'=38)+1/3:(x'=19)+1/3:(y'=1); [] x=6 -> 1/3:(x'=4)+1/3:(x'=30)+1/3:(y'=2); [] x=7 -> 1/3:(x'=11)+1/3:(x'=0)+1/3:(y'=3); [] x=8 -> 1/3:(x'=18)+1/3:(x'=11)+1/3:(y'=0); [] x=9 -> 1/3:(x'=25)+1/3:(x'=22)+1/3:(y'=1); [] x=10 -> 1/3:(x'=32)+1/3:(x'=33)+1/3:(y'=2); [] x=11 -> 1/3:(x'=39)+1/3:(x'=3)+1/3:(y'=3); [] x=12 -> 1/3:(x'=5)+1/3:(x'=14)+1/3:(y'=0); [] x=13 -> 1/3:(x'=12)+1/3:(x'=25)+1/3:(y'=1); [] x=14 -> 1/3:(x'=19)+1/3:(x'=36)+1/3:(y'=2); [] x=15 -> 1/3:(x'=26)+1/3:(x'=6)+1/3:(y'=3); [] x=16 -> 1/3:(x'=33)+1/3:(x'=17)+1/3:(y'=0); [] x=17 -> 1/3:(x'=40)+1/3:(x'=28)+1/3:(y'=1); [] x=18 -> 1/3:(x'=6)+1/3:(x'=39)+1/3:(y'=2); [] x=19 -> 1/3:(x'=13)+1/3:(x'=9)+1/3:(y'=3); [] x=20 -> 1/3:(x'=20)+1/3:(x'=20)+1/3:(y'=0); [] x=21 -> 1/3:(x'=27)+1/3:(x'=31)+1/3:(y'=1); [] x=22 -> 1/3:(x'=34)+1/3:(x'=1)+1/3:(y'=2); [] x=23 -> 1/3:(x'=0)+1/3:(x'=12)+1/3:(y'=3); [] x=24 -> 1/3:(x'=7)+1/3:(x'=23)+1/3:(y'=0); [] x=25 -> 1/3:(x'=14)+1/3:(x'=34)+1/3:(y'=1); [] x=26 -> 1/3:(x'=21)+1/3:(x'=4)+1/3:(y'=2); [] x=27 -> 1/3:(x'=28)+1/3:(x'=15)+1/3:(y'=3); [] x=28 -> 1/3:(x'=35)+1/3:(x'=26)+1/3:(y'=0); [] x=29 -> 1/3:(x'=1)+1/3:(x'=37)+1/3:(y'=1); [] x=30 -> 1/3:(x'=8)+1/3:(x'=7)+1/3:(y'=2); [] x=31 -> 1/3:(x'=15)+1/3:(x'=18)+1/3:(y'=3); [] x=32 -> 1/3:(x'=22)+1/3:(x'=29)+1/3:(y'=0); [] x=33 -> 1/3:(x'=29)+1/3:(x'=40)+1/3:(y'=1); [] x=34 -> 1/3:(x'=36)+1/3:(x'=10)+1/3:(y'=2); [] x=35 -> 1/3:(x'=2)+1/3:(x'=21)+1/3:(y'=3); [] x=36 -> 1/3:(x'=9)+1/3:(x'=32)+1/3:(y'=0); [] x=37 -> 1/3:(x'=16)+1/3:(x'=2)+1/3:(y'=1); [] y=2 -> 2/3:(y'=1)+1/3:(x'=9); [] y=3 -> 1/1:(x'=40); endmodule";

/// A variable at its limits.
const LIMITS: &str =
    "dtmc module l x:[0..4611686018427387903] init 4611686018427387903; [] x=4611686018427387903 -> 1/4:(x'=0)+3/4:(x'=4611686018427387902); [] x=0 -> 1/2:(x'=4611686018427387903)+1/2:(x'=0); endmodule";

/// A denominator of 2^48, and a branch of weight 0.
const FINE: &str =
    "dtmc module f x:[0..3] init 0; [] x=0 -> 1/281474976710656:(x'=1)+93824992236885/281474976710656:(x'=2)+187649984473770/281474976710656:(x'=3); [] x=3 -> 0/7:(x'=1)+7/7:(x'=0); endmodule";

/// A model, its property, its plan, and for the seeds from 1 on the result, the successes and the failures.
type Seeds = (
    &'static str,
    &'static str,
    &'static str,
    &'static [(&'static str, u64, u64)],
);

/// Runs of an independent simulation.
static RUNS: [Seeds; 6] = [
    (
        COIN,
        "P>=1/2 [ F<=1 x=1 ]",
        "10,4",
        &[
            ("accepted", 5, 1),
            ("rejected", 4, 6),
            ("accepted", 5, 4),
            ("rejected", 3, 6),
            ("rejected", 4, 6),
        ],
    ),
    (
        WAYS,
        "P>=1/2 [ F<=9 x=6 ]",
        "60,30",
        &[
            ("accepted", 31, 18),
            ("accepted", 31, 15),
            ("accepted", 31, 13),
            ("accepted", 31, 12),
            ("accepted", 31, 4),
        ],
    ),
    (
        BRANCHES,
        "P>=1/2 [ F<=1 x=62 ]",
        "200,9",
        &[
            ("rejected", 8, 191),
            ("accepted", 10, 183),
            ("rejected", 5, 191),
            ("rejected", 5, 191),
            ("rejected", 5, 191),
        ],
    ),
    (
        COMMANDS,
        "P>=1/2 [ F<=25 x=40 ]",
        "80,40",
        &[
            ("rejected", 28, 40),
            ("rejected", 22, 40),
            ("rejected", 32, 40),
            ("accepted", 41, 38),
            ("rejected", 22, 40),
        ],
    ),
    (
        LIMITS,
        "P>=1/2 [ F<=3 x=4611686018427387902 ]",
        "50,40",
        &[
            ("accepted", 41, 9),
            ("accepted", 41, 2),
            ("rejected", 25, 10),
            ("rejected", 37, 10),
            ("accepted", 41, 5),
        ],
    ),
    (
        FINE,
        "P>=1/2 [ F<=6 x=2 ]",
        "60,45",
        &[
            ("rejected", 34, 15),
            ("rejected", 27, 15),
            ("accepted", 46, 14),
            ("rejected", 31, 15),
            ("rejected", 41, 15),
        ],
    ),
];

/// The words of a run of a plan under a seed.
fn words(alloc: Global, property: &str, plan: &str, seed: u64) -> Result<String, AllocError> {
    format!(in alloc; "check|--model=M|--property={property}|--plan={plan}|--seed={seed}")
}

/// The report of a run of a plan under a seed, which nobody watches.
fn report(
    alloc: Global,
    run: &(&str, u64, u64),
    plan: &str,
    seed: u64,
) -> Result<String, AllocError> {
    let (result, successes, failures) = run;
    let samples = successes.saturating_add(*failures);
    format!(in alloc;
        "result: {result}\n\
        samples: {samples}\n\
        successes: {successes}\n\
        failures: {failures}\n\
        claim: at least\n\
        test: plan {plan}\n\
        limit: 1000000\n\
        seed: {seed}\n"
    )
}

/// What a run writes that nobody watches.
fn written<R: Threads + Sync + AllocGlobal>(
    rt: &R,
    words: &str,
    model: &str,
) -> Result<Vec<u8>, AllocError> {
    let alloc = rt.alloc();
    let mut source = MemFiles::new(file(alloc, model)?, Vec::new(alloc));
    let mut sink = MemSink::new(alloc, ROOM, ROOM, Vec::new(alloc))?;
    let words = words_of(alloc, words)?;
    run(
        rt,
        alloc,
        words.as_slice(),
        &mut source,
        &mut sink,
        &NoGate,
        Vec::new(alloc),
    );
    Vec::from_slice(alloc, sink.bytes())
}

#[test]
fn each_seed_draws_the_traces_of_an_independent_simulation(rt: HostRuntime) -> Result<(), Fail> {
    for (model, property, plan, runs) in &RUNS {
        for (run, seed) in runs.iter().zip(1..6) {
            let words = words(rt.alloc(), property, plan, seed)?;
            let wanted = report(rt.alloc(), run, plan, seed)?;
            let written = written(&rt, words.as_str(), model)?;
            assert!(rt;
                written.as_slice() == wanted.as_bytes(),
                "{property} under seed {seed}"
            );
        }
    }
    Ok(())
}
