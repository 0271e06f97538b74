use crate::argument::Argument;
use chain_model::Given;
use smc_num::Frac;
use sqlite_items::Items;

/// What the words say of the test of a run.
#[derive(Clone, Copy, Debug, PartialEq, Eq)]
pub enum TestWords {
    /// Wald's test: the half width of the indifference region and the two error bounds.
    Wald {
        delta: Frac,
        alpha: Frac,
        beta: Frac,
    },
    /// A single sampling plan: the sample size and the acceptance number.
    Plan {
        n: u64,
        c: u64,
    },
}

/// What the words of the command line say.
#[derive(Debug, Drop)]
pub enum Settings {
    /// Check a property of a model.
    Check {
        /// The name of the model's file.
        model: Argument,
        /// The text of the property.
        property: Argument,
        /// The constants that are given from outside, in their order.
        given: Items<Given>,
        /// The seed of all draws.
        seed: u64,
        test: TestWords,
        /// How many traces are drawn at most.
        limit: u64,
        /// How many threads draw them.
        workers: u64,
    },
    /// Print one trace of a model.
    Trace {
        /// The name of the model's file.
        model: Argument,
        /// The constants that are given from outside, in their order.
        given: Items<Given>,
        /// The seed of all draws.
        seed: u64,
        /// Which trace it is.
        index: u64,
        /// How many steps it has at most.
        steps: u32,
    },
    /// Print a model with its formulas and renamed modules written out.
    Expand {
        /// The name of the model's file.
        model: Argument,
    },
    /// Make a ring of stations, and check that it comes to rest in time.
    Make {
        /// How many stations it has: an odd number.
        stations: u32,
        /// The seed of all draws.
        seed: u64,
        /// How many threads draw the traces.
        workers: u64,
    },
    /// List the commands.
    Help,
}
