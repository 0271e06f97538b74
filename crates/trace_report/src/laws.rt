//! A law of the definitions in `specs/`: the contract of a function that does nothing when called.

ghost use Rattle.std.specs.Prelude.{◌≡◌, ℕ};
ghost use Rattle.trace_streams.specs.Draws.{draw_at};
ghost use Rattle.chain_model.specs.declared.job.Job.{Job};
ghost use Rattle.chain_model.specs.Trace.{configuration_at};
ghost use Rattle.trace_report.specs.States.{configuration_after};

/// Law: the states are those of the same trace of a job with this chain.
pub fn states_are_those_of_a_job()
    ensures { (job : Job) (trace k : ℕ)
        → configuration_after job.chain (draw_at job.seed trace) k ≡ configuration_at job trace k }
{}
