ghost use Rattle.std.specs.Prelude.{◌≡◌, ◌<◌, ◌+◌, List, length, true, false};
ghost use Rattle.chain_model.specs.declared.job.PathKind.{PathKind};
ghost use Rattle.chain_model.specs.Trace.{Pair};
ghost use Rattle.chain_model.specs.Paths.{horizon_of};
ghost use Rattle.chain_model.specs.Settling.{Settles};
ghost use Rattle.path_monitor.specs.Watching.{IsOpen};

/// No pairs settle a path formula both ways, and pairs that settle nothing are not more than its horizon.
pub fn open_law()
    ensures apart { (kind : PathKind) (pairs : List Pair) → Settles kind pairs true → Settles kind pairs false → ⊥ }
    ensures short { (kind : PathKind) (pairs : List Pair) → IsOpen kind pairs → length pairs < horizon_of kind + 1 }
{}
