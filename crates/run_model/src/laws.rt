ghost use Rattle.run_model.specs.Laws.{RunGoesOn, RunsJoin};
ghost use Rattle.run_model.specs.LeavingLaws.{TurnsKeepStates, TurnKeepsStates, StoreKeepsStates, RunKeepsStates};

/// A law: one turn more makes a longer run.
pub fn run_goes_on()
    ensures { RunGoesOn }
{}

/// A law: two runs, one behind the other, are one.
pub fn runs_join()
    ensures { RunsJoin }
{}

/// A run over a disk, as contracts speak of it.
pub trait DiskRun {
    ghost use Rattle.std.specs.Prelude.{ℕ, List};
    ghost use Rattle.run_model.specs.declared.turn.Turn.{Turn as the_turn};

    /// Its states, and the images of the disk.
    ghost State: { Type 0 };

    ghost Image: { Type 0 };

    /// A turn, behind those before it, leads from the one state to the other.
    ghost step: { List the_turn → the_turn → Self.State → Self.State → Type 0 };

    /// The image bears the state.
    ghost Bears: { Self.Image → Self.State → Type 0 };

    /// A crash since this moment may have left the image: so far, and after what was done then.
    ghost left: { ℕ → Self.Image → Type 0 };

    ghost left_then: { ℕ → Self.Image → Type 0 };
}

/// A law: where images bear states of a run, they do so after turns that tell of no sync and after
/// which no image is new.
pub fn turns_keep_states<R: DiskRun>()
    ensures { TurnsKeepStates R.step R.Bears R.left R.left_then }
{}

/// A law: they do so after a turn that each image left since its moment bears out, as one of a
/// sync.
pub fn turn_keeps_states<R: DiskRun>()
    ensures { TurnKeepsStates R.step R.Bears R.left_then }
{}

/// A law: they do so after a step of the store, after which each image is one that might have been
/// left before or bears a state in which no sync is undone.
pub fn store_keeps_states<R: DiskRun>()
    ensures { StoreKeepsStates R.step R.Bears R.left R.left_then }
{}

/// A law: they do so from an earlier moment on, where all images left from then to the first turn
/// bear the first state.
pub fn run_keeps_states<R: DiskRun>()
    ensures { RunKeepsStates R.step R.Bears R.left }
{}
