//! The law of a run's text.
ghost use Rattle.transcript.specs.Laws.{RunTextIsOne};

/// Law: turns and finds have one text.
pub fn run_text_is_one()
    ensures { RunTextIsOne }
{}
