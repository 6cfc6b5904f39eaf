//! The law of these definitions.
ghost use Rattle.state_store.specs.Spared.{PutsSpare};

/// Law: where a window of the store spared each block from which its present content was read as a
/// state, each window that follows changes which were put, or weren't, spares each block from which
/// the content behind them is read.
pub fn puts_spare()
    ensures { PutsSpare }
{}
