//! What a run leaves that was saved: its text is read as an image that boots into the last state.
#![tactic(auto)]

ghost use Rattle.save_laws.specs.Blocks.{EndsWithLargeBlocks};
ghost use Rattle.save_laws.specs.Saved.{SavedRunsComeBack};

/// A 2M block of the pool begins a region that is held as 2M, unless the host took a page of it away.
pub fn ends_with_large_blocks()
    ensures { EndsWithLargeBlocks }
{}

/// The text of a run that was saved is read as the image of its last state, which is sound, and whose booted state is the last one with
/// each row Ready and the rows in the order of the core lines.
pub fn saved_runs_come_back()
    ensures { SavedRunsComeBack }
{}
