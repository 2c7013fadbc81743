//! What a run leaves that was saved boots.
#![tactic(auto)]

ghost use Rattle.save_boots.specs.Boots.{QuietImagesBoot, SavedRunsBoot};

/// A sound image boots that accepts nothing and has no host lines.
pub fn quiet_images_boot()
    ensures { QuietImagesBoot }
{}

/// The image that the text of a saved run is read as boots.
pub fn saved_runs_boot()
    ensures { SavedRunsBoot }
{}
