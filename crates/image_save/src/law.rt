//! What the places stand for.
ghost use Rattle.image_save.specs.Stood.{MadePlacesStand};

/// Fresh places that were made as the parts of a state stand as it: what is told of them is told of the state.
pub fn made_places_stand()
    ensures { MadePlacesStand }
{}
