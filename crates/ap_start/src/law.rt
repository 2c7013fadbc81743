//! What the definitions imply.
ghost use Rattle.ap_start.specs.Due.{EndsAsDue};

/// Against a host that answers by the lines of an image, the exits of a wave end at the first that the lines refuse.
pub fn exits_end_as_due()
    ensures { EndsAsDue }
{}
