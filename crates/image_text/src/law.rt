//! What saving implies.
ghost use Rattle.image_text.specs.Boots.{BootsInto};
ghost use Rattle.image_text.specs.PageForm.{TidyPagesAreSaid};
ghost use Rattle.image_text.specs.ReadsAgain.{ReadsAgain};
ghost use Rattle.image_text.specs.SavedSound.{SavesReadable};
ghost use Rattle.image_text.specs.Worked.{WorkedSave};

/// The text of a sound image without accepts, faults and host lines is read as that image.
pub fn reads_again()
    ensures { ReadsAgain }
{}

/// The image of a last state boots into it, with each row ready and the rows in the order of the core lines.
pub fn boots_into()
    ensures { BootsInto }
{}

/// The image of a last state is sound, and its text can say it.
pub fn saves_readable()
    ensures { SavesReadable }
{}

/// Each tidy page but the GHCB page is as its range line says it.
pub fn tidy_pages_are_said()
    ensures { TidyPagesAreSaid }
{}

/// A worked image, line by line.
pub fn worked_save()
    ensures { WorkedSave }
{}
