//! The words of an image.

/// The first word of a line behind the first five.
#[derive(Clone, Copy, Debug, PartialEq, Eq)]
pub enum LineWord {
    Range,
    Large,
    Accept,
    Core,
    Bytes,
    Fault,
    Host,
    Pool,
    Block,
    Announce,
}

/// The format of an image: with one VMPL of the guest, or with two.
#[derive(Clone, Copy, Debug, PartialEq, Eq)]
pub enum Format {
    One,
    Two,
}

/// The second word of a `host` line with one number.
#[derive(Clone, Copy, Debug, PartialEq, Eq)]
pub enum ValueWord {
    Info,
    Features,
    Share,
    Ghcb,
    Step,
}

/// The second word of a `host` line with three numbers.
#[derive(Clone, Copy, Debug, PartialEq, Eq)]
pub enum EventWord {
    Exit,
    Change,
    Run,
}
