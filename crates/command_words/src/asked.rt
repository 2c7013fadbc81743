//! What the words ask for.

/// A run, as the words ask for it.
#[derive(Debug, Drop)]
pub struct RunWords<'a> {
    pub brief: bool,
    pub image: &'a str,
    pub scripts: Vec<&'a str>,
}

/// Generated scripts, as the words ask for them.
#[derive(Clone, Copy, Debug, PartialEq, Eq)]
pub struct GenWords {
    /// 1 to 16.
    pub cores: u32,
    /// How many for each core, 1 to 128.
    pub requests: u64,
    /// Where the congruence begins.
    pub number: u64,
}

/// A run whose last state is to be saved, as the words ask for it.
#[derive(Debug, Drop)]
pub struct SaveWords<'a> {
    pub image: &'a str,
    pub scripts: Vec<&'a str>,
}

/// A report that is to be audited, as the words ask for it.
#[derive(Debug, Drop)]
pub struct AuditWords<'a> {
    pub image: &'a str,
    pub report: &'a str,
    pub scripts: Vec<&'a str>,
}

/// A command, as the words ask for it.
#[derive(Debug, Drop)]
pub enum Command<'a> {
    Run(RunWords<'a>),
    Gen(GenWords),
    Save(SaveWords<'a>),
    Audit(AuditWords<'a>),
}
