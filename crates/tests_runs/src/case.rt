//! The cases of a case file.

/// What a file becomes, or has to hold.
#[derive(Drop)]
pub(crate) enum Content {
    /// This text.
    Text(Vec<u8>),
    /// What the file of this name holds.
    Like(String),
    /// There is no file.
    Absent,
}

/// A change of a file.
#[derive(Drop)]
pub(crate) enum Change {
    /// A text that stands exactly once, and what comes in its place.
    Once(Vec<u8>, Vec<u8>),
    /// A text, and what comes in its place wherever it stands.
    Each(Vec<u8>, Vec<u8>),
    /// The line of this number is taken out.
    Without(usize),
    /// Lines are put in, the first of them as that of this number.
    With(usize, Vec<u8>),
    /// Lines are put in behind the last one.
    Behind(Vec<u8>),
    /// So many lines are kept.
    First(usize),
    /// It holds this text.
    Text(Vec<u8>),
    /// It holds what the file of this name holds.
    Like(String),
}

/// A file with a change.
#[derive(Drop)]
pub(crate) struct Edit {
    /// The number of its line.
    pub(crate) line: usize,
    pub(crate) file: String,
    pub(crate) change: Change,
}

/// What a file has to hold after a run.
#[derive(Drop)]
pub(crate) struct Wanted {
    pub(crate) file: String,
    pub(crate) content: Content,
}

/// A run, and what has to come of it.
#[derive(Drop)]
pub(crate) struct Run {
    /// The number of its line.
    pub(crate) line: usize,
    /// The number of the last line that says what has to come of it.
    pub(crate) end: usize,
    pub(crate) words: Vec<String>,
    pub(crate) status: u8,
    /// Standard output.
    pub(crate) printed: Vec<u8>,
    /// Standard error.
    pub(crate) told: Vec<u8>,
    pub(crate) files: Vec<Wanted>,
}

/// What a case does next.
#[derive(Drop)]
pub(crate) enum Step {
    Edit(Edit),
    Run(Run),
}

/// A case: its title, the base that its files are of, if any, and what it does.
#[derive(Drop)]
pub(crate) struct Case<'a> {
    /// The number of its line.
    pub(crate) line: usize,
    pub(crate) title: &'a str,
    pub(crate) base: Option<&'a str>,
    pub(crate) steps: Vec<Step>,
}
