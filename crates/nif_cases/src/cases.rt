//! Cases.

/// Bytes with a name: a file, or bytes that cases use.
#[derive(Drop)]
pub struct Named {
    pub name: String,
    pub bytes: Vec<u8>,
}

/// How often a case is run, beside once in each size of pieces.
#[derive(Drop)]
pub enum Turns {
    /// Once.
    Once,
    /// With each call of the shelf refused in its turn: a letter for each, `o` for an open, `r` for a read, `c` for a
    /// create and `w` for a write.
    Calls { letters: Vec<u8> },
    /// With each write of what is printed refused in its turn.
    Prints,
    /// With the first file cut at each length; the places where its parts begin.
    Cuts { parts: Vec<usize> },
}

/// A line of words over files in memory, and what it is to come to.
#[derive(Drop)]
pub struct Case {
    pub name: String,
    pub words: Vec<String>,
    pub files: Vec<Named>,
    /// The most bytes that a call gives or takes, for each run.
    pub pieces: Vec<usize>,
    /// The call of the shelf that is refused.
    pub failing: Option<u64>,
    /// The write of what is printed that is refused.
    pub unprinted: Option<u64>,
    pub turns: Turns,
    pub status: u8,
    pub printed: Vec<u8>,
    /// The files that are other ones behind the call.
    pub leaves: Vec<Named>,
}
