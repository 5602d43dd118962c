// What came of a look at a story.

use zk_inspect::fact::Fact;
use zk_mem::memory::Memory;

/// The facts of a listing, and the story that they are about.
#[derive(Clone, Copy, Drop)]
pub struct Facts<'a> {
    pub memory: &'a Memory,
    pub list: &'a [Fact],
}

/// What came of a look at the story in a file.
#[derive(Clone, Copy, Drop)]
pub enum Outcome<'a> {
    /// What `info` lists.
    Listed(Facts<'a>),
    /// What `check` finds.
    Checked(Facts<'a>),
    /// The file is no story, by the number of its refusal, and why in a word or two.
    Refused(u8, &'a str),
    /// The file can't be read, by the words of the reason.
    Unread(&'a str),
}

/// What was looked at, and what came of it.
#[derive(Clone, Copy, Drop)]
pub struct Looked<'a> {
    pub path: &'a str,
    pub outcome: Outcome<'a>,
}
