// What a run is asked for.

use zk_inspect::section::Section;
use zk_step::state::game_state::View;
use zk_vm::limits::Limits;

/// What a run depends on, beside its story and the answers.
#[derive(Clone, Copy, Drop)]
pub struct Settings {
    /// What a run holds and runs at most.
    pub limits: Limits,
    /// What begins the random numbers.
    pub seed: u64,
    /// What is shown of the status line and the upper window.
    pub view: View,
}

/// What a command lists of stories.
#[derive(Drop)]
pub enum Asked {
    /// Sections on their tables, one at least, in the order in which they are shown.
    Sections(Vec<Section>),
    /// Their code. `all`: the routines that lie beside as well.
    Code { all: bool },
    /// What is wrong with them.
    Findings,
}

/// In which form listings are shown.
#[derive(Clone, Copy, PartialEq, Eq, Drop)]
pub enum Form {
    /// On lines, for readers.
    Lines,
    /// As rows: a fact on a line, in fields.
    Rows,
    /// As JSON: an object for each story, on a line.
    Json,
    /// As a graph, in Graphviz's language.
    Graph,
    /// As a picture, in SVG.
    Picture,
}

/// How stories are looked for and shown.
#[derive(Clone, Copy, Drop)]
pub struct ShowOptions {
    /// Whether a folder stands for the files in it.
    pub recursive: bool,
    pub form: Form,
    /// Whether notes stand beside what is listed.
    pub notes: bool,
    /// Whether the findings of all stories are counted after them.
    pub summary: bool,
    /// Whether each routine is headed with the places that it is called from.
    pub callers: bool,
    /// Whether nothing is listed but what is named.
    pub only: bool,
}

/// Where code is looked for beside the first instruction.
#[derive(Drop)]
pub struct Roots<'a> {
    /// The addresses of instructions, as texts.
    pub at: Vec<&'a str>,
    /// The addresses of routines, as texts.
    pub routines: Vec<&'a str>,
    /// The file with the addresses of instructions that ran.
    pub cover: Option<&'a str>,
}

/// By which names a listing is shown, and which calls a graph shows.
#[derive(Drop)]
pub struct Naming<'a> {
    /// The compiler's debugging file.
    pub names: Option<&'a str>,
    /// The folders in which the source is looked for.
    pub sources: Vec<&'a str>,
    /// The routine whose calls are shown, by its address or its name.
    pub around: Option<&'a str>,
    /// How many calls away from it, as a text.
    pub depth: Option<&'a str>,
}

/// A number of an option.
#[derive(Clone, Copy, PartialEq, Eq, Drop)]
pub enum Amount {
    /// It is said.
    Number(u64),
    /// The program finds it: by the clock, or by what it knows of the terminal.
    Found,
}

/// What the options of `play` say.
#[derive(Clone, Copy, Drop)]
pub struct PlayOptions<'a> {
    pub limits: Limits,
    pub seed: Amount,
    pub view: View,
    /// Whether the status line and the upper window are shown above the prompt, also rows that were taken away.
    pub boxes: bool,
    /// The file of the saved game.
    pub save: Option<&'a str>,
    /// The folder of saved games whose names are asked for.
    pub saves: Option<&'a str>,
    /// The file of the transcript.
    pub script: Option<&'a str>,
    /// The file that gets the lines that are read.
    pub recorded: Option<&'a str>,
    /// How many columns the screen's lines have, 20 to 255: longer ones are broken at a space. Lines stay as they are
    /// without it.
    pub width: Option<Amount>,
    /// After how many lines without a read Enter is waited for, 2 to 1000. Nothing is waited for without it.
    pub page: Option<Amount>,
    /// Whether a terminal shows the styles of the text.
    pub styles: bool,
    /// Whether lines that are read are shown after the prompt.
    pub echo: bool,
    /// Whether the calls that led to a fault or a limit are told.
    pub calls: bool,
    /// The file that gets the addresses of the instructions that were carried out.
    pub cover: Option<&'a str>,
    /// The compiler's debugging file, by which calls are told.
    pub names: Option<&'a str>,
}

/// What the options of `test` say.
#[derive(Clone, Copy, Drop)]
pub struct TestOptions<'a> {
    /// The story of a walkthrough that names none.
    pub story: Option<&'a str>,
    /// Whether transcripts are written, and not compared.
    pub bless: bool,
    /// The file that gets the addresses of the instructions that were carried out.
    pub cover: Option<&'a str>,
    /// The compiler's debugging file, by which calls are told.
    pub names: Option<&'a str>,
    /// Whether a test fails too by what the Standard lets pass and an author hardly means.
    pub strict: bool,
}

/// What the options of `cover` say.
#[derive(Clone, Copy, Drop)]
pub struct CoverOptions<'a> {
    /// The compiler's debugging file.
    pub names: Option<&'a str>,
    /// The file that gets the coverage in lcov's form.
    pub lcov: Option<&'a str>,
    /// The file that gets the coverage as a page.
    pub html: Option<&'a str>,
}

/// What the options of `page` say.
#[derive(Clone, Copy, Drop)]
pub struct PageOptions<'a> {
    pub title: Option<&'a str>,
    pub author: Option<&'a str>,
    /// The file of a text that is shown before the story begins.
    pub blurb: Option<&'a str>,
    /// The file of a picture that is shown before the story begins.
    pub cover: Option<&'a str>,
    /// The file of commands that the page offers to play.
    pub walkthrough: Option<&'a str>,
}
