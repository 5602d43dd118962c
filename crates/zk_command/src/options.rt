// The options of the commands: one table, by which arguments are read, help is written and mistakes are told.

use zk_inspect::section::{SECTIONS, Section};

/// An option with a number.
#[derive(Clone, Copy)]
pub(crate) struct NumberOption {
    pub(crate) name: &'static str,
    /// The number where the option is not given, if there is one then.
    pub(crate) default: Option<&'static str>,
    pub(crate) least: u64,
    pub(crate) most: u64,
    /// The word in place of a number for which the program finds one, if there is such a word.
    pub(crate) word: Option<&'static str>,
    pub(crate) help: &'static str,
}

/// An option of a command.
#[derive(Clone, Copy)]
pub(crate) enum CommandOption {
    /// With a number.
    Number(NumberOption),
    /// With a text, which help calls so, or not at all.
    Value {
        name: &'static str,
        value: &'static str,
        help: &'static str,
    },
    /// With a text, which help calls so, as often as it is given.
    Values {
        name: &'static str,
        value: &'static str,
        help: &'static str,
    },
    /// Without a value.
    Flag {
        name: &'static str,
        help: &'static str,
    },
    /// No option, but the path of a file, which has to be given.
    Path {
        name: &'static str,
        help: &'static str,
    },
    /// The path of a story.
    Story,
    /// The paths of stories, one at least.
    Stories,
    /// The paths of walkthroughs and folders, one at least.
    Walkthroughs,
    /// The paths of coverage files, one at least, and then that of the story.
    Covers,
}

/// A command, by what its help says, with the sections that it lists, each by a flag, its options and then its paths.
#[derive(Clone, Copy)]
pub(crate) struct CommandTable {
    pub(crate) name: &'static str,
    pub(crate) about: &'static str,
    pub(crate) example: &'static str,
    pub(crate) sections: &'static [Section],
    pub(crate) options: &'static [CommandOption],
}

// help says the range of a number, as the row does
macro_rules! number {
    ($name:literal, $default:expr, $least:literal to $most:literal, $help:literal) => {
        NumberOption {
            name: $name,
            default: $default,
            least: $least,
            most: $most,
            word: None,
            help: concat!($help, ", ", $least, " to ", $most),
        }
    };
    ($name:literal, $default:expr, $least:literal to $most:literal, $help:literal, or $word:literal $does:literal) => {
        NumberOption {
            name: $name,
            default: $default,
            least: $least,
            most: $most,
            word: Some($word),
            help: concat!($help, ", ", $least, " to ", $most, "; ", $word, " ", $does),
        }
    };
}

pub(crate) const FRAMES: NumberOption =
    number!("frames", Some("1024"), 1 to 65535, "The most routines that may be open at once");

pub(crate) const WORDS: NumberOption =
    number!("words", Some("16384"), 0 to 65535, "The most words that the open routines may hold");

pub(crate) const UNDO: NumberOption =
    number!("undo", Some("16"), 0 to 64, "How many undo states are kept");

pub(crate) const STEPS: NumberOption =
    number!("steps", Some("10000000"), 1 to 1000000000, "The most instructions a story may run between two inputs");

pub(crate) const SEED: NumberOption =
    number!("seed", Some("1"), 0 to 18446744073709551615, "Seed for random numbers",
        or "any" "takes one from the clock");

pub(crate) const WIDTH: NumberOption =
    number!("width", None, 20 to 255, "Wraps lines at this many columns", or "auto" "uses the terminal's width");

pub(crate) const PAGE: NumberOption =
    number!("page", None, 2 to 1000, "Pauses after this many lines at a terminal", or "auto" "fits its height");

const NAMES: CommandOption = CommandOption::Value {
    name: "names",
    value: "FILE",
    help: "Takes names and lines of the source from this debugging file, which `inform6 -k` writes",
};

/// The options of `play`.
const PLAY_OPTIONS: [CommandOption; 19] = [
    CommandOption::Number(FRAMES),
    CommandOption::Number(WORDS),
    CommandOption::Number(UNDO),
    CommandOption::Number(STEPS),
    CommandOption::Number(SEED),
    CommandOption::Value {
        name: "save",
        value: "FILE",
        help: "Saves to and restores from this file, which each save overwrites",
    },
    CommandOption::Value {
        name: "saves",
        value: "FOLDER",
        help: "Keeps saved games in this folder, and asks for a name each time",
    },
    CommandOption::Value {
        name: "script",
        value: "FILE",
        help: "Writes the story's transcript to this file, emptied first",
    },
    CommandOption::Flag {
        name: "upper",
        help: "Shows the status line and the upper window, on lines of their own",
    },
    CommandOption::Flag {
        name: "boxes",
        help: "Shows the status line and the upper window above the prompt, including quotation boxes",
    },
    CommandOption::Number(WIDTH),
    CommandOption::Number(PAGE),
    CommandOption::Flag {
        name: "styles",
        help: "Shows bold, italic and reverse text at a terminal",
    },
    CommandOption::Flag {
        name: "echo",
        help: "Repeats each line of input, for input from a pipe",
    },
    CommandOption::Value {
        name: "record",
        value: "FILE",
        help: "Records the commands to this file as a walkthrough, emptied first",
    },
    CommandOption::Flag {
        name: "calls",
        help: "Prints the call stack after a fault or limit",
    },
    CommandOption::Value {
        name: "cover",
        value: "FILE",
        help: "Adds the addresses of executed instructions to this coverage file",
    },
    NAMES,
    CommandOption::Story,
];

pub(crate) const PLAY: CommandTable = CommandTable {
    name: "play",
    about: "Plays a story",
    example: "Example: zkit play --steps 50000000 story.z5",
    sections: &[],
    options: &PLAY_OPTIONS,
};

const RECURSIVE: CommandOption = CommandOption::Flag {
    name: "recursive",
    help: "Searches folders, and the folders in them",
};

const ROWS: CommandOption = CommandOption::Flag {
    name: "rows",
    help: "Prints tab-separated rows, one fact a line, the path first",
};

const JSON: CommandOption = CommandOption::Flag {
    name: "json",
    help: "Prints one JSON object a story, each on a line",
};

const NOTES: CommandOption = CommandOption::Flag {
    name: "notes",
    help: "Adds explanations",
};

const OBJECT_GRAPH: CommandOption = CommandOption::Flag {
    name: "graph",
    help: "Prints the tree of objects as a Graphviz graph",
};

const CALL_GRAPH: CommandOption = CommandOption::Flag {
    name: "graph",
    help: "Prints the call graph, for Graphviz",
};

const FILES_FROM: CommandOption = CommandOption::Value {
    name: "files-from",
    value: "FILE",
    help: "Reads paths from this file, or from standard input for -, separated by new lines or zero bytes",
};

/// The options of `info`, beside those of sections.
const INFO_OPTIONS: [CommandOption; 9] = [
    NAMES,
    NOTES,
    OBJECT_GRAPH,
    CommandOption::Flag {
        name: "svg",
        help: "Prints the map as an SVG picture",
    },
    ROWS,
    JSON,
    RECURSIVE,
    FILES_FROM,
    CommandOption::Stories,
];

const INFO: CommandTable = CommandTable {
    name: "info",
    about: "Lists the tables of stories; without an option, their headers",
    example: "Example: zkit info --dictionary story.z5",
    sections: &SECTIONS,
    options: &INFO_OPTIONS,
};

/// The options of `disasm`.
const DISASM_OPTIONS: [CommandOption; 13] = [
    CommandOption::Flag {
        name: "all",
        help: "Also lists unreached routines",
    },
    CommandOption::Values {
        name: "at",
        value: "ADDRESS",
        help: "Also disassembles from the instruction at this byte address; with --names, at this FILE:LINE",
    },
    CommandOption::Values {
        name: "routine",
        value: "ADDRESS",
        help: "Also disassembles the routine at this byte address; with --names, of this name",
    },
    CommandOption::Flag {
        name: "only",
        help: "Lists only the routines that --routine names, or that have an instruction of --at",
    },
    CommandOption::Value {
        name: "cover",
        value: "FILE",
        help: "Also disassembles from the addresses in this coverage file, and marks them",
    },
    NAMES,
    CommandOption::Values {
        name: "source",
        value: "FOLDER",
        help: "Shows the lines of the source, from the files in this folder; needs --names",
    },
    CommandOption::Flag {
        name: "callers",
        help: "Heads each routine with the instructions that call it",
    },
    NOTES,
    CALL_GRAPH,
    CommandOption::Value {
        name: "around",
        value: "ROUTINE",
        help: "With --graph, draws only this routine, what calls it and what it calls",
    },
    CommandOption::Value {
        name: "depth",
        value: "n",
        help: "How many calls away --around goes, 1 to 99; without this option 1",
    },
    CommandOption::Story,
];

const DISASM: CommandTable = CommandTable {
    name: "disasm",
    about: "Disassembles the code reachable from the start",
    example: "Example: zkit disasm story.z5",
    sections: &[],
    options: &DISASM_OPTIONS,
};

/// The options of `check`.
const CHECK_OPTIONS: [CommandOption; 8] = [
    NAMES,
    NOTES,
    CommandOption::Flag {
        name: "summary",
        help: "Adds a count of all findings, by kind",
    },
    ROWS,
    JSON,
    RECURSIVE,
    FILES_FROM,
    CommandOption::Stories,
];

/// What `check` says of its findings.
const CHECK_HELP: &str =
    "A finding has the address of an object's entry, a text or an instruction. \
`zkit info --objects` lists objects in the order of their entries, `zkit disasm` routines and instructions \
by address. Code that only computed calls and jumps reach is not checked.

Example: zkit check story.z5";

const CHECK: CommandTable = CommandTable {
    name: "check",
    about: "Checks stories for damage and mistakes, and ends with status 6 if it finds any",
    example: CHECK_HELP,
    sections: &[],
    options: &CHECK_OPTIONS,
};

/// The options of `test`.
const TEST_OPTIONS: [CommandOption; 7] = [
    FILES_FROM,
    CommandOption::Value {
        name: "story",
        value: "FILE",
        help: "Default story, for walkthroughs that name none",
    },
    CommandOption::Flag {
        name: "bless",
        help: "Writes the expected transcripts instead of comparing them",
    },
    CommandOption::Value {
        name: "cover",
        value: "FILE",
        help: "Adds the addresses of executed instructions to this coverage file",
    },
    NAMES,
    CommandOption::Flag {
        name: "strict",
        help: "Plays once more, slowly, and fails at accesses outside arrays and other misuses",
    },
    CommandOption::Walkthroughs,
];

const TEST: CommandTable = CommandTable {
    name: "test",
    about: "Plays walkthroughs and compares the output with their transcripts",
    example: "Example: zkit test tests",
    sections: &[],
    options: &TEST_OPTIONS,
};

/// The options of `cover`, and its paths.
const COVER_OPTIONS: [CommandOption; 5] = [
    NAMES,
    CommandOption::Values {
        name: "source",
        value: "FOLDER",
        help: "Looks for the files of the source in this folder",
    },
    CommandOption::Value {
        name: "lcov",
        value: "FILE",
        help: "Writes the coverage to this file, for lcov",
    },
    CommandOption::Value {
        name: "html",
        value: "FILE",
        help: "Writes the coverage to this file, as a page for browsers",
    },
    CommandOption::Covers,
];

pub(crate) const COVER: CommandTable = CommandTable {
    name: "cover",
    about: "Tells what plays have run, by coverage files",
    example: "Example: zkit cover --names gameinfo.dbg ran.txt story.z5",
    sections: &[],
    options: &COVER_OPTIONS,
};

/// The paths of `unpack`.
const UNPACK_OPTIONS: [CommandOption; 2] = [
    CommandOption::Path {
        name: "FILE",
        help: "The Blorb file",
    },
    CommandOption::Path {
        name: "OUT",
        help: "The file to create",
    },
];

const UNPACK: CommandTable = CommandTable {
    name: "unpack",
    about: "Takes the story out of a Blorb file",
    example: "Example: zkit unpack story.zblorb story.z5",
    sections: &[],
    options: &UNPACK_OPTIONS,
};

/// The options of `page`, and its paths.
const PAGE_OPTIONS: [CommandOption; 7] = [
    CommandOption::Value {
        name: "title",
        value: "TEXT",
        help: "The story's title",
    },
    CommandOption::Value {
        name: "author",
        value: "TEXT",
        help: "Who wrote the story",
    },
    CommandOption::Value {
        name: "blurb",
        value: "FILE",
        help: "Shows the text of this file before the story begins",
    },
    CommandOption::Value {
        name: "cover",
        value: "FILE",
        help: "Shows this picture, PNG or JPEG, before the story begins",
    },
    CommandOption::Value {
        name: "walkthrough",
        value: "FILE",
        help: "Offers to play the commands of this file",
    },
    CommandOption::Story,
    CommandOption::Path {
        name: "OUT",
        help: "The page to create",
    },
];

const STORY_PAGE: CommandTable = CommandTable {
    name: "page",
    about: "Makes a page for browsers that plays a story",
    example: "Example: zkit page --title 'The Cave' cave.z5 cave.html",
    sections: &[],
    options: &PAGE_OPTIONS,
};

/// The commands.
pub(crate) const COMMANDS: [CommandTable; 8] = [
    PLAY, INFO, DISASM, CHECK, TEST, COVER, UNPACK, STORY_PAGE,
];
