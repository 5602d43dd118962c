// How an instruction's effect ends.

use zk_tables::arrays::rectangle::Rectangle;
use zk_term::style::Bleep;

/// How an effect ends, before the next address is known.
#[derive(Clone, Copy, Drop)]
pub enum Ending {
    /// Goes on, with a result, a truth, both or neither.
    GoOn(Option<u16>, Option<bool>),
    /// Jumps by an offset.
    Jump(u16),
    /// Calls the routine at a packed address with the values of so many further operands at most.
    Call(u16, u8),
    /// Returns a value from the current routine.
    Return(u16),
    /// Returns a value from the frame of a number, where the first frame has number 0.
    Throw(u16, u16),
    /// Begins the story again.
    Restart,
    /// Asks something of the machine.
    Asks(Request),
}

/// What an instruction yields: a result to store, a truth to branch on, both or neither.
#[derive(Clone, Copy, Drop)]
pub struct Yield {
    pub result: Option<u16>,
    pub truth: Option<bool>,
}

/// What an instruction asks of the machine, which goes on nowhere by itself then.
#[derive(Clone, Copy, Drop)]
pub enum Request {
    /// To wait for an answer.
    Answer(Event),
    /// To keep the state that the instruction found, as one to go back to.
    SaveUndo,
    /// To go back to the newest state that is kept.
    RestoreUndo,
    /// To end the story.
    Quit,
}

/// What a machine waits for.
#[derive(Clone, Copy, PartialEq, Eq, Drop)]
pub enum Event {
    /// A line of input, for the text buffer and the parse buffer at two byte addresses.
    Line(u16, u16),
    /// A character of input.
    Char,
    /// Whether a save is kept.
    Save,
    /// A file to restore, or none.
    Restore,
}

/// What an instruction prints.
#[derive(Clone, Copy, Drop)]
pub enum Output {
    Nothing,
    /// A ZSCII code.
    Code(u16),
    /// A Unicode character.
    Character(u16),
    /// A signed number.
    Number(u16),
    /// The text at a byte address.
    Text(u32),
    /// The text at a byte address, and a new line.
    Line(u32),
    /// Rows of ZSCII codes in memory.
    Rows(Rectangle),
    /// The status line, which is no printed text: no stream and no window matters to it.
    Status,
    /// An erasure of the lower window.
    Erasure,
    Bleep(Bleep),
}

/// What an effect does beside its changes of the game state.
#[derive(Clone, Copy, Drop)]
pub struct Effect {
    pub output: Output,
    pub ending: Ending,
}

/// Where a machine goes on.
#[derive(Clone, Copy, Drop)]
pub enum Next {
    /// At the instruction at a byte address.
    At(u32),
    /// Nowhere, before what it asks of the machine is done.
    Asks(Request),
}

impl Yield {
    ghost use Rattle.std.specs.Prelude.{◌≡◌};
    ghost use Rattle.zk_step.specs.Endings.{yields, yields_truth, yields_found, yields_nothing};

    /// A result.
    #[inline(always)]
    pub fn word(word: u16) -> Yield
        ensures { result ≡ yields word }
    {
        Yield {
            result: Some(word),
            truth: None,
        }
    }

    /// A truth.
    #[inline(always)]
    pub fn truth(truth: bool) -> Yield
        ensures { result ≡ yields_truth truth }
    {
        Yield {
            result: None,
            truth: Some(truth),
        }
    }

    /// An object that is found, or 0, and whether it is one.
    #[inline(always)]
    pub fn found(object: u16) -> Yield
        ensures { result ≡ yields_found object }
    {
        Yield {
            result: Some(object),
            truth: Some(object != 0),
        }
    }

    /// Neither.
    #[inline(always)]
    pub fn nothing() -> Yield
        ensures { result ≡ yields_nothing }
    {
        Yield {
            result: None,
            truth: None,
        }
    }
}

impl Effect {
    ghost use Rattle.std.specs.Prelude.{◌≡◌};
    ghost use Rattle.zk_step.specs.Endings.{ends, ends_with, goes_on, gives, tests, prints, awaits};

    /// Nothing is printed.
    pub fn ends(ending: Ending) -> Effect
        ensures { result ≡ ends ending }
    {
        Effect {
            output: Output::Nothing,
            ending,
        }
    }

    /// The instruction goes on with what it yields.
    pub fn ends_with(yielded: Yield) -> Effect
        ensures { result ≡ ends_with yielded }
    {
        Effect::ends(Ending::GoOn(yielded.result, yielded.truth))
    }

    /// The next instruction follows.
    pub fn goes_on() -> Effect
        ensures { result ≡ goes_on }
    {
        Effect::ends(Ending::GoOn(None, None))
    }

    /// The instruction gives a result.
    pub fn gives(word: u16) -> Effect
        ensures { result ≡ gives word }
    {
        Effect::ends(Ending::GoOn(Some(word), None))
    }

    /// The instruction tests a truth.
    pub fn tests(truth: bool) -> Effect
        ensures { result ≡ tests truth }
    {
        Effect::ends(Ending::GoOn(None, Some(truth)))
    }

    /// The instruction waits for an answer.
    pub fn awaits(event: Event) -> Effect
        ensures { result ≡ awaits event }
    {
        Effect::ends(Ending::Asks(Request::Answer(event)))
    }

    /// The instruction prints and goes on.
    pub fn prints(output: Output) -> Effect
        ensures { result ≡ prints output }
    {
        Effect {
            output,
            ending: Ending::GoOn(None, None),
        }
    }
}
