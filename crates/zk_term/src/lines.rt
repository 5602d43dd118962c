// The lines of an input.

ghost use Rattle.std.specs.Prelude.{◌≡◌, ◌<◌, ◌≤◌, ◌⊎◌, ◌∷◌, ◌++◌, take, List, ℕ, Bool, Option, None, Some, [], length};
ghost use Rattle.std.specs.Prelude.{true, IfOk, OnErr, OnOk};
ghost use Rattle.std.specs.List.{AllByRecursion};
ghost use Rattle.std.specs.Str.Lines.{strip_carriage_return};
ghost use Rattle.zk_text.specs.Extra.{ExtraTable, is_input_code};
ghost use Rattle.zk_term.specs.Characters.{character_length, character_of, character_step, typed_code, line_codes};
ghost use Rattle.zk_term.specs.declared.lines.InputEnd.{InputEnd};
ghost use Rattle.zk_term.specs.Devices.{HasJust};
ghost use Rattle.zk_term.specs.Lines.{Reading, ReadFailed, GivesEach, GivesLine, GoesBy, FailsAlone, Hears};
ghost use Rattle.zk_term.specs.Lines.{HasInputCodes, IsOverAfter, MeetsBound, over_input, TakesByte, TakesLine};
ghost use Rattle.zk_term.specs.Lines.{TakesAnswer};

use crate::source::Source;
use crate::target::Failed;
use arrayvec::ArrayVec;
use std::marker::Model;
use zk_text::extra::Extra;

/// How many bytes are read at once.
const CHUNK: usize = 1024;

/// How many bytes of a line are kept: 255 characters have 1,020 at most.
const KEPT: usize = 1024;

/// So many bytes without a new line are too many.
const TOO_LONG: u32 = 65_536;

/// How an input is over.
#[derive(Clone, Copy, Drop)]
pub(crate) enum InputEnd {
    /// It has no more bytes.
    End,
    /// It can't be read any more.
    Failed,
}

/// What is heard when a line is waited for.
#[derive(PartialEq, Eq, Drop)]
pub enum Input {
    /// A line, as ZSCII codes that may be typed: the first 255 of them.
    Line(ArrayVec<u8, 255>),
    /// There is no more input.
    End,
    /// The input can't be read, or 65,536 bytes came without a new line.
    Failed,
}

/// Reads an input line by line. Contracts see it as the bytes that it has read ahead, and how the input is
/// over, if it is.
#[derive(Drop)]
pub struct Lines {
    buffer: [u8; CHUNK],
    start: usize,
    end: usize,
    over: Option<InputEnd>,
}

impl Model for Lines {
    ghost use Rattle.std.specs.Prelude.{◌-◌, ◌≤◌, take, drop};
    ghost use Rattle.zk_term.specs.declared.lines.InputEnd.{InputEnd};
    ghost use Rattle.zk_term.specs.Lines.{Reading};

    ghost Value = { Reading };

    ghost view = { λ l. record
        { ahead = take (l.end - l.start) (drop l.start l.buffer); over = l.over } };

    ghost invariant = { λ l. (l.start ≤ l.end) × (l.end ≤ 1024) };
}

/// The character that bytes begin with, where they begin with one.
fn first_character(bytes: &[u8]) -> Option<char>
    requires { 0 < length bytes.now }
    ensures value { result ≡ character_of (character_length bytes.now) bytes.now }
    ensures within { character_step result ≤ length bytes.now }
{
    for count in 1..=bytes.len().min(4) {
        if let Ok(text) = std::str::from_utf8(&bytes[..count]) {
            return text.chars().next();
        }
    }
    None
}

/// How many bytes a character takes: one where there is none, for a stray byte.
fn width(character: Option<char>) -> usize
    ensures value { result ≡ character_step character }
    ensures some { 0 < result }
{
    match character {
        None => 1,
        Some(c) => c.len_utf8(),
    }
}

/// The ZSCII code of a typed character.
fn code_of(character: Option<char>, extra: &Extra) -> u8
    ensures value { result ≡ typed_code extra.now character }
    ensures input { is_input_code result ≡ true }
{
    match character {
        None => b'?',
        Some('\t') => b' ',
        Some(c) => extra.from_char(c as u32).unwrap_or(b'?'),
    }
}

/// The codes of a line.
#[tactic(auto, using(crate::proofs::Cutting::of_codes_of))]
fn codes_of(bytes: &[u8], extra: &Extra) -> ArrayVec<u8, 255>
    ensures value { result.items ≡ line_codes extra.now bytes.now }
    ensures input { AllByRecursion (λ c. is_input_code c ≡ true) result.items }
{
    let mut codes = ArrayVec::new();
    let mut at = 0;
    while at < bytes.len() && !codes.is_full() {
        let character = first_character(&bytes[at..]);
        codes.push(code_of(character, extra));
        at += width(character);
    }
    codes
}

/// Adds a byte to those of a line, where there is room.
#[tactic(auto, using(crate::proofs::Cutting::keep_all, crate::proofs::Cutting::keep_full))]
fn keep(line: &mut ArrayVec<u8, KEPT>, byte: u8)
    ensures { line.new.items ≡ take 1024 (line.old.items ++ byte ∷ []) }
{
    if !line.is_full() {
        line.push(byte);
    }
}

/// A line without a return at its end.
fn without_return(mut line: ArrayVec<u8, KEPT>) -> ArrayVec<u8, KEPT>
    ensures { result.items ≡ strip_carriage_return line.items }
{
    if line.as_slice().last() == Some(&b'\r') {
        line.pop();
    }
    line
}

impl InputEnd {
    /// The answer where an input is over.
    fn input(self) -> Input
        ensures { result ≡ over_input self }
    {
        match self {
            InputEnd::End => Input::End,
            InputEnd::Failed => Input::Failed,
        }
    }
}

impl Lines {
    /// A reader at the start of an input.
    pub fn new() -> Lines
        ensures { result ≡ record { ahead = []; over = None } }
    {
        Lines {
            buffer: [0; CHUNK],
            start: 0,
            end: 0,
            over: None,
        }
    }

    /// Reads at least one byte ahead, where none is left.
    fn fill<S: Source>(&mut self, source: &mut S) -> Result<(), InputEnd>
        requires { self.old.ahead ≡ [] }
        ensures room { IfOk result (λ _. 0 < length self.new.ahead) }
        ensures bytes { GivesEach (λ _. []) self.old (S.left source.old) self.new
            (S.left source.new) result }
        ensures gives { IfOk result (λ _. S.gives source.old source.new self.new.ahead) }
        ensures over { self.new.over ≡ self.old.over }
        ensures goes { GoesBy (ReadFailed S.fails S.failed source.new self.new)
            (HasJust S.ends source.new) (S.failed source.new ≡ S.failed source.old) result }
    {
        match source.read(&mut self.buffer) {
            Ok(0) => Err(InputEnd::End),
            Ok(count) => {
                self.start = 0;
                self.end = count;
                Ok(())
            }
            Err(Failed) => Err(InputEnd::Failed),
        }
    }

    /// Takes the first of the bytes that were read ahead.
    #[tactic(auto, using(crate::proofs::Taking::ahead_on, crate::proofs::Taking::ahead_some))]
    fn take_ahead(&mut self) -> u8
        requires { 0 < length self.old.ahead }
        ensures bytes { self.old.ahead ≡ result ∷ self.new.ahead }
        ensures over { self.new.over ≡ self.old.over }
    {
        let byte = self.buffer[self.start];
        self.start += 1;
        byte
    }

    /// The next byte of the input: the source is asked where none is left of what it gave.
    #[tactic(auto, using(crate::proofs::Taking::gives_ahead, crate::proofs::Taking::gives_then))]
    fn next_byte<S: Source>(&mut self, source: &mut S) -> Result<u8, InputEnd>
        ensures bytes { GivesEach (λ b. b ∷ []) self.old (S.left source.old) self.new
            (S.left source.new) result }
        ensures taken { IfOk result
            (λ b. TakesByte S.gives source.old source.new self.old.ahead self.new.ahead b) }
        ensures over { self.new.over ≡ self.old.over }
        ensures goes { GoesBy (ReadFailed S.fails S.failed source.new self.new)
            (HasJust S.ends source.new) (S.failed source.new ≡ S.failed source.old) result }
    {
        if self.start == self.end {
            self.fill(source)?;
        }
        Ok(self.take_ahead())
    }

    /// The bytes of the next line, of a longer one the first 1,024 alone. After a last line, which no new line ends,
    /// the input is over.
    #[tactic(auto, using(crate::proofs::Taking::of_take_line))]
    fn take_line<S: Source>(&mut self, source: &mut S) -> Result<ArrayVec<u8, KEPT>, InputEnd>
        requires { self.old.over ≡ None }
        ensures heard { GivesLine self.old (S.left source.old) self.new (S.left source.new)
            (ReadFailed S.fails S.failed source.new self.new)
            (S.failed source.new ≡ S.failed source.old) result }
        ensures over { OnOk result ((self.new.over ≡ None) ⊎ (self.new.over ≡ Some InputEnd.End)) }
        ensures none { OnErr result (self.new.over ≡ None) }
        ensures taken { self.new.over ≡ None → IfOk result (λ kept. (t : ExtraTable)
            → TakesLine S.gives source.old source.new self.old.ahead self.new.ahead t
            (line_codes t kept.items)) }
        ensures ends { self.new.over ≡ Some InputEnd.End → HasJust S.ends source.new }
        ensures goes { GoesBy (ReadFailed S.fails S.failed source.new self.new
            ⊎ ((S.failed source.new ≡ S.failed source.old)
            × MeetsBound S.gives source.old source.new self.old self.new))
            (HasJust S.ends source.new) (S.failed source.new ≡ S.failed source.old) result }
    {
        let mut line = ArrayVec::new();
        for taken in 0..TOO_LONG {
            match self.next_byte(source) {
                Ok(b'\n') => return Ok(without_return(line)),
                Ok(byte) => keep(&mut line, byte),
                Err(InputEnd::End) => {
                    if taken == 0 {
                        return Err(InputEnd::End);
                    }
                    self.over = Some(InputEnd::End);
                    return Ok(line);
                }
                Err(InputEnd::Failed) => return Err(InputEnd::Failed),
            }
        }
        Err(InputEnd::Failed)
    }

    /// Waits for the next line, and answers its codes.
    ///
    /// A line is the bytes before a new line (10); a return (13) just before that is no part of it. The
    /// bytes after the last new line are a line too, with all their returns, where there is at least one.
    /// So an input without bytes has no line, and one of a new line alone has an empty one.
    ///
    /// The bytes are read as UTF-8. Each character gives one code, by `extra`, and so does each byte that
    /// belongs to none. A tab gives a space, and what has no code a question mark. What is after the
    /// 255th code of a line is dropped.
    ///
    /// `End` says that the last read gave no bytes. `Failed` says that the last read failed, and what had come
    /// of a line is lost, or that no read failed and 65,536 bytes came without a new line: just so many are taken, and
    /// the source is not asked for more. After `End` or `Failed` the answer stays the same, and after a last line
    /// without a new line it is `End`: the source is not asked again.
    ///
    /// `Lines` reads ahead of the line that it answers: it is to be given the same source each time.
    pub fn line<S: Source>(&mut self, source: &mut S, extra: &Extra) -> Input
        ensures over { (o : InputEnd) → self.old.over ≡ Some o
            → (result ≡ over_input o) × (self.new ≡ self.old) × (source.new ≡ source.old) }
        ensures heard { (bytes : List ℕ) → self.old.over ≡ None → S.left source.old ≡ Some bytes
            → (later : List ℕ) × (S.left source.new ≡ Some later)
            × Hears extra.now (self.old.ahead ++ bytes) (self.new.ahead ++ later) self.new.over
            (ReadFailed S.fails S.failed source.new self.new)
            (S.failed source.new ≡ S.failed source.old) result }
        ensures taken { self.old.over ≡ None → self.new.over ≡ None
            → TakesAnswer S.gives source.old source.new self.old.ahead self.new.ahead extra.now result }
        ensures next { self.old.over ≡ None → IsOverAfter result self.new.over }
        ensures codes { HasInputCodes result }
        ensures failed { self.old.over ≡ None → FailsAlone
            (ReadFailed S.fails S.failed source.new self.new)
            (S.failed source.new ≡ S.failed source.old)
            (MeetsBound S.gives source.old source.new self.old self.new) result }
        ensures ends { self.old.over ≡ None → self.new.over ≡ Some InputEnd.End
            → HasJust S.ends source.new }
    {
        if let Some(over) = self.over {
            return over.input();
        }
        match self.take_line(source) {
            Ok(line) => Input::Line(codes_of(line.as_slice(), extra)),
            Err(over) => {
                self.over = Some(over);
                over.input()
            }
        }
    }
}
