// Styles on a terminal.

ghost use Rattle.std.specs.Prelude.{◌≡◌, ◌≤◌, ◌<◌, ◌||◌, length, is_err, IfOk};
ghost use Rattle.zk_term.specs.Styles.{roman, style_set};
ghost use Rattle.zk_system.specs.StyleCodes.{style_code};

use crate::style_marks::{MARK, length_before};
use zk_term::style::Style;
use zk_term::target::{Failed, Target, write_all};

/// The control sequence by which a terminal shows a style.
pub fn code_of(style: Style) -> &'static [u8]
    ensures { result.now ≡ style_code style }
{
    match (style.bold, style.italic, style.reverse) {
        (false, false, false) => b"\x1b[0m",
        (false, false, true) => b"\x1b[0;7m",
        (false, true, false) => b"\x1b[0;4m",
        (false, true, true) => b"\x1b[0;4;7m",
        (true, false, false) => b"\x1b[0;1m",
        (true, false, true) => b"\x1b[0;1;7m",
        (true, true, false) => b"\x1b[0;1;4m",
        (true, true, true) => b"\x1b[0;1;4;7m",
    }
}

/// The style whose number a mark has.
pub fn style_in(number: u8) -> Style
    ensures { result ≡ style_set number roman }
{
    Style::roman().set(u16::from(number))
}

/// A target over a terminal, which shows there the styles that a text has as marks, if it is on. The end of a line is
/// shown in none, also where a line was wrapped within a style.
#[derive(Drop)]
pub struct StyleCodes<T> {
    inner: T,
    is_on: bool,
    /// Whether the number of a mark comes next.
    in_mark: bool,
    /// The style of the text that comes next.
    wanted: Style,
    /// The style that the terminal has.
    selected: Style,
}

impl<T> StyleCodes<T> {
    pub fn new(inner: T, is_on: bool) -> StyleCodes<T>
        ensures { result.inner ≡ inner }
    {
        StyleCodes {
            inner,
            is_on,
            in_mark: false,
            wanted: Style::roman(),
            selected: Style::roman(),
        }
    }
}

impl<T: Target> StyleCodes<T> {
    /// Selects a style, if the terminal has another.
    fn select(&mut self, style: Style) -> Result<(), Failed>
        ensures on { self.new.is_on ≡ self.old.is_on }
        ensures failed { T.failed self.new.inner ≡ (is_err result || T.failed self.old.inner) }
    {
        if style == self.selected {
            return Ok(());
        }
        write_all(&mut self.inner, code_of(style))?;
        self.selected = style;
        Ok(())
    }

    /// Takes the number of a mark. Roman is selected at once, and another style where there is text of it.
    fn take_number(&mut self, number: u8) -> Result<(), Failed>
        ensures on { self.new.is_on ≡ self.old.is_on }
        ensures failed { T.failed self.new.inner ≡ (is_err result || T.failed self.old.inner) }
    {
        self.in_mark = false;
        self.wanted = style_in(number.wrapping_sub(128));
        if self.wanted == Style::roman() {
            self.select(Style::roman())
        } else {
            Ok(())
        }
    }

    /// Takes text of a line, as far as there is neither a mark nor an end.
    fn take_text(&mut self, bytes: &[u8]) -> Result<usize, Failed>
        requires { 0 < length bytes.now }
        ensures on { self.new.is_on ≡ self.old.is_on }
        ensures count { IfOk result (λ n. n ≤ length bytes.now) }
        ensures progress { IfOk result (λ n. 0 < n) }
        ensures failed { T.failed self.new.inner ≡ (is_err result || T.failed self.old.inner) }
    {
        self.select(self.wanted)?;
        let rest = &bytes[1..];
        let line = length_before(rest, b'\n');
        self.inner
            .write(&bytes[..1 + length_before(&rest[..line], MARK)])
    }

    /// Takes a part of a text with marks: up to the next one or the end of the line, or a byte of one.
    fn take_marked(&mut self, bytes: &[u8]) -> Result<usize, Failed>
        ensures on { self.new.is_on ≡ self.old.is_on }
        ensures count { IfOk result (λ n. n ≤ length bytes.now) }
        ensures progress { 0 < length bytes.now → IfOk result (λ n. 0 < n) }
        ensures failed { T.failed self.new.inner ≡ (is_err result || T.failed self.old.inner) }
    {
        match bytes {
            [] => Ok(0),
            [number, ..] if self.in_mark => {
                self.take_number(*number)?;
                Ok(1)
            }
            [MARK, ..] => {
                self.in_mark = true;
                Ok(1)
            }
            [b'\n', ..] => {
                self.select(Style::roman())?;
                self.inner.write(&bytes[..1])
            }
            _ => self.take_text(bytes),
        }
    }
}

impl<T: Target> Target for StyleCodes<T> {
    ghost use Rattle.std.specs.Prelude.{◌≡◌, None, true, if◌then◌else◌};

    ghost taken = { λ s. if s.is_on then None else T.taken s.inner };

    ghost failed = { λ s. T.failed s.inner };

    ghost fails = { λ _ s. T.failed s.inner ≡ true };

    ghost whole = { λ s. T.whole s.inner };

    fn write(&mut self, bytes: &[u8]) -> Result<usize, Failed> {
        if self.is_on {
            self.take_marked(bytes)
        } else {
            self.inner.write(bytes)
        }
    }

    fn flush(&mut self) -> Result<(), Failed> {
        self.inner.flush()
    }

    fn begin_line(&mut self) {
        self.inner.begin_line();
    }
}
