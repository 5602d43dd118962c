// Styles within a text, as marks.

ghost use Rattle.std.specs.Prelude.{◌≡◌, ◌≤◌, ◌||◌, is_err, length};
ghost use Rattle.zk_system.specs.StyleCodes.{style_mark, style_number};

use zk_term::style::Style;
use zk_term::target::{Failed, Target, write_all};

/// The byte that begins a mark: UTF-8 has none such.
pub const MARK: u8 = 192;

/// The number of a style, as a story has it (Z-Machine Standards Document 1.1, section 15, `set_text_style`).
fn number_of(style: Style) -> u8
    ensures value { result ≡ style_number style }
    ensures few { result ≤ 15 }
{
    u8::from(style.reverse)
        + 2 * u8::from(style.bold)
        + 4 * u8::from(style.italic)
        + 8 * u8::from(style.fixed)
}

/// The mark of a style.
pub fn mark_of(style: Style) -> [u8; 2]
    ensures { result ≡ style_mark style }
{
    [MARK, 128 + number_of(style)]
}

/// How many bytes of a text there are up to one that ends it, or at its end.
pub fn length_before(bytes: &[u8], end: u8) -> usize
    ensures { result ≤ length bytes.now }
{
    for at in 0..bytes.len() {
        if bytes[at] == end {
            return at;
        }
    }
    bytes.len()
}

/// A target over another, which marks the styles of the text that passes, if it is on. The ends of lines are roman, and
/// so is what comes after a flush, until there is more text.
#[derive(Drop)]
pub struct StyleMarks<T> {
    /// The target behind.
    pub inner: T,
    is_on: bool,
    /// The style of the text that comes next.
    wanted: Style,
    /// The style that was marked last.
    marked: Style,
}

impl<T> StyleMarks<T> {
    pub fn new(inner: T, is_on: bool) -> StyleMarks<T>
        ensures { result.inner ≡ inner }
    {
        StyleMarks {
            inner,
            is_on,
            wanted: Style::roman(),
            marked: Style::roman(),
        }
    }

    /// The target behind.
    pub fn into_inner(self) -> T
        ensures { result ≡ self.inner }
    {
        self.inner
    }
}

impl<T: Target> StyleMarks<T> {
    /// Marks a style, if it is another than before.
    fn mark(&mut self, style: Style) -> Result<(), Failed>
        ensures on { self.new.is_on ≡ self.old.is_on }
        ensures failed { T.failed self.new.inner ≡ (is_err result || T.failed self.old.inner) }
    {
        if style == self.marked {
            return Ok(());
        }
        write_all(&mut self.inner, &mark_of(style))?;
        self.marked = style;
        Ok(())
    }
}

impl<T: Target> Target for StyleMarks<T> {
    ghost use Rattle.std.specs.Prelude.{◌≡◌, None, true, if◌then◌else◌};

    ghost taken = { λ m. if m.is_on then None else T.taken m.inner };

    ghost failed = { λ m. T.failed m.inner };

    ghost fails = { λ _ m. T.failed m.inner ≡ true };

    ghost whole = { λ m. T.whole m.inner };

    fn write(&mut self, bytes: &[u8]) -> Result<usize, Failed> {
        if !self.is_on {
            return self.inner.write(bytes);
        }
        match bytes {
            [] => Ok(0),
            [b'\n', ..] => {
                self.mark(Style::roman())?;
                self.inner.write(&bytes[..1])
            }
            [_, rest @ ..] => {
                self.mark(self.wanted)?;
                self.inner.write(&bytes[..1 + length_before(rest, b'\n')])
            }
        }
    }

    fn flush(&mut self) -> Result<(), Failed> {
        if self.is_on {
            self.mark(Style::roman())?;
        }
        self.inner.flush()
    }

    fn shows_styles(&self) -> bool {
        self.is_on
    }

    /// A terminal's pitch is always fixed.
    fn show_in(&mut self, style: Style) -> Result<(), Failed> {
        self.wanted = Style {
            fixed: false,
            ..style
        };
        Ok(())
    }

    fn begin_line(&mut self) {
        self.inner.begin_line();
    }
}
