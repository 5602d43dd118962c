// Where the units of a text go: to the screen and the transcript, to the upper window, to a table of stream 3.

ghost use Rattle.std.specs.Prelude.{◌≡◌, [], ◌∷◌, ◌++◌, List, ℕ, Option, OnOk, OnErr, option_to_list, length};
ghost use Rattle.zk_text.specs.declared.unit.Unit.{Unit};
ghost use Rattle.zk_text.specs.Shown.{shown, characters_shown};
ghost use Rattle.zk_term.specs.Windows.{printed};
ghost use Rattle.zk_step.specs.Routing.{code_stored, unit_stored, shown_if, ends_line, streamed_all};
ghost use Rattle.zk_term.specs.Signals.Signal.{Text, Script};

use crate::output::codes::{Codes, Full};
use zk_term::screen::Screen;
use zk_term::style::Style;
use zk_term::windows::Windows;
use zk_text::extra::Extra;
use zk_text::shown::Shown;
use zk_text::sink::{Sink, SinkFault};
use zk_text::unit::Unit;

/// Which of streams 1 and 2 are on, and the style in which the screen gets text.
#[derive(Clone, Copy, Drop)]
pub struct Selected {
    pub screen: bool,
    pub script: bool,
    pub style: Style,
}

/// Shows units of text on the streams that are on, by the extra characters in force.
#[derive(Drop)]
pub struct Printer<'a, S> {
    pub screen: &'a mut S,
    pub extra: &'a Extra<'a>,
    pub selected: Selected,
    /// The last character that the screen got is a new line.
    pub at_line_start: bool,
}

impl<'a, S: Screen> Printer<'a, S> {
    /// Shows a character on the screen, if it is on.
    #[tactic(auto, unfolding(crate::specs::Routing::ends_line))]
    fn show_on_screen(&mut self, c: char)
        ensures kept { (self.new.screen.ghost_name ≡ self.old.screen.ghost_name)
            × (self.new.extra.now ≡ self.old.extra.now) × (self.new.selected ≡ self.old.selected) }
        ensures start { self.new.at_line_start
            ≡ ends_line self.old.at_line_start (shown_if self.old.selected.screen (c ∷ [])) }
        ensures shown { S.shows self.old.screen.now self.new.screen.now
            (shown_if self.old.selected.screen (Text c self.old.selected.style ∷ [])) }
    {
        match self.selected.screen {
            false => {}
            true => {
                self.screen.text(c, self.selected.style);
                self.at_line_start = c == '\n';
            }
        }
    }

    /// Adds a character to the transcript, if it is on.
    fn show_in_script(&mut self, c: char)
        ensures kept { (self.new.screen.ghost_name ≡ self.old.screen.ghost_name)
            × (self.new.extra.now ≡ self.old.extra.now) × (self.new.selected ≡ self.old.selected) }
        ensures start { self.new.at_line_start ≡ self.old.at_line_start }
        ensures shown { S.shows self.old.screen.now self.new.screen.now
            (shown_if self.old.selected.script (Script c ∷ [])) }
    {
        match self.selected.script {
            false => {}
            true => self.screen.script(c),
        }
    }

    /// Shows a character on the streams that are on.
    #[inline(always)]
    fn show(&mut self, c: char)
        ensures kept { (self.new.screen.ghost_name ≡ self.old.screen.ghost_name)
            × (self.new.extra.now ≡ self.old.extra.now) × (self.new.selected ≡ self.old.selected) }
        ensures start { self.new.at_line_start
            ≡ ends_line self.old.at_line_start (shown_if self.old.selected.screen (c ∷ [])) }
        ensures shown { S.shows self.old.screen.now self.new.screen.now
            (streamed_all self.old.selected (c ∷ [])) }
    {
        self.show_on_screen(c);
        self.show_in_script(c);
    }
}

impl<'a, S: Screen> Sink for Printer<'a, S> {
    ghost use Rattle.std.specs.Prelude.{◌≡◌, List, [], refl};
    ghost use Rattle.std.proofs.Common.{◌∙◌};
    ghost use Rattle.zk_step.specs.Printed.{Printed, printed_twice, printed_nothing};

    ghost gave = { λ a b us. (b.screen.ghost_name ≡ a.screen.ghost_name)
        × (b.extra.now ≡ a.extra.now) × (b.selected ≡ a.selected)
        × Printed S.shows a.extra.now a.selected a.screen.now b.screen.now a.at_line_start
        b.at_line_start us };

    ghost refused = { λ a b us. ⊥ };

    fn put(&mut self, unit: Unit) -> Result<(), SinkFault> {
        match Shown::of(self.extra, unit) {
            Shown::Nothing => Ok(()),
            Shown::One(c) => {
                self.show(c);
                Ok(())
            }
            Shown::TwoSpaces => {
                self.show(' ');
                self.show(' ');
                Ok(())
            }
        }
    }

    ghost nothing = { λ a. (
      refl,
      refl,
      refl,
      printed_nothing S.shows a.extra.now a.selected
          a.screen.now a.at_line_start (S.nothing a.screen.now),
    ) };

    ghost twice = { λ a b c s t h k. (
      k.0 ∙ h.0,
      k.1 ∙ h.1,
      k.2 ∙ h.2,
      printed_twice S.shows S.twice a.extra.now b.extra.now a.selected b.selected a.screen.now
          b.screen.now c.screen.now a.at_line_start b.at_line_start c.at_line_start s t h.1 h.2
          h.3 k.3,
    ) };

    ghost late = { λ a b c s t h k. k };
}

/// Prints units of text in the upper window, by the extra characters in force.
#[derive(Drop)]
pub struct WindowPrinter<'a> {
    pub windows: &'a mut Windows,
    pub extra: &'a Extra<'a>,
}

impl<'a> Sink for WindowPrinter<'a> {
    ghost use Rattle.std.specs.Prelude.{◌≡◌, List, [], refl};
    ghost use Rattle.std.proofs.Common.{◌∙◌};
    ghost use Rattle.zk_text.specs.Shown.{shown_all};
    ghost use Rattle.zk_term.specs.Windows.{printed};
    ghost use Rattle.zk_step.specs.Printed.{upper_twice, upper_nothing};

    ghost gave = { λ a b us. (b.windows.ghost_name ≡ a.windows.ghost_name)
        × (b.extra.now ≡ a.extra.now)
        × (b.windows.now ≡ printed (shown_all a.extra.now us) a.windows.now) };

    ghost refused = { λ a b us. ⊥ };

    fn put(&mut self, unit: Unit) -> Result<(), SinkFault> {
        match Shown::of(self.extra, unit) {
            Shown::Nothing => Ok(()),
            Shown::One(c) => {
                self.windows.put(c);
                Ok(())
            }
            Shown::TwoSpaces => {
                self.windows.put(' ');
                self.windows.put(' ');
                Ok(())
            }
        }
    }

    ghost nothing = { λ a. (refl, refl, upper_nothing a.extra.now a.windows.now) };

    ghost twice = { λ a b c s t h k. (
      k.0 ∙ h.0,
      k.1 ∙ h.1,
      upper_twice a.extra.now b.extra.now
          a.windows.now b.windows.now c.windows.now s t h.1 h.2 k.2,
    ) };

    ghost late = { λ a b c s t h k. k };
}

/// The code that a table of stream 3 gets for a ZSCII code: a question mark where it has no character.
#[inline(always)]
fn code_stored(extra: &Extra<'_>, code: u16) -> Option<u8>
    ensures { option_to_list result ≡ code_stored extra.now code }
{
    // most are these
    if code > 31 && code < 127 {
        return Some(code as u8);
    }
    if code == 0 {
        return None;
    }
    if code == 9 || code == 11 || code == 13 {
        return Some(code as u8);
    }
    if code >= 252 {
        return Some(b'?');
    }
    match extra.to_char(code) {
        Some(_) => Some(code as u8),
        None => Some(b'?'),
    }
}

/// The code that a table of stream 3 gets for a unit of text.
#[inline(always)]
#[tactic(auto, unfolding(crate::specs::Routing::unit_stored))]
fn unit_stored(extra: &Extra<'_>, unit: Unit) -> Option<u8>
    ensures { option_to_list result ≡ unit_stored extra.now unit }
{
    match unit {
        Unit::Code(code) => code_stored(extra, code),
        Unit::Character(character) => Some(extra.from_char(character as u32).unwrap_or(b'?')),
    }
}

/// Collects the codes that a table of stream 3 gets, as long as there is room.
#[derive(Drop)]
pub struct Collector<'a> {
    pub codes: &'a mut Codes,
    pub extra: &'a Extra<'a>,
}

impl<'a> Sink for Collector<'a> {
    ghost use Rattle.std.specs.Prelude.{◌≡◌, ◌++◌, List, ℕ, [], refl, length};
    ghost use Rattle.std.proofs.Common.{◌∙◌};
    ghost use Rattle.zk_step.specs.Routing.{stored_all};
    ghost use Rattle.zk_step.specs.Printed.{FirstPart, stored_twice, stored_nothing, stored_late};

    ghost gave = { λ a b us. (b.codes.ghost_name ≡ a.codes.ghost_name) × (b.extra.now ≡ a.extra.now)
        × (b.codes.now ≡ a.codes.now ++ stored_all a.extra.now us) };

    ghost refused = { λ a b us. (b.codes.ghost_name ≡ a.codes.ghost_name)
        × FirstPart b.codes.now (a.codes.now ++ stored_all a.extra.now us) };

    #[inline(always)]
    fn put(&mut self, unit: Unit) -> Result<(), SinkFault> {
        match unit_stored(self.extra, unit) {
            None => Ok(()),
            Some(code) => match self.codes.push(code) {
                Ok(()) => Ok(()),
                Err(Full) => Err(SinkFault),
            },
        }
    }

    ghost nothing = { λ a. (refl, refl, stored_nothing a.extra.now a.codes.now) };

    ghost twice = { λ a b c s t h k. (
      k.0 ∙ h.0,
      k.1 ∙ h.1,
      stored_twice a.extra.now b.extra.now a.codes.now b.codes.now c.codes.now s t h.1 h.2 k.2,
    ) };

    ghost late = { λ a b c s t h k. (
      k.0 ∙ h.0,
      stored_late a.extra.now b.extra.now a.codes.now b.codes.now c.codes.now s t h.1 h.2 k.1,
    ) };
}
