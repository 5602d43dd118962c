// The name in the status line, and those of objects.

ghost use Rattle.std.specs.Prelude.{◌≡◌, [], List, Ok, IsOk, MatchResult, take, true, false};
ghost use Rattle.zk_text.specs.declared.unit.Unit.{Unit};
ghost use Rattle.zk_text.specs.Extra.{own_characters};
ghost use Rattle.zk_text.specs.Meaning.{text_units};
ghost use Rattle.zk_text.specs.Shown.{shown, shown_all};
ghost use Rattle.zk_step.specs.Status.{named};
ghost use Rattle.zk_host.specs.Collecting.{CollectsTexts, nothing_collected};
ghost use Rattle.zk_host.specs.Names.{HasName, IsNamed, IsNameOf, IsObjectName, first_units};

use crate::collected::Collected;
use std::alloc::Global;
use zk_mem::memory::Memory;
use zk_step::output::status::StatusLine;
use zk_tables::properties::name as short_name;
use zk_term::screen::Screen;
use zk_term::style::Style;
use zk_text::extra::Extra;
use zk_text::shown::Shown;
use zk_text::sink::{Sink, SinkFault};
use zk_text::text::{check_text, print_text};
use zk_text::unit::Unit;
use zk_text::walked::words_walked;

/// So many units of a name are collected at most. A status line shows fewer.
const MOST_UNITS: usize = 1_000;

/// None are collected of a name of more words, with those of the abbreviations that it uses.
const MOST_WORDS: u32 = 65_536;

/// Collects the first units of a text, as many as are left.
#[derive(Drop)]
pub struct NameSink<'a> {
    pub name: &'a mut Collected,
    pub extra: &'a Extra<'a>,
    pub left: usize,
}

impl<'a> NameSink<'a> {
    /// CollectsTexts a unit.
    fn collect(&mut self, unit: Unit)
        ensures kept { (self.new.name.ghost_name ≡ self.old.name.ghost_name)
            × (self.new.extra.now ≡ self.old.extra.now) × (self.new.left ≡ self.old.left) }
        ensures collected { CollectsTexts self.old.name.now self.new.name.now
            (shown self.old.extra.now unit) [] }
    {
        match Shown::of(self.extra, unit) {
            Shown::Nothing => {}
            Shown::One(c) => self.name.text(c, Style::roman()),
            Shown::TwoSpaces => {
                self.name.text(' ', Style::roman());
                self.name.text(' ', Style::roman());
            }
        }
    }
}

impl<'a> Sink for NameSink<'a> {
    ghost use Rattle.std.specs.Prelude.{◌≡◌, ◌+◌, List, [], refl, length, take};
    ghost use Rattle.std.proofs.Common.{◌∙◌};
    ghost use Rattle.zk_text.specs.Shown.{shown, shown_all};
    ghost use Rattle.zk_host.specs.Collecting.{CollectsTexts};
    ghost use Rattle.zk_host.specs.NameSinks.{left_nothing, left_twice, name_nothing, name_twice, name_late};

    ghost gave = { λ a b us. (b.name.ghost_name ≡ a.name.ghost_name) × (b.extra.now ≡ a.extra.now)
        × (a.left ≡ length us + b.left)
        × CollectsTexts a.name.now b.name.now (shown_all a.extra.now us) [] };

    ghost refused = { λ a b us. (b.name.ghost_name ≡ a.name.ghost_name) × (b.extra.now ≡ a.extra.now)
        × CollectsTexts a.name.now b.name.now (shown_all a.extra.now (take a.left us)) [] };

    fn put(&mut self, unit: Unit) -> Result<(), SinkFault> {
        if self.left == 0 {
            return Err(SinkFault);
        }
        self.collect(unit);
        self.left -= 1;
        Ok(())
    }

    ghost nothing = { λ a. (
      refl,
      refl,
      left_nothing a.left,
      name_nothing a.extra.now a.name.now,
    ) };

    ghost twice = { λ a b c s t h k. (
      k.0 ∙ h.0,
      k.1 ∙ h.1,
      left_twice a.left b.left c.left s t h.2 k.2,
      name_twice a.extra.now b.extra.now a.name.now b.name.now c.name.now s t h.1 h.3 k.3,
    ) };

    ghost late = { λ a b c s t h k. (
      k.0 ∙ h.0,
      k.1 ∙ h.1,
      name_late a.extra.now b.extra.now a.name.now b.name.now c.name.now s t a.left b.left h.1
          h.2 h.3 k.2,
    ) };
}

/// Collects the first units of the text at a byte address.
fn collect_first(memory: &Memory, address: u32, name: &mut Collected)
    requires { IsOk (text_units memory.now address) }
    ensures { (units : List Unit) → text_units memory.now address ≡ Ok units →
        CollectsTexts name.old name.new (shown_all (own_characters memory.now) (take 1000 units)) [] }
{
    let extra = Extra::of(memory);
    let mut sink = NameSink {
        name,
        extra: &extra,
        left: MOST_UNITS,
    };
    match print_text(memory, address, &mut sink) {
        Ok(()) => {}
        // all that there is room for was collected
        Err(_) => {}
    }
}

/// Collects the first units of the text at a byte address, unless it has too many words.
fn collect(memory: &Memory, address: u32, name: &mut Collected)
    requires { IsOk (text_units memory.now address) }
    ensures { (units : List Unit) → text_units memory.now address ≡ Ok units →
        CollectsTexts name.old name.new (shown_all (own_characters memory.now)
        (first_units memory.now address units)) [] }
{
    if words_walked(memory, address, MOST_WORDS + 1) <= MOST_WORDS {
        collect_first(memory, address, name);
    }
}

/// The short name of an object, where it has one.
fn name_at(alloc: Global, memory: &Memory, name: Option<u32>) -> Collected
    requires { IsOk (named memory.now name) }
    ensures { IsNameOf memory.now name result }
{
    let mut collected = Collected::new(alloc);
    match name {
        Some(address) => collect(memory, address, &mut collected),
        None => {}
    }
    collected
}

/// The name in a status line.
pub fn name_of(alloc: Global, memory: &Memory, status: Option<StatusLine>) -> Collected
    requires { IsNamed memory.now status }
    ensures { HasName memory.now status result }
{
    match status {
        Some(line) => name_at(alloc, memory, line.name),
        None => Collected::new(alloc),
    }
}

/// Whether an object's short name can be read.
fn is_readable(memory: &Memory, name: Option<u32>) -> bool
    ensures { MatchResult (named memory.now name) (λ _. result ≡ true) (λ _. result ≡ false) }
{
    match name {
        None => true,
        Some(address) => check_text(memory, address).is_ok(),
    }
}

/// The short name of the object of a number, where it has one that can be read.
pub fn object_name(alloc: Global, memory: &Memory, object: u32) -> Collected
    ensures { IsObjectName memory.now object result }
{
    if object > 65_535 {
        return Collected::new(alloc);
    }
    match short_name(memory, object as u16) {
        Ok(name) => {
            if is_readable(memory, name) {
                return name_at(alloc, memory, name);
            }
            Collected::new(alloc)
        }
        Err(_) => Collected::new(alloc),
    }
}
