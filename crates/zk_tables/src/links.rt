// The links of objects.

ghost use Rattle.std.specs.Prelude.{◌≡◌, ◌≤◌, ◌<◌, ◌+◌, [], ◌∷◌, Ok, Err, IfOk, MatchResult};
ghost use Rattle.zk_tables.specs.Layout.{layout_of};
ghost use Rattle.zk_tables.specs.Links.{address_of, object_number_at, number_put, link_at, link_put, write_test};
ghost use Rattle.zk_tables.specs.Links.{write_tests};
ghost use Rattle.zk_tables.specs.Links.{order_of, parent_of, sibling_of, child_of, walked_link};

use crate::layout::{EARLY, LATE, Layout, entry_in, layout_for};
use std::marker::Model;
use zk_mem::fault::Fault;
use zk_mem::memory::Memory;

/// A link of an object (Standard, section 12.3), in the order of an entry.
#[derive(Clone, Copy)]
pub enum Link {
    Parent,
    Sibling,
    Child,
}

impl Link {
    /// How many links stand before it.
    fn order(self) -> u8
        ensures value { result ≡ order_of self }
        ensures bound { result ≤ 2 }
    {
        match self {
            Link::Parent => 0,
            Link::Sibling => 1,
            Link::Child => 2,
        }
    }
}

/// One link of one object.
#[derive(Clone, Copy)]
pub struct LinkPlace {
    pub link: Link,
    pub object: u16,
}

pub(crate) fn parent_link(object: u16) -> LinkPlace
    ensures { result ≡ parent_of object }
{
    LinkPlace {
        link: Link::Parent,
        object,
    }
}

pub(crate) fn sibling_link(object: u16) -> LinkPlace
    ensures { result ≡ sibling_of object }
{
    LinkPlace {
        link: Link::Sibling,
        object,
    }
}

pub(crate) fn child_link(object: u16) -> LinkPlace
    ensures { result ≡ child_of object }
{
    LinkPlace {
        link: Link::Child,
        object,
    }
}

#[inline(always)]
fn walked(object: u16, first: bool) -> LinkPlace
    ensures { result ≡ walked_link object first }
{
    if first {
        child_link(object)
    } else {
        sibling_link(object)
    }
}

/// Where a link stands in a layout.
#[inline(always)]
#[tactic(auto, unfolding(crate::specs::Links::address_of))]
fn address_in(memory: &Memory, layout: Layout, place: LinkPlace) -> Result<u32, Fault>
    requires layout { layout ≡ layout_of memory.now.version }
    requires entry { 9 ≤ layout.entry_bytes }
    ensures value { result ≡ address_of memory.now place }
    ensures bound { IfOk result (λ address. address < 131072) }
{
    let entry = entry_in(memory, layout, place.object)?;
    Ok(entry + layout.attribute_bytes as u32 + layout.link_bytes as u32 * place.link.order() as u32)
}

/// Where a link stands.
#[inline(always)]
#[tactic(auto, unfolding(crate::specs::Layout::layout_of))]
pub(crate) fn address(memory: &Memory, place: LinkPlace) -> Result<u32, Fault>
    ensures value { result ≡ address_of memory.now place }
    ensures bound { IfOk result (λ address. address < 131072) }
{
    // the sizes are known in each arm
    if memory.version() < 4 {
        address_in(memory, EARLY, place)
    } else {
        address_in(memory, LATE, place)
    }
}

#[inline(always)]
#[tactic(auto, unfolding(crate::specs::Links::object_number_at))]
fn read_number(memory: &Memory, address: u32) -> Result<u16, Fault>
    ensures { result ≡ object_number_at memory.now address }
{
    if layout_for(memory).link_bytes == 1 {
        Ok(memory.byte(address)? as u16)
    } else {
        memory.word(address)
    }
}

#[inline(always)]
#[tactic(auto, unfolding(crate::specs::Links::number_put))]
fn write_number(memory: &mut Memory, address: u32, object: u16) -> Result<(), Fault>
    ensures { MatchResult result (λ _. number_put memory.old address object ≡ Ok memory.new)
        (λ e. (number_put memory.old address object ≡ Err e) × (memory.new ≡ memory.old)) }
{
    if layout_for(memory).link_bytes == 1 {
        memory.set_byte(address, (object % 256) as u8)
    } else {
        memory.set_word(address, object)
    }
}

/// The object that a link names, or 0.
#[inline(always)]
#[tactic(auto, unfolding(crate::specs::Links::link_at))]
pub(crate) fn read_link(memory: &Memory, place: LinkPlace) -> Result<u16, Fault>
    ensures { result ≡ link_at memory.now place }
{
    if place.object == 0 {
        return Ok(0);
    }
    let address = address(memory, place)?;
    read_number(memory, address)
}

/// Makes a link name an object.
#[tactic(auto, unfolding(crate::specs::Links::link_put))]
pub(crate) fn write_link(memory: &mut Memory, place: LinkPlace, object: u16) -> Result<(), Fault>
    ensures { MatchResult result (λ _. link_put memory.old place object ≡ Ok memory.new)
        (λ e. (link_put memory.old place object ≡ Err e) × (memory.new ≡ memory.old)) }
{
    let address = address(memory, place)?;
    write_number(memory, address, object)
}

/// Whether a link may be written: `ReadOnly` where it lies outside dynamic memory.
#[tactic(auto, unfolding(crate::specs::Links::write_test))]
fn check_write(memory: &Memory, place: LinkPlace) -> Result<(), Fault>
    ensures { result ≡ write_test memory.now place }
{
    let address = address(memory, place)?;
    let end = address + layout_for(memory).link_bytes as u32;
    if end as usize <= memory.dynamic().len() {
        Ok(())
    } else {
        Err(Fault::ReadOnly)
    }
}

/// Whether three links may be written: the first that may not decides.
pub(crate) fn check_writes(
    memory: &Memory,
    first: LinkPlace,
    second: LinkPlace,
    third: LinkPlace,
) -> Result<(), Fault>
    ensures { result ≡ write_tests memory.now first (second ∷ third ∷ []) }
{
    check_write(memory, first)?;
    check_write(memory, second)?;
    check_write(memory, third)
}

/// Reads the links to children and siblings, and counts them. Contracts see it as how many were read.
#[derive(Drop)]
pub struct WalkCount {
    count: u32,
}

impl Model for WalkCount {
    ghost use Rattle.std.specs.Prelude.{ℕ};

    ghost Value = { ℕ };

    ghost view = { λ l. l.count };
}

impl WalkCount {
    /// None were read.
    pub fn new() -> WalkCount
        ensures { result ≡ 0 }
    {
        WalkCount { count: 0 }
    }

    /// How many were read.
    pub fn count(&self) -> u32
        ensures { result ≡ self.now }
    {
        self.count
    }

    /// The child of an object where `first` is set, else its sibling, or 0 (Standard, section 12.3). Object 0 has
    /// none. What is read counts as one more.
    ///
    /// `BadObject` where the object has no entry in data; then nothing is counted.
    #[inline(always)]
    pub fn link(&mut self, memory: &Memory, object: u16, first: bool) -> Result<u16, Fault>
        requires { self.old ≤ 4200000000 }
        ensures value { result ≡ link_at memory.now (walked_link object first) }
        ensures counted { MatchResult result (λ _. self.new ≡ self.old + 1)
            (λ _. self.new ≡ self.old) }
    {
        let place = walked(object, first);
        let named = read_link(memory, place)?;
        self.count += 1;
        Ok(named)
    }
}
