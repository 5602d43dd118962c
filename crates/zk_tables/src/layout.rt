// How the object table is laid out.

ghost use Rattle.std.specs.Prelude.{◌≡◌, ◌≤◌, ◌<◌, IfOk};
ghost use Rattle.zk_tables.specs.Layout.{layout_of, default_words_start, first_entry, entry_of, entries};

use zk_mem::fault::Fault;
use zk_mem::memory::Memory;

/// The sizes of the object table's parts (Standard, section 12.3). An entry has attributes, three links
/// and the address of a property table.
#[derive(Clone, Copy)]
pub struct Layout {
    pub default_words: u8,
    pub attribute_bytes: u8,
    /// In each link.
    pub link_bytes: u8,
    pub entry_bytes: u8,
    /// The greatest number of an object.
    pub most_objects: u16,
}

pub(crate) const EARLY: Layout = Layout {
    default_words: 31,
    attribute_bytes: 4,
    link_bytes: 1,
    entry_bytes: 9,
    most_objects: 255,
};

pub(crate) const LATE: Layout = Layout {
    default_words: 63,
    attribute_bytes: 6,
    link_bytes: 2,
    entry_bytes: 14,
    most_objects: 65_535,
};

/// The layout of a story's version.
#[tactic(auto, unfolding(crate::specs::Layout::layout_of))]
pub(crate) fn layout_for(memory: &Memory) -> Layout
    ensures value { result ≡ layout_of memory.now.version }
    ensures entry { 9 ≤ result.entry_bytes }
{
    if memory.version() < 4 { EARLY } else { LATE }
}

fn entries_start(memory: &Memory, layout: Layout) -> u32
    ensures value { result ≡ first_entry layout (default_words_start memory.now) }
    ensures bound { result ≤ 66045 }
{
    memory.header().objects as u32 + 2 * layout.default_words as u32
}

/// Where the entry of an object begins in a layout, or `BadObject` where it has none in data.
#[inline(always)]
#[tactic(auto, unfolding(crate::proofs::Opened::in_entry_in))]
pub(crate) fn entry_in(memory: &Memory, layout: Layout, object: u16) -> Result<u32, Fault>
    requires layout { layout ≡ layout_of memory.now.version }
    requires entry { 9 ≤ layout.entry_bytes }
    ensures value { result ≡ entry_of memory.now object }
    ensures bound { IfOk result (λ address. address < 65536) }
{
    if object == 0 || object > layout.most_objects {
        return Err(Fault::BadObject);
    }
    let first = entries_start(memory, layout);
    let size = layout.entry_bytes as u32;
    if first + size * object as u32 > memory.data_end() {
        return Err(Fault::BadObject);
    }
    Ok(first + size * (object - 1) as u32)
}

/// Where the entry of an object begins, or `BadObject` where it has none in data.
#[inline(always)]
#[tactic(auto, unfolding(crate::specs::Layout::layout_of))]
pub(crate) fn entry(memory: &Memory, object: u16) -> Result<u32, Fault>
    ensures value { result ≡ entry_of memory.now object }
    ensures bound { IfOk result (λ address. address < 65536) }
{
    // the sizes are known in each arm
    if memory.version() < 4 {
        entry_in(memory, EARLY, object)
    } else {
        entry_in(memory, LATE, object)
    }
}

/// How many entries fit into data.
#[tactic(auto, unfolding(crate::specs::Layout::entries, crate::specs::Layout::entries_in))]
pub(crate) fn count_entries(memory: &Memory) -> u16
    ensures { result ≡ entries memory.now }
{
    let layout = layout_for(memory);
    let room = memory
        .data_end()
        .saturating_sub(entries_start(memory, layout));
    (room / layout.entry_bytes as u32).min(layout.most_objects as u32) as u16
}
