// Where Inform leaves identifier names in a story.

ghost use Rattle.std.specs.Prelude.{◌≡◌, ◌≤◌, ◌+◌, IfSome};
ghost use Rattle.zk_inform.specs.Tables.{are_right, attribute_count, behind_class, class_end, entry_at, is_by_inform};
ghost use Rattle.zk_inform.specs.Tables.{is_class, is_digit, is_right, likely_table, list_end, names_table};
ghost use Rattle.zk_inform.specs.Tables.{not_wrong, table_at, table_end};

use crate::naming::{Naming, naming_of};
use zk_inspect::listing::object_lines::number_or_none;
use zk_mem::memory::Memory;
use zk_tables::lists::read_property;
use zk_tables::properties::list_address;
use zk_tables::tree::parent;

/// The identifier names that Inform leaves in a story: a word, and behind it the packed addresses of the names of
/// properties, from 1 on, and then those of attributes, from 0 on.
#[derive(Clone, Copy, Drop)]
pub(crate) struct Table {
    /// The byte address of the word before them.
    pub address: u32,
    /// What that word is: one more than there are properties.
    pub count: u16,
}

fn is_digit(byte: u8) -> bool
    ensures { result ≡ is_digit byte }
{
    byte >= b'0' && byte <= b'9'
}

/// Whether a story file names the version of Inform 6 that made it (Z-Machine Standards Document 1.1, appendix B): a
/// digit, a full stop and two digits.
fn is_by_inform(file: &[u8]) -> bool
    ensures { result ≡ is_by_inform file.now }
{
    file.len() >= 64
        && is_digit(file[0x3c])
        && file[0x3d] == b'.'
        && is_digit(file[0x3e])
        && is_digit(file[0x3f])
}

/// The byte address behind the property list at an address, with the byte that ends it (Standard, section 12.4).
/// `None` where the list does not lie in data.
fn list_end(memory: &Memory, address: u32) -> Option<u32>
    ensures value { result ≡ list_end memory.now address }
    ensures bound { IfSome result (λ end. end ≤ 65536) }
{
    let mut at = address;
    for _i in 0..memory.data_end() {
        match read_property(memory, at) {
            Ok(Some(property)) => at = property.end(),
            Ok(None) => return Some(at + 1),
            Err(_) => return None,
        }
    }
    None
}

/// Whether an object is a class of Inform's: one of the first four, `Class`, `Object`, `Routine` and `String`, or one
/// whose parent is `Class`, object 1.
fn is_class(memory: &Memory, object: u16) -> bool
    ensures { result ≡ is_class memory.now object }
{
    object <= 4 || number_or_none(parent(memory, object)) == 1
}

/// The byte address behind what Inform writes for an object whose property list ends at one: a class has six bytes of
/// attributes there, and the properties that it gives to its members.
fn behind_class(memory: &Memory, object: u16, end: u32) -> Option<u32>
    requires { end ≤ 65536 }
    ensures value { result ≡ behind_class memory.now object end }
    ensures bound { IfSome result (λ end. end ≤ 65536) }
{
    if is_class(memory, object) {
        list_end(memory, end + 6)
    } else {
        Some(end)
    }
}

/// The byte address behind what Inform writes for an object.
#[tactic(auto, unfolding(crate::specs::Tables::table_end))]
fn table_end(memory: &Memory, object: u16) -> Option<u32>
    ensures value { result ≡ table_end memory.now object }
    ensures bound { IfSome result (λ end. end ≤ 65536) }
{
    match list_address(memory, object) {
        Ok(list) => match list_end(memory, list) {
            Some(end) => behind_class(memory, object, end),
            None => None,
        },
        Err(_) => None,
    }
}

/// The byte address behind the class numbers at an address: words that are numbers of objects, and a word 0. `None`
/// where there is a number of none, or no end.
#[tactic(auto, using(crate::proofs::Ends::of_class_end))]
fn class_end(memory: &Memory, objects: u16, address: u32) -> Option<u32>
    requires { address ≤ 65536 }
    ensures value { result ≡ class_end memory.now objects (objects + 1) address }
    ensures bound { IfSome result (λ end. end ≤ 1000000) }
{
    let mut at = address;
    for _i in 0..objects as u32 + 1 {
        let Ok(class) = memory.word(at) else {
            return None;
        };
        if class == 0 {
            return Some(at + 2);
        }
        if class > objects {
            return None;
        }
        at += 2;
    }
    None
}

/// The table at a byte address, with 1 to 4,096 in the word before it.
fn table_at(memory: &Memory, address: u32) -> Option<Table>
    requires { address ≤ 1000000 }
    ensures value { result ≡ table_at memory.now address }
    ensures bound { IfSome result (λ t. t.address ≤ 1000000) }
    ensures count { IfSome result (λ t. (1 ≤ t.count) × (t.count ≤ 4096)) }
{
    match memory.word(address) {
        Ok(count) if count >= 1 && count <= 4096 => Some(Table { address, count }),
        _ => None,
    }
}

/// How many attributes a story has (Standard, section 12.3).
pub(crate) fn attribute_count(memory: &Memory) -> u16
    ensures value { result ≡ attribute_count memory.now }
    ensures bound { result ≤ 48 }
{
    if memory.version() < 4 { 32 } else { 48 }
}

impl Table {
    /// What an entry of it is, counted from 1.
    pub(crate) fn entry_at(self, memory: &Memory, number: u16) -> Naming
        requires { self.address ≤ 1000000 }
        ensures { result ≡ entry_at memory.now self.address number }
    {
        naming_of(memory, memory.word(self.address + 2 * number as u32))
    }
}

/// Whether an entry is none that Inform would not leave.
fn not_wrong(naming: Naming) -> bool
    ensures { result ≡ not_wrong naming }
{
    match naming {
        Naming::Wrong => false,
        _ => true,
    }
}

/// Whether so many entries of a table, from 1 on, are what Inform would leave there.
#[tactic(auto, using(crate::proofs::Ends::of_are_right))]
fn are_right(memory: &Memory, table: Table, entries: u16) -> bool
    requires address { table.address ≤ 1000000 }
    requires few { entries ≤ 10000 }
    ensures { result ≡ are_right memory.now table entries }
{
    for before in 0..entries {
        if !not_wrong(table.entry_at(memory, before + 1)) {
            return false;
        }
    }
    true
}

/// Whether all entries of a table are what Inform would leave there.
#[tactic(auto, unfolding(crate::specs::Tables::is_right))]
fn is_right(memory: &Memory, table: Table) -> bool
    requires address { table.address ≤ 1000000 }
    requires count { (1 ≤ table.count) × (table.count ≤ 4096) }
    ensures { result ≡ is_right memory.now table }
{
    are_right(memory, table, table.count - 1 + attribute_count(memory))
}

/// The table of a story of so many objects that is not known to be right.
fn likely_table(memory: &Memory, objects: u16) -> Option<Table>
    ensures value { result ≡ likely_table memory.now objects }
    ensures bound { IfSome result (λ t. t.address ≤ 1000000) }
    ensures count { IfSome result (λ t. (1 ≤ t.count) × (t.count ≤ 4096)) }
{
    let end = table_end(memory, objects)?;
    let names = class_end(memory, objects, end)?;
    table_at(memory, names)
}

/// The identifier names of a story of so many objects. `None` where Inform left none, or something is damaged: a word
/// that is no class number, or a name that is none.
#[tactic(auto, unfolding(crate::specs::Tables::names_table))]
pub(crate) fn names_table(memory: &Memory, objects: u16) -> Option<Table>
    ensures value { result ≡ names_table memory.now objects }
    ensures bound { IfSome result (λ t. t.address ≤ 1000000) }
    ensures count { IfSome result (λ t. (1 ≤ t.count) × (t.count ≤ 4096)) }
{
    if !is_by_inform(memory.original()) {
        return None;
    }
    match likely_table(memory, objects) {
        Some(table) if is_right(memory, table) => Some(table),
        _ => None,
    }
}
