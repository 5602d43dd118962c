// Property lists.

ghost use Rattle.std.specs.Prelude.{◌≡◌, ◌≤◌, ◌<◌, Err, IfOk, IfSome, IsOk, MatchResult, ◌+◌};
ghost use Rattle.zk_tables.specs.PropertyList.{EndsAt, list_byte, long_length, number_in, property_by, property_at};
ghost use Rattle.zk_tables.specs.PropertyList.{properties_at, found_at, first_number_at, number_after_at};

use zk_mem::fault::Fault;
use zk_mem::memory::Memory;

/// A property in a property list (Standard, section 12.4).
#[derive(Clone, Copy)]
pub struct Property {
    /// The byte address of its data.
    pub address: u32,
    pub number: u8,
    /// The length of its data, in bytes.
    pub length: u8,
}

impl Property {
    /// The byte address after its data.
    pub fn end(self) -> u32
        requires { self.address ≤ 65537 }
        ensures { result ≡ self.address + self.length }
    {
        self.address + self.length as u32
    }
}

/// A byte of a property list.
#[inline(always)]
#[tactic(auto, unfolding(crate::specs::PropertyList::list_byte))]
pub(crate) fn read_list_byte(memory: &Memory, address: u32) -> Result<u8, Fault>
    ensures value { result ≡ list_byte memory.now address }
    ensures bound { IfOk result (λ _. address < 65536) }
{
    if address >= memory.data_end() {
        return Err(Fault::BadProperty);
    }
    memory.byte(address)
}

/// The length in the second of two size bytes (Standard, section 12.4.2.1).
pub(crate) fn length_in(second: u8) -> u8
    ensures value { result ≡ long_length second }
    ensures bound { result ≤ 64 }
{
    if second % 64 == 0 { 64 } else { second % 64 }
}

#[inline(always)]
#[tactic(auto, unfolding(crate::specs::PropertyList::property_by))]
fn read_property_by(memory: &Memory, address: u32, first: u8) -> Result<Option<Property>, Fault>
    requires { address < 65536 }
    ensures value { result ≡ property_by memory.now address first }
    ensures bound { IfOk result (λ r. IfSome r (λ p. p.address ≤ 65537)) }
{
    if first == 0 {
        return Ok(None);
    }
    if memory.version() < 4 {
        return Ok(Some(Property {
            number: first % 32,
            address: address + 1,
            length: first / 32 + 1,
        }));
    }
    if first < 128 {
        return Ok(Some(Property {
            number: first % 64,
            address: address + 1,
            length: first / 64 + 1,
        }));
    }
    let second = read_list_byte(memory, address + 1)?;
    Ok(Some(Property {
        number: first % 64,
        address: address + 2,
        length: length_in(second),
    }))
}

/// The property whose size bytes begin at a byte address, or none at the end of a list (Standard, section 12.4).
/// `BadProperty` where one of these bytes does not lie in data.
#[inline(always)]
#[tactic(auto, unfolding(crate::specs::PropertyList::property_at))]
pub fn read_property(memory: &Memory, address: u32) -> Result<Option<Property>, Fault>
    ensures value { result ≡ property_at memory.now address }
    ensures bound { IfOk result (λ r. IfSome r (λ p. p.address ≤ 65537)) }
    ensures within { IfOk result (λ _. address < 65536) }
{
    let first = read_list_byte(memory, address)?;
    read_property_by(memory, address, first)
}

/// The number in the first size byte of a property.
#[inline(always)]
fn number_in(version: u8, first: u8) -> u8
    ensures { result ≡ number_in version first }
{
    if version < 4 { first % 32 } else { first % 64 }
}

/// The address after the property whose first size byte stands at an address. It is found without the property, as
/// lists are walked often.
#[inline(always)]
#[tactic(auto, unfolding(crate::specs::PropertyList::property_by))]
fn end_of(memory: &Memory, version: u8, address: u32, first: u8) -> Result<u32, Fault>
    requires version { version ≡ memory.now.version }
    requires near { address < 65536 }
    requires more { first ≡ 0 → ⊥ }
    ensures { MatchResult result (EndsAt memory.now address first)
        (λ e. property_by memory.now address first ≡ Err e) }
{
    if version < 4 {
        return Ok(address + 2 + (first / 32) as u32);
    }
    if first < 128 {
        return Ok(address + 2 + (first / 64) as u32);
    }
    let second = read_list_byte(memory, address + 1)?;
    Ok(address + 2 + length_in(second) as u32)
}

/// Whether a list goes on from an address to its end.
pub(crate) fn check_list(memory: &Memory, address: u32) -> Result<(), Fault>
    ensures { MatchResult result (λ _. IsOk (properties_at memory.now address))
        (λ e. properties_at memory.now address ≡ Err e) }
{
    let version = memory.version();
    let mut at = address;
    // it ends, since no byte is read where data has ended
    loop {
        let first = read_list_byte(memory, at)?;
        if first == 0 {
            return Ok(());
        }
        at = end_of(memory, version, at, first)?;
    }
}

/// The first property of a number in the list at an address.
pub(crate) fn find(memory: &Memory, address: u32, number: u16) -> Result<Option<Property>, Fault>
    ensures value { result ≡ found_at memory.now address number }
    ensures bound { IfOk result (λ r. IfSome r (λ p. p.address < 65536)) }
{
    let version = memory.version();
    let mut at = address;
    loop {
        let first = read_list_byte(memory, at)?;
        if first == 0 {
            return Ok(None);
        }
        let end = end_of(memory, version, at, first)?;
        if number_in(version, first) as u16 == number {
            check_list(memory, end)?;
            return read_property_by(memory, at, first);
        }
        at = end;
    }
}

/// The number of the first property of the list at an address, or 0.
pub(crate) fn find_first_number(memory: &Memory, address: u32) -> Result<u16, Fault>
    ensures { result ≡ first_number_at memory.now address }
{
    check_list(memory, address)?;
    match read_property(memory, address)? {
        Some(property) => Ok(property.number as u16),
        None => Ok(0),
    }
}

/// The number of the property after the first one of a number, or 0.
pub(crate) fn find_number_after(memory: &Memory, address: u32, number: u16) -> Result<u16, Fault>
    ensures { result ≡ number_after_at memory.now address number }
{
    let version = memory.version();
    let mut at = address;
    loop {
        let first = read_list_byte(memory, at)?;
        if first == 0 {
            return Err(Fault::BadProperty);
        }
        let end = end_of(memory, version, at, first)?;
        if number_in(version, first) as u16 == number {
            return find_first_number(memory, end);
        }
        at = end;
    }
}
