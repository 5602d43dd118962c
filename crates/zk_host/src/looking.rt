// What a host sees of a play, which stays as it is.

ghost use Rattle.std.specs.Prelude.{◌≡◌, drop};
ghost use Rattle.zk_host.specs.Hashes.{hash_of};
ghost use Rattle.zk_host.specs.Looking.{IsFrame, frame_numbered, locals_of, object_numbered, object_of, place_figures};
ghost use Rattle.zk_host.specs.Looking.{property_numbered, property_of, words_of};
ghost use Rattle.zk_host.specs.Texts.{IsPutInFront};

use zk_mem::fault::Fault;
use zk_mem::memory::Memory;
use zk_tables::properties::{
    entry_address, next_property, property_address, property_length, table_address,
};
use zk_tables::tree::{child, parent, sibling};
use zk_vm::machine::Machine;

/// Where a play stands.
#[repr(C)]
#[derive(Drop)]
pub struct PlaceFigures {
    /// The byte address of the instruction that waits, or comes next.
    pub address: u32,
    /// How many routines that were called are open.
    pub depth: u32,
    /// How many words all open routines hold.
    pub words: u32,
    /// How many states there are to go back to.
    pub states: u32,
    /// How many instructions were carried out since the last read was answered.
    pub steps: u32,
    /// How many reads were answered.
    pub reads: u32,
}

/// What is known of an open routine. Addresses are byte addresses, and 0 where they are not known.
#[repr(C)]
#[derive(Drop)]
pub struct FrameFigures {
    pub routine: u32,
    /// The call that began it.
    pub call: u32,
    /// Where its caller goes on.
    pub goes_on: u32,
    /// How many local variables it has.
    pub locals: u32,
    /// How many words stand on its evaluation stack.
    pub words: u32,
    /// How many arguments it was given.
    pub supplied: u32,
}

/// An object as it stands.
#[repr(C)]
#[derive(Drop)]
pub struct ObjectFigures {
    /// The byte address of its entry, which begins with its attributes.
    pub entry: u32,
    pub parent: u32,
    pub sibling: u32,
    pub child: u32,
    /// The byte address of its property table.
    pub properties: u32,
}

/// A property of an object.
#[repr(C)]
#[derive(Drop)]
pub struct PropertyFigures {
    /// The number of the next property.
    pub next: u32,
    /// The byte address of its data.
    pub address: u32,
    /// How many bytes its data has.
    pub length: u32,
}

/// Where a machine stands.
pub(crate) fn place_of(machine: &Machine) -> PlaceFigures
    ensures { result ≡ place_figures machine.now }
{
    let place = machine.place();
    PlaceFigures {
        address: place.pc,
        depth: machine.depth() as u32,
        words: machine.game().frames.words(),
        states: machine.undo().len() as u32,
        steps: place.steps,
        reads: place.reads,
    }
}

/// What is known of the open routine of a number: that which the story begins in has 0, and the newest the depth.
pub(crate) fn frame_of(machine: &Machine, number: u32) -> Option<FrameFigures>
    ensures { IsFrame machine.now number result }
{
    if number > machine.depth() as u32 {
        return None;
    }
    let frame = machine.game().frames.frame(number as u16);
    let open = machine.open_routine(number as u16);
    Some(FrameFigures {
        routine: open.routine.unwrap_or(0),
        call: open.call.unwrap_or(0),
        goes_on: frame.pc,
        locals: frame.locals.len() as u32,
        words: frame.words.len() as u32,
        supplied: frame.supplied as u32,
    })
}

/// Puts as many words at the front of a buffer as it has room for, and says how many.
fn put_words(words: &[u16], buffer: &mut [u16]) -> usize
    ensures { IsPutInFront words.now buffer.old buffer.new result }
{
    let count = words.len().min(buffer.len());
    buffer[..count].copy_from_slice(&words[..count]);
    count
}

/// Puts the local variables of the open routine of a number at the front of a buffer, as many as it has room for.
pub(crate) fn put_locals(machine: &Machine, number: u32, buffer: &mut [u16]) -> usize
    ensures { IsPutInFront (locals_of (frame_numbered machine.now number)) buffer.old buffer.new result }
{
    if number > machine.depth() as u32 {
        return put_words(&[], buffer);
    }
    put_words(machine.game().frames.frame(number as u16).locals, buffer)
}

/// Puts the words of its evaluation stack there, the newest last.
pub(crate) fn put_stack(machine: &Machine, number: u32, buffer: &mut [u16]) -> usize
    ensures { IsPutInFront (words_of (frame_numbered machine.now number)) buffer.old buffer.new result }
{
    if number > machine.depth() as u32 {
        return put_words(&[], buffer);
    }
    put_words(machine.game().frames.frame(number as u16).words, buffer)
}

/// The bytes of memory from an address on, as they are now.
pub(crate) fn bytes_from(memory: &Memory, address: u32) -> &[u8]
    ensures { result.now ≡ drop address memory.now.bytes }
{
    let bytes = memory.current();
    &bytes[(address as usize).min(bytes.len())..]
}

/// An object as it stands.
#[tactic(auto, unfolding(crate::specs::Looking::object_of))]
fn object_of(memory: &Memory, object: u16) -> Result<ObjectFigures, Fault>
    ensures { result ≡ object_of memory.now object }
{
    Ok(ObjectFigures {
        entry: entry_address(memory, object)?,
        parent: parent(memory, object)? as u32,
        sibling: sibling(memory, object)? as u32,
        child: child(memory, object)? as u32,
        properties: table_address(memory, object)? as u32,
    })
}

/// The object of a number as it stands.
pub(crate) fn object_numbered(memory: &Memory, object: u32) -> Result<ObjectFigures, Fault>
    ensures { result ≡ object_numbered memory.now object }
{
    if object > 65_535 {
        return Err(Fault::BadObject);
    }
    object_of(memory, object as u16)
}

/// A property of an object.
#[tactic(auto, unfolding(crate::specs::Looking::property_of))]
fn property_of(memory: &Memory, object: u16, number: u16) -> Result<PropertyFigures, Fault>
    ensures { result ≡ property_of memory.now object number }
{
    let next = next_property(memory, object, number)?;
    let address = property_address(memory, object, number)?;
    Ok(PropertyFigures {
        next: next as u32,
        address: address as u32,
        length: property_length(memory, address)? as u32,
    })
}

/// The property of a number of an object.
pub(crate) fn property_numbered(
    memory: &Memory,
    object: u32,
    number: u32,
) -> Result<PropertyFigures, Fault>
    ensures { result ≡ property_numbered memory.now object number }
{
    if object > 65_535 {
        return Err(Fault::BadObject);
    }
    if number > 65_535 {
        return Err(Fault::BadProperty);
    }
    property_of(memory, object as u16, number as u16)
}

/// The hash of bytes: FNV-1a in 64 bits.
#[tactic(auto, using(crate::proofs::Hashing::hash_end, crate::proofs::Hashing::hash_more))]
pub(crate) fn hash_of(bytes: &[u8]) -> u64
    ensures { result ≡ hash_of bytes.now }
{
    let mut hash: u64 = 0xcbf2_9ce4_8422_2325;
    for byte in bytes {
        hash = (hash ^ *byte as u64).wrapping_mul(0x100_0000_01b3);
    }
    hash
}
