// Files with the addresses of instructions that ran.

ghost use Rattle.std.specs.Prelude.{◌≡◌, ◌<◌, ◌^◌, ◌++◌, length, IfOk, MatchOption, OnOk};
ghost use Rattle.zk_program.specs.Covers.{HasCoverage, HasNoCoverage, address_line, are_within, marked_line};
ghost use Rattle.zk_fast.specs.Covers.{Covers};
ghost use Rattle.zk_program.specs.Covers.{text_of_cover};

use crate::exit::Exit;
use crate::told::{out_of_memory, tell_last_line, tell_unread};
use std::alloc::{AllocError, Global};
use std::{fs, str};
use zk_fast::places::{Cover, Places};
use zk_mem::memory::Memory;
use zk_notes::cover::{addresses_in, story_line, story_of};
use zk_system::files::{MOST_TEXT, read_whole};
use zk_system::keeping::hold;
use zk_system::shown::Shown;
use zk_term::writing::{hex_digits_of, zeros_before};
use zk_vm::stop::Stop;

/// What is told of a file that is no list of addresses.
const NO_LIST: &str = "not a coverage file";

/// Where the instructions stand that ran, by a coverage file, and of which story.
#[derive(Drop)]
pub struct Covered<'a> {
    path: &'a str,
    /// The line of the story.
    story: String,
    /// Their addresses, ascending.
    pub addresses: Vec<u32>,
}

/// What a coverage file has by its bytes: a text that begins with the line of a story, and has no other lines than that
/// and addresses; none where they are no such text.
fn list_in<'a>(
    alloc: Global,
    path: &'a str,
    bytes: &[u8],
) -> Result<Option<Covered<'a>>, AllocError>
    ensures { IfOk result (λ o. MatchOption o (HasNoCoverage bytes.now)
        (λ c. HasCoverage bytes.now c.story.bytes.items c.addresses.items)) }
{
    let Ok(text) = str::from_utf8(bytes) else {
        return Ok(None);
    };
    let Some(story) = story_of(text) else {
        return Ok(None);
    };
    let Some(addresses) = addresses_in(alloc, story, text)? else {
        return Ok(None);
    };
    Ok(Some(Covered {
        path,
        story: String::from_str(alloc, story)?,
        addresses,
    }))
}

/// Tells why a coverage file is not taken, and answers the program's status.
fn refuse(rt: &HostRuntime, path: &str, reason: &str) -> u8 {
    let _ = eprintln!(rt; "zkit: {}: {reason}", Shown(path));
    tell_last_line(rt, &Exit::Stopped(Stop::Read))
}

/// What a coverage file has, or the program's status, where it is told why it has nothing.
pub fn covered_in<'a>(rt: &HostRuntime, path: &'a str) -> Result<Covered<'a>, u8> {
    let bytes = match read_whole(rt, path, MOST_TEXT) {
        Ok(bytes) => bytes,
        Err(error) => return Err(tell_unread(rt, path, error)),
    };
    match list_in(rt.alloc(), path, bytes.as_slice()) {
        Ok(Some(covered)) => Ok(covered),
        Ok(None) => Err(refuse(rt, path, NO_LIST)),
        Err(_) => Err(out_of_memory(rt)),
    }
}

/// Whether addresses, which ascend, lie in a story of a length.
fn are_within(addresses: &[u32], length: u32) -> bool
    ensures { result ≡ are_within addresses.now length }
{
    match addresses.last() {
        Some(last) => *last < length,
        None => true,
    }
}

/// The line of a story, or the program's status, where it is told that there is no memory for it.
fn line_of(rt: &HostRuntime, memory: &Memory) -> Result<Vec<u8>, u8> {
    match story_line(rt.alloc(), memory) {
        Ok(line) => Ok(line),
        Err(_) => Err(out_of_memory(rt)),
    }
}

/// Sees that the line of a coverage file is that of a story, or answers the program's status, where it is told that it
/// is not.
fn see_line(rt: &HostRuntime, path: &str, line: &[u8], story: &[u8]) -> Result<(), u8> {
    if line == story {
        return Ok(());
    }
    let reason = "it is of another story, or of another build of this one";
    Err(refuse(rt, path, reason))
}

impl Covered<'_> {
    /// Sees that this is of the story of a line and a length, or answers the program's status, where it is told that it
    /// is not.
    fn see_line(&self, rt: &HostRuntime, story: &[u8], length: u32) -> Result<(), u8> {
        see_line(rt, self.path, self.story.as_bytes(), story)?;
        if !are_within(self.addresses.as_slice(), length) {
            return Err(refuse(rt, self.path, NO_LIST));
        }
        Ok(())
    }

    /// Sees that this is of a story, or answers the program's status, where it is told that it is not.
    pub fn see_story(&self, rt: &HostRuntime, memory: &Memory) -> Result<(), u8> {
        let story = line_of(rt, memory)?;
        self.see_line(rt, story.as_slice(), memory.len())
    }
}

/// Adds the line of an address: five hexadecimal digits at least.
#[tactic(auto, unfolding(zk_term::specs::Numbers::address_digits))]
fn add_address(list: &mut Vec<u8>, address: u32) -> Result<(), AllocError>
    ensures { OnOk result (list.new.items ≡ list.old.items ++ address_line address) }
{
    let digits = hex_digits_of(address);
    list.extend_from_slice(&digits[zeros_before(address)..])?;
    list.push(b'\n')?;
    Ok(())
}

/// Adds the line of an address that was noted, if it was.
fn add_marked(list: &mut Vec<u8>, address: usize, is_noted: bool) -> Result<(), AllocError>
    ensures { address < 2 ^ 32
        → OnOk result (list.new.items ≡ list.old.items ++ marked_line address is_noted) }
{
    match u32::try_from(address) {
        Ok(address) if is_noted => add_address(list, address),
        _ => Ok(()),
    }
}

/// The text of a coverage file: the line of the story, and the addresses below a bound that were noted, ascending.
#[tactic(auto, unfolding(crate::specs::Covers::marked_from))]
pub fn cover_text(alloc: Global, story: &[u8], marks: &[bool]) -> Result<Vec<u8>, AllocError>
    ensures { length marks.now < 2 ^ 32
        → IfOk result (λ v. v.items ≡ text_of_cover story.now marks.now) }
{
    let mut text = Vec::from_slice(alloc, story)?;
    text.push(b'\n')?;
    for at in 0..marks.len() {
        add_marked(&mut text, at, marks[at])?;
    }
    Ok(text)
}

/// Notes addresses, as far as they are below the bound.
fn note_all(cover: &mut Cover, addresses: &[u32])
    ensures { Covers cover.old cover.new addresses.now }
{
    for address in addresses {
        cover.note(*address);
    }
}

/// The text of a coverage file with what was noted beside the addresses that it has.
pub fn union_text(
    alloc: Global,
    story: &[u8],
    cover: &mut Cover,
    addresses: &[u32],
) -> Result<Vec<u8>, AllocError>
    ensures both { Covers cover.old cover.new addresses.now }
    ensures text { length cover.new < 2 ^ 32
        → IfOk result (λ v. v.items ≡ text_of_cover story.now cover.new) }
{
    note_all(cover, addresses);
    cover_text(alloc, story, cover.marks())
}

/// The file that gets the addresses of the instructions that a play carries out, beside those that it has.
#[derive(Drop)]
pub struct CoverFile<'a> {
    path: &'a str,
    /// The line of the story, and its length.
    story: Vec<u8>,
    length: u32,
    pub cover: Cover,
}

impl<'a> CoverFile<'a> {
    /// The file at a path for a play of a story; or the program's status, where it is told why what it has is not
    /// taken.
    pub fn read(rt: &HostRuntime, path: &'a str, memory: &Memory) -> Result<CoverFile<'a>, u8> {
        let story = line_of(rt, memory)?;
        let Ok(cover) = Cover::new(rt.alloc(), memory.len() as usize) else {
            return Err(out_of_memory(rt));
        };
        let file = CoverFile {
            path,
            story,
            length: memory.len(),
            cover,
        };
        file.addresses(rt)?;
        Ok(file)
    }

    /// The addresses that the file has, none where it is not there; or the program's status, where it is told why they
    /// are not had.
    fn addresses(&self, rt: &HostRuntime) -> Result<Vec<u32>, u8> {
        if !fs::exists(rt, self.path).unwrap_or(true) {
            return Ok(Vec::new(rt.alloc()));
        }
        let covered = covered_in(rt, self.path)?;
        covered.see_line(rt, self.story.as_slice(), self.length)?;
        Ok(covered.addresses)
    }

    /// Sees that the file is of a story too, or answers the program's status, where it is told that it is not.
    pub fn see_story(&self, rt: &HostRuntime, memory: &Memory) -> Result<(), u8> {
        let story = line_of(rt, memory)?;
        see_line(rt, self.path, self.story.as_slice(), story.as_slice())
    }

    /// The text of the file with what was noted beside what it has by now; or the program's status, where it is told
    /// why that is not had.
    fn text(&mut self, rt: &HostRuntime) -> Result<Vec<u8>, u8> {
        let had = self.addresses(rt)?;
        let story = self.story.as_slice();
        match union_text(rt.alloc(), story, &mut self.cover, had.as_slice()) {
            Ok(text) => Ok(text),
            Err(_) => Err(out_of_memory(rt)),
        }
    }

    /// Adds all that was noted to what the file has once no other play writes to it, and answers the program's status
    /// after a play that ended with one.
    pub fn write(&mut self, rt: &HostRuntime, status: u8) -> u8 {
        let Some(held) = hold(rt, self.path) else {
            return tell_last_line(rt, &Exit::Stopped(Stop::Write));
        };
        let text = match self.text(rt) {
            Ok(text) => text,
            Err(refused) => {
                held.let_go(rt);
                return refused;
            }
        };
        if held.keep(rt, text.as_slice()) {
            return status;
        }
        tell_last_line(rt, &Exit::Stopped(Stop::Write))
    }
}
