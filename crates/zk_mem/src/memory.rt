// The memory of a story that runs.

ghost use Rattle.std.specs.Prelude.{◌≡◌, ◌≤◌, ◌<◌, ℕ, ◌+◌, ◌++◌, Ok, Err, IfOk, IfErr, IfSome, IsOk, OnOk, OnSome};
ghost use Rattle.std.specs.Prelude.{MatchResult, length, take, drop, get_or, slice_index, bit_xor, nat_lt};
ghost use Rattle.std.specs.Prelude.{if◌then◌else◌};
ghost use Rattle.zk_mem.specs.Header.{header_of};
ghost use Rattle.zk_mem.specs.Map.{readable_end, with_byte, with_copy, byte_at, word_at, byte_put, word_put, cell_at};
ghost use Rattle.zk_mem.specs.Map.{code_word_at, HasBytes, KeepsFile, IsOfFile};
ghost use Rattle.zk_mem.specs.Words.{text_end_at};
ghost use Rattle.zk_mem.specs.Again.{with_flags, with_bytes, settled, restarted};
ghost use Rattle.zk_mem.specs.Checksum.{file_sum, has_right_sum};
ghost use Rattle.zk_mem.specs.Fresh.{with_fields, with_values, standard_fields, screen_fields_3, screen_fields_4};
ghost use Rattle.zk_mem.specs.Fresh.{screen_fields_5, fresh, plain_screen};

use crate::checksum::{is_right, sum_of};
use crate::fault::Fault;
use crate::header::{Header, header_at_front, word_of};
use crate::story::Story;
use std::alloc::{AllocError, Global};
use std::marker::Model;
use std::sync::ArcSlice;

/// What a screen has, as a story is told of it from version 4 on (Z-Machine Standards Document 1.1, section 8.4).
#[derive(Clone, Copy, PartialEq, Eq, Drop)]
pub struct ScreenSetup {
    /// How many characters a line has: from 20 on.
    pub columns: u8,
    /// Whether bold and italic text is told to be there, beside text of one width (section 11.1, Flags 1).
    pub styles: bool,
}

impl ScreenSetup {
    /// A screen of 80 columns, with text of one width alone.
    pub fn plain() -> ScreenSetup
        ensures { result ≡ plain_screen }
    {
        ScreenSetup {
            columns: 80,
            styles: false,
        }
    }
}

/// What an interpreter tells a story of itself.
#[derive(Clone, Copy, Drop)]
pub struct Setup {
    /// How many undo states are kept. Where it is 0, the header says that there is no undo.
    pub undo_states: u8,
    /// What the screen has.
    pub screen: ScreenSetup,
}

/// The memory of a story that runs (Z-Machine Standards Document 1.1, section 1). Addresses are byte
/// addresses. Data is read below the story's length and below 65,536, and written below the static
/// base alone; code and text are read anywhere in the story.
#[derive(Drop)]
pub struct Memory {
    header: Header,
    // where data ends
    readable: u32,
    setup: Setup,
    bytes: Vec<u8>,
    // that of the story, which other machines may share
    file: ArcSlice<u8, Global>,
}

impl Model for Memory {
    ghost use Rattle.zk_mem.specs.Map.{MemoryMap, IsWhole};

    ghost Value = { MemoryMap };

    ghost view = { λ m. record {
      version = m.header.version;
      static_base = m.header.static_base;
      bytes = m.bytes.items;
      file = m.file.items.value.items;
      setup = m.setup;
    } };

    ghost invariant = { λ m. IsWhole m.header m.readable m.bytes.items m.file.items.value.items };
}

fn set_standard(bytes: &mut Vec<u8>)
    requires { 64 ≤ length bytes.old.items }
    ensures { bytes.new.items ≡ with_values standard_fields bytes.old.items }
{
    bytes[0x32] = 1;
    bytes[0x33] = 1;
}

fn set_screen_3(bytes: &mut Vec<u8>)
    requires { 64 ≤ length bytes.old.items }
    ensures { bytes.new.items ≡ with_values (screen_fields_3 bytes.old.items) bytes.old.items }
{
    bytes[0x01] = bytes[0x01] & 0b1010_1111 | 0b0010_0000;
}

fn set_screen_4(bytes: &mut Vec<u8>, setup: Setup)
    requires { 64 ≤ length bytes.old.items }
    ensures { bytes.new.items ≡ with_values (screen_fields_4 setup bytes.old.items) bytes.old.items }
{
    let flags_1 = bytes[0x01];
    let styles = if setup.screen.styles {
        0b0001_1100
    } else {
        0b0001_0000
    };
    bytes[0x1e] = 6;
    bytes[0x1f] = 65;
    bytes[0x20] = 255;
    bytes[0x21] = setup.screen.columns;
    bytes[0x01] = flags_1 & 0b0101_0000 | styles;
}

fn set_screen_5(bytes: &mut Vec<u8>, setup: Setup)
    requires { 64 ≤ length bytes.old.items }
    ensures { bytes.new.items
        ≡ with_values (screen_fields_5 setup bytes.old.items) bytes.old.items }
{
    let (high, low) = (bytes[0x10], bytes[0x11]);
    let kept = if setup.undo_states == 0 {
        0b0000_0111
    } else {
        0b0001_0111
    };
    bytes[0x22] = 0;
    bytes[0x23] = setup.screen.columns;
    bytes[0x24] = 0;
    bytes[0x25] = 255;
    bytes[0x26] = 1;
    bytes[0x27] = 1;
    bytes[0x2c] = 2;
    bytes[0x2d] = 9;
    bytes[0x11] = low & kept;
    bytes[0x10] = high & 0b1111_1110;
}

/// Sets the header's fields that an interpreter sets.
#[tactic(auto, unfolding(crate::specs::Fresh::with_fields))]
fn set_fields(bytes: &mut Vec<u8>, version: u8, setup: Setup)
    requires { 64 ≤ length bytes.old.items }
    ensures { bytes.new.items ≡ with_fields version setup bytes.old.items }
{
    set_standard(bytes);
    if version < 4 {
        set_screen_3(bytes);
        return;
    }
    set_screen_4(bytes, setup);
    if version >= 5 {
        set_screen_5(bytes, setup);
    }
}

/// Gives bits 0 and 1 of Flags 2 the values that they have in a byte.
fn set_flags(bytes: &mut Vec<u8>, flags: u8)
    requires { 64 ≤ length bytes.old.items }
    ensures { bytes.new.items ≡ with_flags flags bytes.old.items }
{
    bytes[0x11] = bytes[0x11] & 0b1111_1100 | flags & 0b0000_0011;
}

/// Writes bytes over the first ones of a list.
fn copy_bytes(bytes: &mut [u8], from: &[u8])
    requires { length from.now ≤ length bytes.old }
    ensures { bytes.new ≡ from.now ++ drop (length from.now) bytes.old }
{
    bytes[..from.len()].copy_from_slice(from);
}

/// The items of a list of bytes are below 256.
fn are_bytes(bytes: &[u8])
    ensures { (i : ℕ) → get_or bytes.now i 0 < 256 }
{}

/// Why a write outside dynamic memory is refused.
#[cold]
fn refused(address: u32, readable: u32) -> Fault
    ensures { result ≡ (if nat_lt address readable then Fault.ReadOnly else Fault.BadAddress) }
{
    if address < readable {
        Fault::ReadOnly
    } else {
        Fault::BadAddress
    }
}

impl Memory {
    /// The memory at the start of a story: its file, with the header's fields that an interpreter sets
    /// (Standard, section 11.1). Where there is no memory for it, the story is given up.
    #[tactic(auto, unfolding(crate::specs::Fresh::fresh), using(crate::proofs::Bounds::none_bounds))]
    pub fn start(alloc: Global, story: Story, setup: Setup) -> Result<Memory, AllocError>
        ensures { IfOk result (λ m. m ≡ fresh story setup) }
    {
        let file = story.bytes;
        let header = header_at_front(file.as_slice());
        let mut bytes = Vec::from_slice(alloc, file.as_slice())?;
        set_fields(&mut bytes, header.version, setup);
        let readable = bytes.len().min(65_536) as u32;
        Ok(Memory {
            header,
            readable,
            setup,
            bytes,
            file,
        })
    }

    /// A memory of its own, as this one stands. The two share the story's file.
    pub fn try_clone(&self, alloc: Global) -> Result<Memory, AllocError>
        ensures { IfOk result (λ m. m ≡ self.now) }
    {
        let bytes = Vec::from_slice(alloc, self.bytes.as_slice())?;
        let file = self.file.clone()?;
        Ok(Memory {
            header: self.header,
            readable: self.readable,
            setup: self.setup,
            bytes,
            file,
        })
    }

    /// The byte at an address, or `BadAddress` outside readable data.
    #[tactic(auto, unfolding(crate::specs::Map::byte_at))]
    pub fn byte(&self, address: u32) -> Result<u8, Fault>
        ensures { result ≡ byte_at self.now address }
    {
        if address < self.readable {
            Ok(self.bytes[address as usize])
        } else {
            Err(Fault::BadAddress)
        }
    }

    /// The word at an address, high byte first, or `BadAddress` where one of its bytes lies outside
    /// readable data.
    #[tactic(auto, unfolding(crate::specs::Map::word_at))]
    pub fn word(&self, address: u32) -> Result<u16, Fault>
        ensures { result ≡ word_at self.now address }
    {
        if address < self.readable - 1 {
            Ok(word_of(self.bytes.as_slice(), address as usize))
        } else {
            Err(Fault::BadAddress)
        }
    }

    /// Writes a byte of dynamic memory. Elsewhere nothing changes, and it is `BadAddress` outside
    /// readable data, `ReadOnly` inside.
    #[tactic(auto, unfolding(crate::specs::Map::byte_put))]
    pub fn set_byte(&mut self, address: u32, value: u8) -> Result<(), Fault>
        ensures { MatchResult result (λ _. byte_put self.old address value ≡ Ok self.new)
            (λ e. (byte_put self.old address value ≡ Err e) × (self.new ≡ self.old)) }
    {
        if address >= self.header.static_base as u32 {
            return Err(refused(address, self.readable));
        }
        self.bytes[address as usize] = value;
        Ok(())
    }

    /// Writes a word of dynamic memory, high byte first. Where one of its bytes lies elsewhere nothing
    /// changes, and it is `BadAddress` outside readable data, `ReadOnly` inside.
    #[tactic(auto, unfolding(crate::specs::Map::word_put))]
    pub fn set_word(&mut self, address: u32, value: u16) -> Result<(), Fault>
        ensures { MatchResult result (λ _. word_put self.old address value ≡ Ok self.new)
            (λ e. (word_put self.old address value ≡ Err e) × (self.new ≡ self.old)) }
    {
        if address >= self.header.static_base as u32 - 1 {
            return Err(refused(address, self.readable - 1));
        }
        let at = address as usize;
        self.bytes[at] = (value >> 8) as u8;
        self.bytes[at + 1] = (value & 0xff) as u8;
        Ok(())
    }

    /// Whether a word can be written at an address: the refusals are those of `set_word`.
    #[tactic(auto, unfolding(crate::specs::Map::word_put))]
    pub fn check_word(&self, address: u32) -> Result<(), Fault>
        ensures ok { OnOk result ((value : ℕ) → IsOk (word_put self.now address value)) }
        ensures err { IfErr result (λ e. (value : ℕ) → word_put self.now address value ≡ Err e) }
    {
        if address < self.header.static_base as u32 - 1 {
            Ok(())
        } else {
            Err(refused(address, self.readable - 1))
        }
    }

    /// Gives dynamic memory the bytes of the file, as they stand there: no field of the header is set.
    pub fn reset(&mut self)
        ensures { self.new ≡ with_bytes self.old self.old.file }
    {
        let base = self.header.static_base as usize;
        copy_bytes(&mut self.bytes, &self.file.as_slice()[..base]);
    }

    /// Turns bits of a byte of dynamic memory: those that are set in `bits`.
    pub fn flip(&mut self, address: u32, bits: u8)
        requires { address < self.old.static_base }
        ensures { self.new
            ≡ with_byte self.old address (bit_xor (slice_index self.old.bytes address) bits) }
    {
        self.bytes[address as usize] ^= bits;
    }

    /// Copies so many bytes of the story to dynamic memory, as if at once, also where they overlap.
    pub fn move_bytes(&mut self, from: u32, to: u32, count: u32)
        requires readable { from + count ≤ length self.old.bytes }
        requires dynamic { to + count ≤ self.old.static_base }
        ensures { self.new ≡ with_copy self.old from to count }
    {
        let first = from as usize;
        let end = first + count as usize;
        self.bytes.copy_within(first..end, to as usize);
    }

    /// The low byte of Flags 2, as it stands (Standard, section 11.1).
    pub fn flags(&self) -> u8
        ensures { result ≡ slice_index self.now.bytes 0x11 }
    {
        self.bytes[0x11]
    }

    /// Gives bits 0 and 1 of Flags 2 the values that they have in `flags`, and then sets the header's
    /// fields that an interpreter sets (Standard, section 11.1).
    #[tactic(auto, unfolding(crate::specs::Again::settled))]
    pub fn settle(&mut self, flags: u8)
        ensures { self.new ≡ settled flags self.old }
    {
        let version = self.version();
        set_flags(&mut self.bytes, flags);
        set_fields(&mut self.bytes, version, self.setup);
    }

    /// Puts the file's bytes back into dynamic memory, but for bits 0 and 1 of Flags 2, and sets the
    /// header's fields again (Standard, section 6.1.3).
    #[tactic(auto, unfolding(crate::specs::Again::restarted, crate::specs::Again::again))]
    pub fn restart(&mut self)
        ensures { self.new ≡ restarted self.old }
    {
        let flags = self.flags();
        self.reset();
        self.settle(flags);
    }

    /// The length of the story, in bytes.
    pub fn len(&self) -> u32
        ensures value { result ≡ length self.now.bytes }
        ensures bound { result ≤ 524288 }
        ensures same { length self.now.file ≡ length self.now.bytes }
    {
        self.bytes.len() as u32
    }

    /// The address where data ends: it is read below the story's length and below 65,536.
    pub fn data_end(&self) -> u32
        ensures value { result ≡ readable_end self.now }
        ensures bound { result ≤ 65536 }
    {
        self.readable
    }

    /// The byte at any address of the story, for code and text.
    #[tactic(auto, unfolding(crate::specs::Map::cell_at))]
    pub fn cell(&self, address: u32) -> Option<u8>
        ensures value { result ≡ cell_at self.now address }
        ensures within { OnSome result (address < 524288) }
    {
        self.bytes.get(address as usize).copied()
    }

    /// The word at any address of the story, high byte first, for code and text. Where one of its bytes
    /// lies past the story's end there is none.
    #[tactic(auto, unfolding(crate::specs::Map::code_word_at))]
    pub fn code_word(&self, address: u32) -> Option<u16>
        ensures value { result ≡ code_word_at self.now address }
        ensures within { OnSome result (address < 524288) }
    {
        let at = address as usize;
        if at + 1 < self.bytes.len() {
            Some(word_of(self.bytes.as_slice(), at))
        } else {
            None
        }
    }

    /// The address after the text at an address, anywhere in the story: after its first word whose top
    /// bit is set (Standard, section 3.2). Where no such word lies inside the story there is none.
    #[tactic(auto, using(crate::proofs::TextWords::of_text_end))]
    pub fn text_end(&self, address: u32) -> Option<u32>
        ensures value { result ≡ text_end_at self.now address }
        ensures within { IfSome result (λ end. end ≤ length self.now.bytes) }
    {
        let mut at = address;
        // there are fewer words than bytes
        for _i in 0..self.len() {
            let Some(word) = self.code_word(at) else {
                return None;
            };
            at += 2;
            if word >= 0x8000 {
                return Some(at);
            }
        }
        None
    }

    /// The story's version.
    pub fn version(&self) -> u8
        ensures value { result ≡ self.now.version }
        ensures bound { self.now.version < 256 }
        ensures file { self.now.version ≡ (header_of self.now.file).version }
    {
        self.header.version
    }

    /// What the story is told of its interpreter.
    pub fn setup(&self) -> Setup
        ensures { result ≡ self.now.setup }
    {
        self.setup
    }

    /// What the header of the story's file says, whatever was written over it.
    pub fn header(&self) -> Header
        ensures { result ≡ header_of self.now.file }
    {
        self.header
    }

    /// Dynamic memory as it stands: the bytes below the static base.
    pub fn dynamic(&self) -> &[u8]
        ensures value { result.now ≡ take self.now.static_base self.now.bytes }
        ensures len { length result.now ≡ self.now.static_base }
        ensures within { self.now.static_base ≤ length self.now.file }
        ensures small { self.now.static_base < 65536 }
    {
        &self.bytes.as_slice()[..self.header.static_base as usize]
    }

    /// The whole story as it stands.
    pub fn current(&self) -> &[u8]
        ensures { result.now ≡ self.now.bytes }
    {
        self.bytes.as_slice()
    }

    /// The whole story file.
    pub fn original(&self) -> &[u8]
        ensures { result.now ≡ self.now.file }
    {
        self.file.as_slice()
    }

    /// The sum of the file's bytes after the header, up to the length that its header states, modulo
    /// 65,536 (Standard, section 15, `verify`). It goes up to the file's end where no length is stated,
    /// or more than there is.
    pub fn sum(&self) -> u16
        ensures { result ≡ file_sum self.now.file }
    {
        sum_of(self.original(), &self.header)
    }

    /// Whether the file's stated length lies in it, and its sum is the one that its header states
    /// (Standard, section 15, `verify`).
    pub fn checksum_ok(&self) -> bool
        ensures { result ≡ has_right_sum self.now.file }
    {
        is_right(self.original(), &self.header)
    }

    /// What stands at an address is a byte.
    #[tactic(auto, using(crate::proofs::Bounds::bytes_fit))]
    pub fn has_bytes(&self)
        ensures { HasBytes self.now }
    {
        are_bytes(self.bytes.as_slice());
    }

    /// What memory has of its file.
    #[tactic(auto, using(crate::proofs::Bounds::bytes_fit))]
    pub fn is_of_file(&self)
        ensures { IsOfFile self.now }
    {
        self.has_bytes();
        let _ = &self.bytes;
    }

    /// From the static base on the bytes are those of the story file.
    pub fn keeps_file(&self)
        ensures { KeepsFile self.now }
    {
        let _ = &self.bytes;
    }
}
