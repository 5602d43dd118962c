// The header of a story file.

ghost use Rattle.std.specs.Prelude.{◌≡◌, ◌+◌, ◌<◌, ◌≤◌, ◌*◌, length, take, drop};
ghost use Rattle.zk_mem.specs.Header.{word_in, word_from_5, header_of, unit_length, unpacked};

/// What the header of a story file says (Z-Machine Standards Document 1.1, section 11.1). Addresses
/// are byte addresses. The last three fields are 0 before version 5, where they have no meaning.
#[derive(Clone, Copy, Drop)]
pub struct Header {
    pub version: u8,
    pub flags_1: u8,
    pub release: u16,
    pub high_memory: u16,
    pub first_instruction: u16,
    pub dictionary: u16,
    pub objects: u16,
    pub globals: u16,
    /// Where static memory begins: a story writes below it alone.
    pub static_base: u16,
    pub flags_2: u16,
    pub serial: [u8; 6],
    pub abbreviations: u16,
    /// The length of the file, in units of 2, 4 or 8 bytes by version.
    pub file_length: u16,
    pub checksum: u16,
    pub terminating_characters: u16,
    pub alphabet: u16,
    pub extension: u16,
}

/// The word at an address, high byte first.
pub(crate) fn word_of(file: &[u8], address: usize) -> u16
    requires { address + 1 < length file.now }
    ensures { result ≡ word_in file.now address }
{
    256 * file[address] as u16 + file[address + 1] as u16
}

fn word_from_5_of(file: &[u8], address: usize) -> u16
    requires { address + 1 < length file.now }
    ensures { result ≡ word_from_5 file.now address }
{
    if file[0] < 5 {
        0
    } else {
        word_of(file, address)
    }
}

fn serial_of(file: &[u8]) -> [u8; 6]
    requires { 64 ≤ length file.now }
    ensures { result ≡ take 6 (drop 0x12 file.now) }
{
    [
        file[0x12], file[0x13], file[0x14], file[0x15], file[0x16], file[0x17],
    ]
}

/// What the header at the front of a file says.
#[tactic(auto, unfolding(crate::specs::Header::header_of))]
pub(crate) fn header_at_front(file: &[u8]) -> Header
    requires { 64 ≤ length file.now }
    ensures { result ≡ header_of file.now }
{
    Header {
        version: file[0x00],
        flags_1: file[0x01],
        release: word_of(file, 0x02),
        high_memory: word_of(file, 0x04),
        first_instruction: word_of(file, 0x06),
        dictionary: word_of(file, 0x08),
        objects: word_of(file, 0x0a),
        globals: word_of(file, 0x0c),
        static_base: word_of(file, 0x0e),
        flags_2: word_of(file, 0x10),
        serial: serial_of(file),
        abbreviations: word_of(file, 0x18),
        file_length: word_of(file, 0x1a),
        checksum: word_of(file, 0x1c),
        terminating_characters: word_from_5_of(file, 0x2e),
        alphabet: word_from_5_of(file, 0x34),
        extension: word_from_5_of(file, 0x36),
    }
}

/// The byte address of a packed address: its double in version 3, four times it in versions 4 and 5,
/// eight times it in version 8 (Standard, section 1.2.3).
#[tactic(auto, unfolding(crate::specs::Header::unit_length))]
pub fn unpack(version: u8, packed: u16) -> u32
    ensures value { result ≡ unpacked version packed }
    ensures bound { result ≤ 8 * 65535 }
{
    if version < 4 {
        2 * packed as u32
    } else if version < 6 {
        4 * packed as u32
    } else {
        8 * packed as u32
    }
}
