// The extra characters of ZSCII.

ghost use Rattle.std.specs.Prelude.{◌≡◌, ◌≤◌, None, IsTrue, IfSome, nat_lt, slice_get};
ghost use Rattle.std.specs.List.{list_all};
ghost use Rattle.zk_text.specs.Reading.{words_of, IsInside};
ghost use Rattle.zk_text.specs.Extra.{unicode_table, words_at_table, own_characters, characters, character};
ghost use Rattle.zk_text.specs.Extra.{is_input_code, code_of, lower_code};

use std::marker::Model;
use zk_mem::memory::Memory;

/// The characters of ZSCII 155 to 223 where a story has no Unicode table of its own (Standard,
/// section 3.8.5.3).
pub const DEFAULT_CHARACTERS: [char; 69] = [
    'ä', 'ö', 'ü', 'Ä', 'Ö', 'Ü', 'ß', '»', '«', 'ë', 'ï', 'ÿ', 'Ë', 'Ï', 'á', 'é', 'í', 'ó', 'ú',
    'ý', 'Á', 'É', 'Í', 'Ó', 'Ú', 'Ý', 'à', 'è', 'ì', 'ò', 'ù', 'À', 'È', 'Ì', 'Ò', 'Ù', 'â', 'ê',
    'î', 'ô', 'û', 'Â', 'Ê', 'Î', 'Ô', 'Û', 'å', 'Å', 'ø', 'Ø', 'ã', 'ñ', 'õ', 'Ã', 'Ñ', 'Õ', 'æ',
    'Æ', 'ç', 'Ç', 'þ', 'ð', 'Þ', 'Ð', '£', 'œ', 'Œ', '¡', '¿',
];

/// For each code of them that of its letter in lower case.
pub const DEFAULT_LOWER: [u8; 69] = [
    155, 156, 157, 155, 156, 157, 161, 162, 163, 164, 165, 166, 164, 165, 169, 170, 171, 172, 173,
    174, 169, 170, 171, 172, 173, 174, 181, 182, 183, 184, 185, 181, 182, 183, 184, 185, 191, 192,
    193, 194, 195, 191, 192, 193, 194, 195, 201, 201, 203, 203, 205, 206, 207, 205, 206, 207, 211,
    211, 213, 213, 215, 216, 215, 216, 219, 220, 220, 222, 223,
];

/// A Unicode table in memory: its byte address, and how many words it states.
#[derive(Clone, Copy, Drop)]
pub(crate) struct Table {
    pub(crate) at: u16,
    pub(crate) count: u8,
}

/// The extra characters that are in force: what ZSCII 155 to 251 stand for (Z-Machine Standards
/// Document 1.1, section 3.8.5). Contracts see it as the words of the story's own table, or none
/// where those of the Standard are in force. Characters are given by their numbers in Unicode; a
/// story's own may be halves of surrogate pairs.
#[derive(Drop)]
pub struct Extra<'a> {
    memory: &'a Memory,
    own: Option<Table>,
}

impl<'a> Model for Extra<'a> {
    ghost use Rattle.zk_text.specs.Extra.{ExtraTable};
    ghost use Rattle.zk_text.specs.Reading.{words_of, IsInside};

    ghost Value = { ExtraTable };

    ghost view = { λ e. words_of e.memory.now.bytes e.own };

    ghost invariant = { λ e. IsInside e.memory.now.bytes e.own };
}

/// The address of the Unicode table that the header extension names.
#[tactic(auto, unfolding(crate::specs::Extra::unicode_table))]
fn table_address(memory: &Memory) -> Option<u16>
    ensures { result ≡ unicode_table memory.now }
{
    let extension = memory.header().extension as u32;
    if extension == 0 {
        return None;
    }
    match (memory.word(extension), memory.word(extension + 6)) {
        (Ok(words), Ok(table)) if words >= 3 && table != 0 => Some(table),
        _ => None,
    }
}

/// The table at an address, where all that it states lies in readable data.
#[tactic(auto, unfolding(crate::specs::Extra::words_at_table))]
fn table_at(memory: &Memory, at: u16) -> Option<Table>
    ensures words { words_of memory.now.bytes result ≡ words_at_table memory.now at }
    ensures inside { IsInside memory.now.bytes result }
{
    let Ok(count) = memory.byte(at as u32) else {
        return None;
    };
    if at as u32 + 1 + 2 * count as u32 > memory.data_end() {
        return None;
    }
    Some(Table { at, count })
}

/// The item of a table, by its index.
#[tactic(auto, using(crate::proofs::Tables::narrow_of))]
fn item(table: &[char], index: usize) -> Option<u16>
    requires { IsTrue (list_all (λ c. nat_lt c 65536) table.now) }
    ensures { result ≡ slice_get table.now index }
{
    match table.get(index) {
        None => None,
        Some(character) => Some(*character as u16),
    }
}

/// An extra character's code in lower case, by the Standard's table.
#[tactic(auto, using(crate::proofs::Lower::lower_extra, crate::proofs::Lists::read_or))]
fn standard_lower(code: u8) -> u8
    requires { 155 ≤ code }
    ensures { result ≡ lower_code None code }
{
    DEFAULT_LOWER
        .get((code - 155) as usize)
        .copied()
        .unwrap_or(code)
}

impl<'a> Extra<'a> {
    /// The extra characters of a story: its own from version 5 on, where the header extension of
    /// its file names a Unicode table that lies in readable data, else those of the Standard.
    #[tactic(auto, unfolding(crate::specs::Extra::own_characters))]
    pub fn of(memory: &'a Memory) -> Extra<'a>
        ensures { result ≡ own_characters memory.now }
    {
        match table_address(memory) {
            None => Extra { memory, own: None },
            Some(at) => Extra {
                memory,
                own: table_at(memory, at),
            },
        }
    }

    /// The extra character of the code 155 + index.
    #[tactic(auto, using(crate::proofs::Tables::standard_item, crate::proofs::Tables::no_item))]
    fn extra_at(&self, index: usize) -> Option<u16>
        ensures { result ≡ slice_get (characters self.now) index }
    {
        match self.own {
            None => item(&DEFAULT_CHARACTERS, index),
            Some(table) => {
                if index < table.count.min(97) as usize {
                    self.memory
                        .code_word(table.at as u32 + 1 + 2 * index as u32)
                } else {
                    None
                }
            }
        }
    }

    /// The character of a ZSCII code from 32 to 126 or from 155 to 251. Other codes have none, nor
    /// have those past the end of the table.
    #[tactic(auto, unfolding(crate::specs::Extra::character))]
    pub fn to_char(&self, code: u16) -> Option<u16>
        ensures { result ≡ character self.now code }
    {
        match code {
            32..=126 => Some(code),
            155.. => self.extra_at((code - 155) as usize),
            _ => None,
        }
    }

    /// The least ZSCII code of a character, from 32 to 126 or from 155 to 251, where it has one.
    #[tactic(auto, unfolding(crate::specs::Extra::code_of), using(crate::proofs::Tables::of_from_char))]
    pub fn from_char(&self, character: u32) -> Option<u8>
        ensures value { result ≡ code_of self.now character }
        ensures input { IfSome result (λ code. IsTrue (is_input_code code)) }
    {
        if matches!(character, 32..=126) {
            return Some(character as u8);
        }
        for i in 0..97 {
            match self.extra_at(i) {
                None => return None,
                Some(own) => {
                    if own as u32 == character {
                        return Some(155 + i as u8);
                    }
                }
            }
        }
        None
    }

    /// The code of a letter in lower case, where the code is that of a capital: A to Z, and the
    /// extra letters of the Standard where those are in force. Other codes stay.
    #[tactic(auto, using(crate::proofs::Lower::of_lower))]
    pub fn lower(&self, code: u8) -> u8
        ensures { result ≡ lower_code self.now code }
    {
        match code {
            b'A'..=b'Z' => code + 32,
            155.. if self.own.is_none() => standard_lower(code),
            _ => code,
        }
    }
}
