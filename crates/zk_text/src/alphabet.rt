// The alphabets of a story.

ghost use Rattle.std.specs.Prelude.{◌≡◌};
ghost use Rattle.zk_text.specs.Alphabets.{row_start, alphabet_table, letter_code, letter_by};

use zk_mem::memory::Memory;

/// The letters of A0, A1 and A2 of the Standard, 26 each. The first of A2 begins a ten-bit code and
/// is no letter.
pub const DEFAULT_LETTERS: [u8; 78] =
    *b"abcdefghijklmnopqrstuvwxyzABCDEFGHIJKLMNOPQRSTUVWXYZ \r0123456789.,!?_#'\"/\\-:()";

/// One of the three alphabets (Z-Machine Standards Document 1.1, section 3.2).
#[derive(Clone, Copy, Drop)]
pub enum Row {
    A0,
    A1,
    A2,
}

/// The alphabets that are in force (Standard, section 3.5).
#[derive(Clone, Copy, Drop)]
pub struct Alphabet {
    /// The byte address of the story's own table, where it has one.
    pub table: Option<u16>,
}

fn start_of(row: Row) -> u8
    ensures { result ≡ row_start row }
{
    match row {
        Row::A0 => 0,
        Row::A1 => 26,
        Row::A2 => 52,
    }
}

/// A code of the 78 that the alphabets have, A0 first.
#[tactic(auto, unfolding(crate::proofs::Opened::in_code_at), using(crate::proofs::Lists::read_or))]
fn code_at(memory: &Memory, table: Option<u16>, index: u16) -> u8
    ensures { result ≡ letter_code memory.now table index }
{
    match table {
        None => DEFAULT_LETTERS.get(index as usize).copied().unwrap_or(0),
        Some(start) => memory.cell(start as u32 + index as u32).unwrap_or(0),
    }
}

impl Alphabet {
    /// The alphabets of a story: its own from version 5 on, where its file's header names a table
    /// that lies in readable data, else those of the Standard.
    #[tactic(auto, unfolding(crate::specs::Alphabets::alphabet_table))]
    pub fn of(memory: &Memory) -> Alphabet
        ensures { result.table ≡ alphabet_table memory.now }
    {
        let table = memory.header().alphabet;
        if table == 0 || table as u32 + 78 > memory.data_end() {
            return Alphabet { table: None };
        }
        Alphabet { table: Some(table) }
    }

    /// The ZSCII code of a Z-character from 6 to 31 in an alphabet. An own table is read as it
    /// stands in memory; 7 in A2 is a new line, code 13, in every table.
    #[tactic(auto, unfolding(crate::specs::Alphabets::letter_by))]
    #[inline(always)]
    pub fn letter(self, memory: &Memory, row: Row, character: u8) -> u8
        ensures { result ≡ letter_by memory.now self.table row character }
    {
        if matches!(row, Row::A2) && character == 7 {
            return 13;
        }
        code_at(
            memory,
            self.table,
            start_of(row) as u16 + character.saturating_sub(6) as u16,
        )
    }
}
