// The lines of a dictionary.

ghost use Rattle.std.specs.Prelude.{◌≡◌, ◌≤◌, ◌<◌, ◌+◌, ◌++◌, ◌∷◌, [], List, length, map, OnErr, OnOk};
ghost use Rattle.std.specs.List.{range_with_len};
ghost use Rattle.zk_text.specs.Extra.{own_characters};
ghost use Rattle.zk_text.specs.Pieces.{a1_cut, a2_cut, abbreviation_cut, code_cut, cut};
ghost use Rattle.zk_text.specs.Words.{z_characters};
ghost use Rattle.zk_text.specs.declared.unit.Unit.{Unit};
ghost use Rattle.zk_tables.specs.Dictionaries.{IsDictionaryOf, entry_start};
ghost use Rattle.zk_inspect.specs.DictionaryLines.{dictionary_facts, entry_front, fault_line, key_characters};
ghost use Rattle.zk_inspect.specs.DictionaryLines.{piece_units, separator_text, separators_line, separators_text};
ghost use Rattle.zk_inspect.specs.DictionaryLines.{size_line, table_facts, word_line, word_of, word_units};
ghost use Rattle.zk_inspect.specs.Quoted.{quoted_units};

use crate::fact::{Fact, FactWriter, Word};
use crate::listing::quoting::{Quoting, write_code};
use crate::listing::reading::{byte_after, word_after};
use crate::listing::writing::write_fault;
use arrayvec::ArrayVec;
use itoa::Buffer;
use zk_mem::fault::Fault;
use zk_mem::memory::Memory;
use zk_tables::dictionary::Dictionary;
use zk_term::line_writer::LineWriter;
use zk_term::writing::{hex_digits_of, write_decimal, write_texts, zeros_before};
use zk_text::alphabet::{Alphabet, Row};
use zk_text::extra::Extra;
use zk_text::pieces::Piece;
use zk_text::sink::{Sink, SinkFault};
use zk_text::unit::Unit;

/// A piece that begins with 1, 2 or 3, and how many further Z-characters it takes.
fn cut_abbreviation(first: u8, rest: &[u8]) -> (Option<Piece>, usize)
    requires low { 1 ≤ first }
    requires high { first < 4 }
    ensures piece { result.0 ≡ (abbreviation_cut first rest.now).0 }
    ensures taken { result.1 ≡ (abbreviation_cut first rest.now).1 }
{
    match rest {
        [] => (None, 0),
        [next, ..] => {
            let number = 32 * (first - 1) as u16 + *next as u16;
            (Some(Piece::Abbreviation(number)), 1)
        }
    }
}

/// A piece that begins with 4, and how many further Z-characters it takes.
fn cut_a1(rest: &[u8]) -> (Option<Piece>, usize)
    ensures piece { result.0 ≡ (a1_cut rest.now).0 }
    ensures taken { result.1 ≡ (a1_cut rest.now).1 }
{
    match rest {
        [] => (None, 0),
        [next, ..] => {
            if *next < 6 {
                (None, 0)
            } else {
                (Some(Piece::Letter(Row::A1, *next)), 1)
            }
        }
    }
}

/// A code in two halves after 5 and 6, and how many Z-characters are taken after the 5.
fn cut_code(rest: &[u8]) -> (Option<Piece>, usize)
    ensures piece { result.0 ≡ (code_cut rest.now).0 }
    ensures taken { result.1 ≡ (code_cut rest.now).1 }
{
    match rest {
        [] => (None, 1),
        [_] => (None, 2),
        [high, low, ..] => (Some(Piece::Code(32 * *high as u16 + *low as u16)), 3),
    }
}

/// A piece that begins with 5, and how many further Z-characters it takes.
fn cut_a2(rest: &[u8]) -> (Option<Piece>, usize)
    ensures piece { result.0 ≡ (a2_cut rest.now).0 }
    ensures taken { result.1 ≡ (a2_cut rest.now).1 }
{
    match rest {
        [] => (None, 0),
        [next, behind @ ..] => {
            if *next < 6 {
                (None, 0)
            } else if *next == 6 {
                cut_code(behind)
            } else {
                (Some(Piece::Letter(Row::A2, *next)), 1)
            }
        }
    }
}

/// The piece that a Z-character begins, and how many further ones it takes.
fn cut(first: u8, rest: &[u8]) -> (Option<Piece>, usize)
    ensures piece { result.0 ≡ (cut first rest.now).0 }
    ensures taken { result.1 ≡ (cut first rest.now).1 }
{
    if first == 0 {
        (Some(Piece::Code(32)), 0)
    } else if first < 4 {
        cut_abbreviation(first, rest)
    } else if first == 4 {
        cut_a1(rest)
    } else if first == 5 {
        cut_a2(rest)
    } else {
        (Some(Piece::Letter(Row::A0, first)), 0)
    }
}

/// Gives what a piece of a key stands for: an abbreviation stands for nothing there.
fn give_piece<S: Sink>(memory: &Memory, piece: Option<Piece>, sink: &mut S) -> Result<(), SinkFault>
    ensures ok { OnOk result (S.gave sink.old sink.new (piece_units memory.now piece)) }
    ensures err { OnErr result ((more : List Unit) →
        S.refused sink.old sink.new (piece_units memory.now piece ++ more)) }
{
    match piece {
        Some(Piece::Letter(row, character)) => {
            let code = Alphabet::of(memory).letter(memory, row, character);
            sink.put(Unit::Code(code as u16))
        }
        Some(Piece::Code(code)) => sink.put(Unit::Code(code)),
        Some(Piece::Abbreviation(_)) => Ok(()),
        None => Ok(()),
    }
}

/// Gives what Z-characters of a key stand for.
fn give_word<S: Sink>(memory: &Memory, characters: &[u8], sink: &mut S) -> Result<(), SinkFault>
    ensures ok { OnOk result (S.gave sink.old sink.new (word_units memory.now characters.now)) }
    ensures err { OnErr result (S.refused sink.old sink.new (word_units memory.now characters.now)) }
{
    let [first, rest @ ..] = characters else {
        return Ok(());
    };
    let (piece, taken) = cut(*first, rest);
    match give_piece(memory, piece, sink) {
        Ok(()) => give_word(memory, &rest[taken.min(rest.len())..], sink),
        Err(fault) => Err(fault),
    }
}

/// Adds the Z-characters of a word.
#[tactic(auto, unfolding(zk_text::specs::Words::z_characters))]
fn put_characters(characters: &mut ArrayVec<u8, 9>, word: u16)
    requires { length characters.old.items ≤ 6 }
    ensures items { characters.new.items ≡ characters.old.items ++ z_characters (word ∷ []) }
    ensures count { length characters.new.items ≡ length characters.old.items + 3 }
{
    characters.push((word / 1024 % 32) as u8);
    characters.push((word / 32 % 32) as u8);
    characters.push((word % 32) as u8);
}

/// The Z-characters of the key at an address.
#[tactic(auto, unfolding(crate::specs::DictionaryLines::key_characters, zk_text::specs::Words::z_characters))]
fn key_characters(memory: &Memory, address: u32) -> ArrayVec<u8, 9>
    ensures { result.items ≡ key_characters memory.now address }
{
    let mut characters = ArrayVec::new();
    put_characters(&mut characters, word_after(memory, address, 0));
    put_characters(&mut characters, word_after(memory, address, 2));
    if memory.version() < 4 {
        return characters;
    }
    put_characters(&mut characters, word_after(memory, address, 4));
    characters
}

/// Gives a sink the units of the word whose key stands at a byte address: what its Z-characters stand for, where
/// abbreviations stand for nothing (Z-Machine Standards Document 1.1, sections 3.7, 13.3 and 13.4). Where the sink
/// refuses, it was given a first part of them.
pub fn give_key<S: Sink>(memory: &Memory, address: u32, sink: &mut S) -> Result<(), SinkFault>
    ensures ok { OnOk result (S.gave sink.old sink.new
        (word_units memory.now (key_characters memory.now address))) }
    ensures err { OnErr result (S.refused sink.old sink.new
        (word_units memory.now (key_characters memory.now address))) }
{
    let characters = key_characters(memory, address);
    match give_word(memory, characters.as_slice(), sink) {
        Ok(()) => Ok(()),
        Err(fault) => Err(fault),
    }
}

/// Writes the word whose key stands at an address.
fn write_key<P: LineWriter>(writer: &mut P, memory: &Memory, address: u32)
    ensures { P.wrote writer.old writer.new
        (quoted_units (own_characters memory.now)
        (word_units memory.now (key_characters memory.now address))) }
{
    let extra = Extra::of(memory);
    let mut quoting = Quoting::new(writer, &extra);
    match give_key(memory, address, &mut quoting) {
        Ok(()) => {}
        Err(SinkFault) => {}
    }
}

/// Writes the number and the address of an entry, up to the quote before its word.
#[tactic(auto, unfolding(crate::specs::DictionaryLines::entry_front, zk_term::specs::Numbers::address_digits))]
fn write_front<P: LineWriter>(writer: &mut P, index: u16, address: u32)
    ensures { P.wrote writer.old writer.new (entry_front index address) }
{
    let mut buffer = Buffer::new();
    let digits = hex_digits_of(address);
    let number = buffer.format(index).as_bytes();
    let shown = &digits[zeros_before(address)..];
    write_texts(writer, &[number, b" ", shown, b" \""]);
}

/// Writes the line of a word.
pub(crate) fn write_word_line<P: LineWriter>(writer: &mut P, memory: &Memory, word: Word)
    ensures { P.wrote writer.old writer.new (word_line memory.now word.index word.address) }
{
    write_front(writer, word.index, word.address);
    write_key(writer, memory, word.address);
    writer.write(b"\"");
}

/// Writes a separator of a dictionary, counted from 0.
fn write_separator<P: LineWriter>(
    writer: &mut P,
    memory: &Memory,
    dictionary: &Dictionary,
    index: u8,
)
    ensures { P.wrote writer.old writer.new (separator_text memory.now dictionary.now index) }
{
    let code = byte_after(memory, dictionary.address, 1 + index as u32);
    write_code(writer, memory, code as u16);
}

/// Writes the separators of a dictionary.
fn write_separators<P: LineWriter>(writer: &mut P, memory: &Memory, dictionary: &Dictionary)
    ensures { P.wrote writer.old writer.new (separators_text memory.now dictionary.now) }
{
    for index in 0..dictionary.separators {
        write_separator(writer, memory, dictionary, index);
    }
}

/// Writes the line of a dictionary's separators.
pub(crate) fn write_separators_line<P: LineWriter>(
    writer: &mut P,
    memory: &Memory,
    dictionary: &Dictionary,
)
    ensures { P.wrote writer.old writer.new (separators_line memory.now dictionary.now) }
{
    writer.write(b"separators \"");
    write_separators(writer, memory, dictionary);
    writer.write(b"\"");
}

/// Writes the line of a dictionary's size.
#[tactic(auto, unfolding(crate::specs::DictionaryLines::size_line))]
pub(crate) fn write_size_line<P: LineWriter>(writer: &mut P, dictionary: &Dictionary)
    ensures { P.wrote writer.old writer.new (size_line dictionary.now) }
{
    let mut counts = Buffer::new();
    let mut lengths = Buffer::new();
    let count = counts.format(dictionary.entries).as_bytes();
    let length = lengths.format(dictionary.entry_length).as_bytes();
    write_texts(writer, &[b"entries ", count, b" length ", length]);
}

/// Writes the line of a dictionary that is none: its fault.
#[tactic(auto, unfolding(crate::specs::DictionaryLines::fault_line))]
pub(crate) fn write_fault_line<P: LineWriter>(writer: &mut P, fault: Fault)
    ensures { P.wrote writer.old writer.new (fault_line fault) }
{
    write_fault(writer, fault);
}

/// The byte address of an entry, counted from 0.
#[tactic(auto, using(zk_tables::proofs::Finding::entry_inside, zk_tables::proofs::Finding::dictionary_inside))]
fn start_of(memory: &Memory, dictionary: &Dictionary, index: u16) -> u32
    requires stands { IsDictionaryOf memory.now dictionary.now }
    requires index { index < dictionary.now.entries }
    ensures { result ≡ entry_start dictionary.now index }
{
    memory.data_end();
    dictionary.address
        + dictionary.separators as u32
        + 4
        + dictionary.entry_length as u32 * index as u32
}

/// Gives a word of a dictionary, counted from 0.
fn list_word<F: FactWriter>(memory: &Memory, facts: &mut F, dictionary: &Dictionary, index: u16)
    requires stands { IsDictionaryOf memory.now dictionary.now }
    requires index { index < dictionary.now.entries }
    ensures { F.wrote facts.old facts.new (word_of dictionary.now index ∷ []) }
{
    facts.write(Fact::Word(Word {
        index,
        address: start_of(memory, dictionary, index),
    }));
}

/// Gives the words of a dictionary.
fn list_words<F: FactWriter>(memory: &Memory, facts: &mut F, dictionary: &Dictionary)
    requires { IsDictionaryOf memory.now dictionary.now }
    ensures { F.wrote facts.old facts.new
        (map (word_of dictionary.now) (range_with_len 0 dictionary.now.entries)) }
{
    for index in 0..dictionary.entries {
        list_word(memory, facts, dictionary, index);
    }
}

/// Gives a dictionary that is one.
fn list_table<F: FactWriter>(memory: &Memory, facts: &mut F, dictionary: &Dictionary)
    requires { IsDictionaryOf memory.now dictionary.now }
    ensures { F.wrote facts.old facts.new (table_facts dictionary.now) }
{
    facts.write(Fact::Separators(*dictionary));
    facts.write(Fact::Entries(*dictionary));
    list_words(memory, facts, dictionary);
}

/// Gives the dictionary that the header names, or why there is none.
#[tactic(auto, unfolding(crate::specs::DictionaryLines::dictionary_facts))]
pub(crate) fn list_dictionary<F: FactWriter>(memory: &Memory, facts: &mut F)
    ensures { F.wrote facts.old facts.new (dictionary_facts memory.now) }
{
    let address = memory.header().dictionary;
    if address == 0 {
        return;
    }
    match Dictionary::at(memory, address as u32) {
        Ok(dictionary) => list_table(memory, facts, &dictionary),
        Err(fault) => facts.write(Fact::NoDictionary(fault)),
    }
}
