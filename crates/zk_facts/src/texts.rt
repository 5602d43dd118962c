// The texts of facts.

use std::alloc::{AllocError, Global};
use zk_inspect::listing::abbreviation_lines::abbreviation_text;
use zk_inspect::listing::dictionary_lines::give_key;
use zk_mem::fault::Fault;
use zk_mem::memory::Memory;
use zk_tables::dictionary::Dictionary;
use zk_tables::properties::name;
use zk_text::alphabet::{Alphabet, Row};
use zk_text::extra::Extra;
use zk_text::shown::Shown;
use zk_text::sink::{Sink, SinkFault};
use zk_text::text::{check_text, print_text};
use zk_text::unit::Unit;

/// A text that a fact has.
#[derive(Clone, Copy, Drop)]
pub enum Text {
    /// The text at a byte address.
    At(u32),
    /// What an abbreviation stands for, by its number.
    Abbreviation(u8),
    /// The short name of an object.
    Name(u16),
    /// The word whose key stands at a byte address.
    Key(u32),
    Separators(Dictionary),
    /// The letters of an alphabet.
    Letters(Row),
    /// The extra characters in force.
    Extra,
}

/// Collects the characters that units show.
#[derive(Drop)]
struct Characters<'a> {
    text: String,
    extra: &'a Extra<'a>,
    /// Whether memory was short.
    is_short: bool,
}

impl Characters<'_> {
    fn push(&mut self, c: char) {
        self.is_short |= self.text.push(c).is_err();
    }

    /// Takes the character of a ZSCII code.
    fn code(&mut self, code: u16) {
        match self.put(Unit::Code(code)) {
            Ok(()) => {}
            Err(SinkFault) => {}
        }
    }
}

impl Sink for Characters<'_> {
    ghost gave = { λ a b us. Unit {0} };

    ghost refused = { λ a b us. Unit {0} };

    fn put(&mut self, unit: Unit) -> Result<(), SinkFault> {
        match Shown::of(self.extra, unit) {
            Shown::Nothing => {}
            Shown::One(c) => self.push(c),
            Shown::TwoSpaces => {
                self.push(' ');
                self.push(' ');
            }
        }
        Ok(())
    }

    ghost nothing = { λ a. tt };

    ghost twice = { λ a b c s t h k. tt };

    ghost late = { λ a b c s t h k. tt };
}

/// Collects what the text at a byte address prints, or tells why it prints nothing.
fn collect_at(memory: &Memory, address: u32, characters: &mut Characters<'_>) -> Result<(), Fault> {
    match check_text(memory, address) {
        Ok(_) => {}
        Err(fault) => return Err(fault),
    }
    match print_text(memory, address, characters) {
        Ok(()) => {}
        Err(SinkFault) => {}
    }
    Ok(())
}

/// Collects what an abbreviation stands for, or tells why it stands for nothing.
fn collect_abbreviation(
    memory: &Memory,
    number: u8,
    characters: &mut Characters<'_>,
) -> Result<(), Fault> {
    let address = match abbreviation_text(memory, number) {
        Ok(address) => address,
        Err(fault) => return Err(fault),
    };
    match print_text(memory, address, characters) {
        Ok(()) => {}
        Err(SinkFault) => {}
    }
    Ok(())
}

/// Collects the separators of a dictionary.
fn collect_separators(memory: &Memory, dictionary: &Dictionary, characters: &mut Characters<'_>) {
    for before in 0..dictionary.separators {
        let address = dictionary.address.saturating_add(1 + before as u32);
        characters.code(memory.cell(address).unwrap_or(0) as u16);
    }
}

/// Collects the letters of an alphabet.
fn collect_letters(memory: &Memory, row: Row, characters: &mut Characters<'_>) {
    let first = match row {
        Row::A0 | Row::A1 => 6,
        // 6 in A2 begins a code of ten bits (section 3.4)
        Row::A2 => 7,
    };
    for character in first..32u8 {
        let code = Alphabet::of(memory).letter(memory, row, character);
        characters.code(code as u16);
    }
}

/// Collects the extra characters in force.
fn collect_extra(characters: &mut Characters<'_>) {
    for code in 155..252u16 {
        if characters.extra.to_char(code).is_some() {
            characters.code(code);
        }
    }
}

/// Collects the characters of a text, or tells why it has none.
fn collect(memory: &Memory, text: Text, characters: &mut Characters<'_>) -> Result<(), Fault> {
    match text {
        Text::At(address) => return collect_at(memory, address, characters),
        Text::Abbreviation(number) => return collect_abbreviation(memory, number, characters),
        Text::Name(object) => {
            if let Ok(Some(address)) = name(memory, object) {
                return collect_at(memory, address, characters);
            }
        }
        Text::Key(address) => match give_key(memory, address, characters) {
            Ok(()) => {}
            Err(SinkFault) => {}
        },
        Text::Separators(dictionary) => collect_separators(memory, &dictionary, characters),
        Text::Letters(row) => collect_letters(memory, row, characters),
        Text::Extra => collect_extra(characters),
    }
    Ok(())
}

/// The characters of a text, or why it has none.
pub fn characters_of(
    alloc: Global,
    memory: &Memory,
    text: Text,
) -> Result<Result<String, Fault>, AllocError> {
    let extra = Extra::of(memory);
    let mut characters = Characters {
        text: String::new(alloc),
        extra: &extra,
        is_short: false,
    };
    let collected = collect(memory, text, &mut characters);
    if characters.is_short {
        return Err(AllocError);
    }
    match collected {
        Ok(()) => Ok(Ok(characters.text)),
        Err(fault) => Ok(Err(fault)),
    }
}
