// The text that the line of a fact shows.

ghost use Rattle.std.specs.Prelude.{◌≡◌};
ghost use Rattle.zk_tables.specs.Properties.{name_of};
ghost use Rattle.zk_code.specs.Reading.{instr_at};
ghost use Rattle.zk_inspect.specs.LineTexts.{inline_text, line_text, name_text};

use crate::fact::Fact;
use zk_code::decode::decode;
use zk_mem::memory::Memory;
use zk_tables::properties::name;
use zk_text::text::text_place;

/// The byte address of an object's name, where it has one.
fn name_text(memory: &Memory, object: u16) -> Option<u32>
    ensures { result ≡ name_text (name_of memory.now object) }
{
    match name(memory, object) {
        Ok(text) => text,
        Err(_) => None,
    }
}

/// The byte address of the text of the instruction at an address, where there is one.
fn inline_text(memory: &Memory, address: u32) -> Option<u32>
    ensures { result ≡ inline_text (instr_at memory.now address) }
{
    match decode(memory, address) {
        Ok(instr) => instr.text,
        Err(_) => None,
    }
}

/// The byte address of the text that the line of a fact shows, where it shows one: that of an abbreviation, of an
/// object's name, a text that lies in the story, or that of an instruction. Notes are left out.
pub fn line_text(memory: &Memory, fact: Fact) -> Option<u32>
    ensures { result ≡ line_text memory.now fact }
{
    match fact {
        Fact::Abbreviation(number) => text_place(memory, number as u16),
        Fact::Object(object) => name_text(memory, object),
        Fact::Node(node) => name_text(memory, node.object),
        Fact::Text(address) => Some(address),
        Fact::Instruction(address) => inline_text(memory, address),
        _ => None,
    }
}
