// Disassemblies.

ghost use Rattle.std.specs.Prelude.{◌≡◌, ◌≤◌, ◌∷◌, ◌++◌, ◌^◌, codes, map, Ok, Err};
ghost use Rattle.zk_code.specs.Table.{name_of};
ghost use Rattle.zk_code.specs.Reading.{instr_at};
ghost use Rattle.zk_inspect.specs.Notes.{noted_line, noted_text, notes};
ghost use Rattle.zk_inspect.specs.Listing.{address_line, code_facts, found_text, instruction_text, lying_routine};
ghost use Rattle.zk_inspect.specs.Listing.{origin_line, routine_line, text_text, whole_facts};

use crate::fact::{Fact, FactWriter};
use crate::listing::quoting::write_quoted;
use crate::reach::code::Code;
use crate::reach::notes::write_notes;
use crate::reach::operands::{write_branch, write_operands, write_store};
use crate::whole::Whole;
use itoa::Buffer;
use zk_code::decode::decode;
use zk_code::instr::Instr;
use zk_code::opcode::{Opcode, name};
use zk_code::routines::local_count;
use zk_mem::memory::Memory;
use zk_term::line_writer::LineWriter;
use zk_term::writing::{hex_digits_of, write_address, write_texts, zeros_before};

/// Writes the text of an instruction, where it has one.
#[tactic(auto, unfolding(crate::specs::Listing::text_text))]
fn write_text<P: LineWriter>(writer: &mut P, memory: &Memory, text: Option<u32>)
    ensures { P.wrote writer.old writer.new (text_text memory.now text) }
{
    match text {
        Some(address) => {
            writer.write(b" ");
            write_quoted(writer, memory, address);
        }
        None => {}
    }
}

/// Writes the name of an opcode.
fn write_name<P: LineWriter>(writer: &mut P, memory: &Memory, opcode: Opcode)
    ensures { P.wrote writer.old writer.new (name_of memory.now.version opcode) }
{
    let name = name(opcode, memory.version());
    writer.write(name.as_bytes());
}

/// Writes an instruction.
fn write_instruction<P: LineWriter>(writer: &mut P, memory: &Memory, instr: &Instr)
    requires { instr.now.next ≤ 2 ^ 20 }
    ensures { P.wrote writer.old writer.new (instruction_text memory.now instr.now) }
{
    write_name(writer, memory, instr.opcode);
    write_operands(memory, instr, writer);
    write_store(writer, instr.store);
    write_branch(writer, instr.branch);
    write_text(writer, memory, instr.text);
}

/// Writes what stands at an address: an instruction, or a question mark where there is none.
fn write_found<P: LineWriter>(writer: &mut P, memory: &Memory, address: u32)
    ensures { P.wrote writer.old writer.new (found_text memory.now (instr_at memory.now address)) }
{
    match decode(memory, address) {
        Ok(instr) => write_instruction(writer, memory, &instr),
        Err(_) => writer.write(b"?"),
    }
}

/// Writes the line of an address.
pub(crate) fn write_address_line<P: LineWriter>(writer: &mut P, memory: &Memory, address: u32)
    ensures { P.wrote writer.old writer.new (address_line memory.now address) }
{
    write_address(writer, b"", address);
    writer.write(b" ");
    write_found(writer, memory, address);
}

/// Writes the line of a routine.
#[tactic(auto, unfolding(crate::specs::Listing::routine_line, zk_term::specs::Numbers::address_digits))]
pub(crate) fn write_routine_line<P: LineWriter>(writer: &mut P, memory: &Memory, routine: u32)
    ensures { P.wrote writer.old writer.new (routine_line memory.now routine) }
{
    let mut buffer = Buffer::new();
    let digits = hex_digits_of(routine);
    let shown = &digits[zeros_before(routine)..];
    let count = buffer.format(local_count(memory, routine).unwrap_or(0));
    write_texts(writer, &[b"routine ", shown, b" locals ", count.as_bytes()]);
}

/// Writes the line of a routine of a whole story.
#[tactic(auto, unfolding(crate::specs::Listing::origin_line))]
pub(crate) fn write_origin_line<P: LineWriter>(
    writer: &mut P,
    memory: &Memory,
    routine: u32,
    reached: bool,
)
    ensures { P.wrote writer.old writer.new (origin_line memory.now routine reached) }
{
    write_routine_line(writer, memory, routine);
    if reached {
        writer.write(b" reached");
    } else {
        writer.write(b" beside");
    }
}

/// Writes an instruction with its notes.
fn write_with_notes<P: LineWriter>(writer: &mut P, memory: &Memory, instr: &Instr)
    requires { instr.now.next ≤ 2 ^ 20 }
    ensures { P.wrote writer.old writer.new
        (instruction_text memory.now instr.now ++ notes memory.now instr.now) }
{
    write_instruction(writer, memory, instr);
    write_notes(writer, memory, instr);
}

/// Writes what stands at an address with its notes, or a question mark where there is no instruction.
fn write_noted<P: LineWriter>(writer: &mut P, memory: &Memory, address: u32)
    ensures { P.wrote writer.old writer.new (noted_text memory.now (instr_at memory.now address)) }
{
    match decode(memory, address) {
        Ok(instr) => write_with_notes(writer, memory, &instr),
        Err(_) => writer.write(b"?"),
    }
}

/// Writes the line of an address with notes.
pub(crate) fn write_noted_line<P: LineWriter>(writer: &mut P, memory: &Memory, address: u32)
    ensures { P.wrote writer.old writer.new (noted_line memory.now address) }
{
    write_address(writer, b"", address);
    writer.write(b" ");
    write_noted(writer, memory, address);
}

/// Gives what stands at addresses.
fn list_instructions<F: FactWriter>(facts: &mut F, addresses: &[u32])
    ensures { F.wrote facts.old facts.new (map Fact.Instruction addresses.now) }
{
    for address in addresses {
        facts.write(Fact::Instruction(*address));
    }
}

/// Gives routines.
fn list_routines<F: FactWriter>(facts: &mut F, routines: &[u32])
    ensures { F.wrote facts.old facts.new (map Fact.Routine routines.now) }
{
    for routine in routines {
        facts.write(Fact::Routine(*routine));
    }
}

/// Gives a story's code.
#[tactic(auto, unfolding(crate::specs::Listing::code_facts))]
pub(crate) fn list_code<F: FactWriter>(code: &Code, facts: &mut F)
    ensures { F.wrote facts.old facts.new (code_facts code.now) }
{
    list_instructions(facts, code.addresses.as_slice());
    list_routines(facts, code.routines.as_slice());
}

/// Gives the routines of a whole story.
fn list_lying_routines<F: FactWriter>(whole: &Whole, facts: &mut F)
    ensures { F.wrote facts.old facts.new
        (map (lying_routine whole.now.reached) whole.now.code.routines) }
{
    let routines = whole.code.routines.as_slice();
    for routine in routines {
        let reached = whole.reached.is_marked(*routine);
        facts.write(Fact::LyingRoutine(*routine, reached));
    }
}

/// Gives the code of a whole story.
#[tactic(auto, unfolding(crate::specs::Listing::whole_facts))]
pub(crate) fn list_whole_code<F: FactWriter>(whole: &Whole, facts: &mut F)
    ensures { F.wrote facts.old facts.new (whole_facts whole.now) }
{
    list_instructions(facts, whole.code.addresses.as_slice());
    list_lying_routines(whole, facts);
}
