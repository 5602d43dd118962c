// What instructions print.

ghost use Rattle.std.specs.Prelude.{◌≡◌, IfOk};
ghost use Rattle.zk_step.specs.Printing.{printing, prints_text, prints_line, prints_inline, IsPrintable};

use crate::state::ending::{Effect, Ending, Output};
use crate::state::values::Values;
use zk_code::opcode::Printing;
use zk_mem::fault::Fault;
use zk_mem::header::unpack;
use zk_mem::memory::Memory;
use zk_tables::properties::name;
use zk_text::text::check_text;

fn print_at(memory: &Memory, address: u32) -> Result<Effect, Fault>
    ensures value { result ≡ prints_text memory.now address }
    ensures ready { IfOk result (λ e. IsPrintable memory.now memory.now e.output e.ending) }
{
    check_text(memory, address)?;
    Ok(Effect::prints(Output::Text(address)))
}

fn print_inline(memory: &Memory, text: Option<u32>) -> Result<Effect, Fault>
    ensures value { result ≡ prints_inline memory.now text }
    ensures ready { IfOk result (λ e. IsPrintable memory.now memory.now e.output e.ending) }
{
    match text {
        Some(address) => print_at(memory, address),
        None => Ok(Effect::prints(Output::Nothing)),
    }
}

fn print_line(memory: &Memory, text: Option<u32>) -> Result<Effect, Fault>
    ensures value { result ≡ prints_line memory.now text }
    ensures ready { IfOk result (λ e. IsPrintable memory.now memory.now e.output e.ending) }
{
    let Some(address) = text else {
        return Ok(Effect::ends(Ending::Return(1)));
    };
    check_text(memory, address)?;
    Ok(Effect {
        output: Output::Line(address),
        ending: Ending::Return(1),
    })
}

/// The effect of an opcode that prints. Texts are checked before anything is shown.
#[tactic(auto, unfolding(crate::specs::Printing::printing))]
pub fn printing_effect(
    operation: Printing,
    memory: &Memory,
    text: Option<u32>,
    values: &Values,
) -> Result<Effect, Fault>
    ensures value { result ≡ printing operation memory.now text values.now }
    ensures ready { IfOk result (λ e. IsPrintable memory.now memory.now e.output e.ending) }
{
    let first = values.first();
    match operation {
        Printing::Print => print_inline(memory, text),
        Printing::PrintRet => print_line(memory, text),
        Printing::NewLine => Ok(Effect::prints(Output::Code(13))),
        Printing::PrintNum => Ok(Effect::prints(Output::Number(first))),
        // an operand past 255 is a code without a character: its low byte is not taken
        Printing::PrintChar => Ok(Effect::prints(Output::Code(first))),
        Printing::PrintUnicode => Ok(Effect::prints(Output::Character(first))),
        Printing::PrintAddr => print_at(memory, first as u32),
        Printing::PrintPaddr => print_at(memory, unpack(memory.version(), first)),
        Printing::PrintObj => print_inline(memory, name(memory, first)?),
    }
}
