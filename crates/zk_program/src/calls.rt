// The calls that led to where a story stopped, in words.

ghost use Rattle.std.specs.Prelude.{◌≡◌};
ghost use Rattle.zk_program.specs.Calls.{is_told};

use std::alloc::{AllocError, Global};
use zk_named::places::{locals_text as named_locals_text, source_text};
use zk_names::names::Names;
use zk_vm::machine::Machine;
use zk_vm::machine::calls::OpenRoutine;

/// So many routines are told at most.
const MOST_ROUTINES: u16 = 16;

/// Local variables, by their values.
fn locals_text(alloc: Global, locals: &[u16]) -> Result<String, AllocError> {
    let mut text = String::new(alloc);
    for (index, value) in locals.iter().enumerate() {
        let before = if index == 0 { " with" } else { "" };
        text.push_str(format!(in alloc; "{before} {value:04x}")?.as_str())?;
    }
    Ok(text)
}

/// A routine, with its local variables and the call that began it.
fn routine_text(alloc: Global, routine: &OpenRoutine) -> Result<String, AllocError> {
    let locals = locals_text(alloc, routine.locals)?;
    let name = match routine.routine {
        Some(address) => format!(in alloc; "in routine {address:05x}{locals}"),
        None => format!(in alloc; "in a routine{locals}"),
    }?;
    match routine.call {
        Some(address) => format!(in alloc; "{name}, called at {address:05x}"),
        None => format!(in alloc; "{name}, which returns to {:05x}", routine.goes_on),
    }
}

/// Adds the routines that are open, the innermost first: each in a line of its own, after the end of the one before.
fn add_routines(alloc: Global, machine: &Machine, text: &mut String) -> Result<(), AllocError> {
    let depth = machine.depth();
    for k in 0..depth.min(MOST_ROUTINES) {
        let routine = machine.open_routine(depth - k);
        text.push_str("\nzkit: ")?;
        text.push_str(routine_text(alloc, &routine)?.as_str())?;
    }
    if depth > MOST_ROUTINES {
        let more = depth - MOST_ROUTINES;
        text.push_str(format!(in alloc; "\nzkit: and in {more} more")?.as_str())?;
    }
    Ok(())
}

/// The address at which a routine stands that another one was called from, by what is known of the other one.
fn caller_address(called: &OpenRoutine) -> u32 {
    called.call.unwrap_or(called.goes_on)
}

/// A routine by its names, which stands at an address, with the place that it was called from, unless it is the
/// story's first one.
fn named_routine_text(
    alloc: Global,
    names: &Names<'_>,
    routine: &OpenRoutine,
    address: u32,
    is_first: bool,
) -> Result<String, AllocError> {
    let place = source_text(alloc, names, address)?;
    let locals = named_locals_text(alloc, names, address, routine.locals)?;
    if is_first {
        return format!(in alloc; "{place}{locals}");
    }
    let caller = source_text(alloc, names, caller_address(routine))?;
    format!(in alloc; "{place}{locals}, called from {caller}")
}

/// Which of the routines that are open are told by their names, of so many: the innermost ones and the first ones.
fn is_told(number: u16, depth: u16) -> bool
    ensures { result ≡ is_told number depth }
{
    depth <= MOST_ROUTINES
        || number < MOST_ROUTINES / 2
        || depth.saturating_sub(number) <= MOST_ROUTINES / 2
}

/// Adds the routines that are open by their names, the innermost first, which stands at an address.
fn add_named(
    alloc: Global,
    machine: &Machine,
    names: &Names<'_>,
    address: u32,
    text: &mut String,
) -> Result<(), AllocError> {
    let depth = machine.depth();
    let mut address = address;
    for number in 0..depth {
        let routine = machine.open_routine(depth - number);
        if is_told(number, depth) {
            let is_first = number + 1 == depth;
            let line = named_routine_text(alloc, names, &routine, address, is_first)?;
            text.push_str("\nzkit: ")?;
            text.push_str(line.as_str())?;
        } else if number == MOST_ROUTINES / 2 {
            let more = depth - MOST_ROUTINES;
            text.push_str(format!(in alloc; "\nzkit: and in {more} more")?.as_str())?;
        }
        address = caller_address(&routine);
    }
    Ok(())
}

/// The turn that a machine is in, and the routines that are open, each in a line of its own; by their names where there
/// are names. The innermost one stands at an address.
pub(crate) fn calls_text(
    alloc: Global,
    machine: &Machine,
    names: Option<&Names<'_>>,
    address: u32,
) -> Result<String, AllocError> {
    let reads = machine.place().reads;
    let mut text = format!(in alloc;
        "\nzkit: in turn {}, after command {reads}",
        reads.saturating_add(1)
    )?;
    match names {
        Some(names) => add_named(alloc, machine, names, address, &mut text)?,
        None => add_routines(alloc, machine, &mut text)?,
    }
    Ok(text)
}
