// Where code is looked for, by the command line.

ghost use Rattle.std.specs.Prelude.{◌≡◌, SomeIff};
ghost use Rattle.zk_command.specs.CommandLine.{IsNumberIn, number_in};

use crate::cover::{Covered, covered_in};
use crate::sources::is_source_path;
use crate::told::out_of_memory;
use std::alloc::{AllocError, Global};
use zk_command::settings::Roots;
use zk_names::names::{Names, Routine};
use zk_names::text::plain_text;
use zk_notes::graph::Around;
use zk_system::shown::Shown;

/// Where code is looked for beside the first instruction.
#[derive(Drop)]
pub struct CodeRoots<'a> {
    /// The byte addresses of instructions: those that are named, and those that ran.
    pub addresses: Vec<u32>,
    /// The byte addresses of routines.
    pub routines: Vec<u32>,
    /// The byte addresses of the routines and instructions that are named.
    pub named: Vec<u32>,
    /// What ran, where a coverage file is named.
    pub covered: Option<Covered<'a>>,
}

/// Adds an address, or answers the program's status where there is no memory.
fn push(rt: &HostRuntime, addresses: &mut Vec<u32>, address: u32) -> Result<(), u8> {
    match addresses.push(address) {
        Ok(()) => Ok(()),
        Err(_) => Err(out_of_memory(rt)),
    }
}

/// The address that a text says in hexadecimal digits.
fn address_in(text: &str) -> Option<u32> {
    u32::from_str_radix(text, 16).ok()
}

/// The routine of a name; in any case of letters, as in Inform's source, where none is spelled so.
fn routine_of_name<'n>(names: &Names<'n>, name: &[u8]) -> Option<Routine<'n>> {
    match names.routine_named(name) {
        Some(routine) => Some(routine),
        None => names
            .routines
            .iter()
            .copied()
            .find(|routine| routine.name.eq_ignore_ascii_case(name)),
    }
}

/// The byte address of the routine that a text names: by its name, where there are names, or by its address.
fn routine_in(text: &str, names: Option<&Names<'_>>) -> Option<u32> {
    match names.and_then(|names| routine_of_name(names, text.as_bytes())) {
        Some(routine) => Some(routine.address),
        None => address_in(text),
    }
}

/// The file and the line that a text names, as `cave.inf:14` or `./cave.inf:14`.
fn place_in(text: &str) -> Option<(&str, u32)> {
    let (file, line) = text.rsplit_once(':')?;
    let file = file.strip_prefix("./").unwrap_or(file);
    Some((file, line.parse::<u32>().ok()?))
}

/// The byte address of the code of a line of the source.
fn address_on(
    alloc: Global,
    names: &Names<'_>,
    file: &str,
    line: u32,
) -> Result<Option<u32>, AllocError> {
    for source in &names.sources {
        let given = plain_text(alloc, source.given)?;
        if is_source_path(given.as_bytes(), file.as_bytes()) {
            if let Some(address) = names.address_on(source.index, line) {
                return Ok(Some(address));
            }
        }
    }
    Ok(None)
}

/// The byte address of the instruction that a text names: by its line of the source, where there are names, or by its
/// address.
fn instruction_in(
    alloc: Global,
    text: &str,
    names: Option<&Names<'_>>,
) -> Result<Option<u32>, AllocError> {
    match (names, place_in(text)) {
        (Some(names), Some((file, line))) => address_on(alloc, names, file, line),
        _ => Ok(address_in(text)),
    }
}

/// The address that a text names, or the program's status, where it is told that it names none.
fn found_or_told(rt: &HostRuntime, found: Option<u32>, text: &str, kind: &str) -> Result<u32, u8> {
    match found {
        Some(address) => Ok(address),
        None => {
            let _ = eprintln!(rt; "zkit: '{}' is not {kind}", Shown(text));
            Err(1)
        }
    }
}

impl CodeRoots<'_> {
    /// Adds an instruction that is named.
    fn add_instruction(
        &mut self,
        rt: &HostRuntime,
        text: &str,
        names: Option<&Names<'_>>,
    ) -> Result<(), u8> {
        let kind = if names.is_some() {
            "a line of the source with code, nor a hexadecimal address"
        } else {
            "a hexadecimal address"
        };
        let Ok(found) = instruction_in(rt.alloc(), text, names) else {
            return Err(out_of_memory(rt));
        };
        let address = found_or_told(rt, found, text, kind)?;
        push(rt, &mut self.addresses, address)?;
        push(rt, &mut self.named, address)
    }

    /// Adds a routine that is named.
    fn add_routine(
        &mut self,
        rt: &HostRuntime,
        text: &str,
        names: Option<&Names<'_>>,
    ) -> Result<u32, u8> {
        let kind = if names.is_some() {
            "the name of a routine, nor a hexadecimal address"
        } else {
            "a hexadecimal address"
        };
        let address = found_or_told(rt, routine_in(text, names), text, kind)?;
        push(rt, &mut self.routines, address)?;
        push(rt, &mut self.named, address)?;
        Ok(address)
    }
}

/// The byte addresses of the routines that a debugging file has, if there is one.
pub(crate) fn named_routines(
    alloc: Global,
    names: Option<&Names<'_>>,
) -> Result<Vec<u32>, AllocError> {
    let mut addresses = Vec::new(alloc);
    let Some(names) = names else {
        return Ok(addresses);
    };
    for routine in &names.routines {
        addresses.push(routine.address)?;
    }
    Ok(addresses)
}

/// Where code is looked for by the options of `disasm`, and in all routines that names have; or the program's status,
/// where it is told what is wrong.
pub fn code_roots<'a>(
    rt: &HostRuntime,
    roots: &Roots<'a>,
    names: Option<&Names<'_>>,
) -> Result<CodeRoots<'a>, u8> {
    let Ok(routines) = named_routines(rt.alloc(), names) else {
        return Err(out_of_memory(rt));
    };
    let mut found = CodeRoots {
        addresses: Vec::new(rt.alloc()),
        routines,
        named: Vec::new(rt.alloc()),
        covered: None,
    };
    for text in &roots.at {
        found.add_instruction(rt, text, names)?;
    }
    for text in &roots.routines {
        found.add_routine(rt, text, names)?;
    }
    let Some(path) = roots.cover else {
        return Ok(found);
    };
    let covered = covered_in(rt, path)?;
    match found
        .addresses
        .extend_from_slice(covered.addresses.as_slice())
    {
        Ok(()) => Ok(CodeRoots {
            covered: Some(covered),
            ..found
        }),
        Err(_) => Err(out_of_memory(rt)),
    }
}

/// How many calls a text says, 1 to 99.
fn depth_in(text: &str) -> Option<u8>
    ensures { SomeIff result (IsNumberIn 1 99 text.now) (number_in text.now) }
{
    match text.parse::<u64>() {
        Ok(depth) if depth >= 1 && depth <= 99 => Some(depth as u8),
        _ => None,
    }
}

/// Which calls a graph shows by the options of `disasm`, or the program's status, where it is told what is wrong. Code
/// is looked for in the routine as well.
pub fn around_by(
    rt: &HostRuntime,
    around: Option<&str>,
    depth: Option<&str>,
    names: Option<&Names<'_>>,
    roots: &mut CodeRoots<'_>,
) -> Result<Option<Around>, u8> {
    let Some(text) = around else {
        return Ok(None);
    };
    let routine = roots.add_routine(rt, text, names)?;
    let Some(depth) = depth_in(depth.unwrap_or("1")) else {
        let _ = eprintln!(rt; "zkit: '--depth <n>' takes a number from 1 to 99");
        return Err(1);
    };
    Ok(Some(Around { routine, depth }))
}
