// What the Standard lets pass and an author hardly means, in words.

use crate::roots::named_routines;
use std::alloc::{AllocError, Global};
use zk_inspect::fact::{Fact, FactList};
use zk_inspect::listing::list_reached;
use zk_mem::memory::Memory;
use zk_named::places::{name_text, source_text};
use zk_names::named::{Array, Kind};
use zk_names::names::Names;
use zk_strict::misuse::{Extent, Misuse, Outside, misuse_at};

/// Where the arrays lie that names have, in their order.
pub(crate) fn extents_of(
    alloc: Global,
    names: Option<&Names<'_>>,
) -> Result<Vec<Extent>, AllocError> {
    let mut extents = Vec::new(alloc);
    let Some(names) = names else {
        return Ok(extents);
    };
    for array in &names.arrays {
        extents.push(Extent {
            address: array.address,
            length: array.length,
        })?;
    }
    Ok(extents)
}

/// The index of the element of an array at a byte address, which is below 0 before the array.
fn index_of(array: &Array<'_>, address: u32) -> i64 {
    let distance = address as i64 - array.address as i64;
    distance.div_euclid((array.element as i64).max(1))
}

/// An access outside of an array: `reads few-->9, but few ends with few-->3`.
fn outside_text(
    alloc: Global,
    names: &Names<'_>,
    verb: &str,
    outside: Outside,
) -> Result<String, AllocError> {
    let Some(array) = names.arrays.get(outside.array) else {
        return format!(in alloc; "{verb} {:05x}, outside of an array", outside.address);
    };
    let name = name_text(alloc, array.name)?;
    let arrow = if array.element == 2 { "-->" } else { "->" };
    let index = index_of(array, outside.address);
    let end = index_of(array, array.address.saturating_add(array.length));
    let last = end.saturating_sub(1);
    let at = format!(in alloc; "{verb} {name}{arrow}{index}")?;
    if index < 0 {
        format!(in alloc; "{at}, but {name} begins with {name}{arrow}0")
    } else if index > last {
        format!(in alloc; "{at}, but {name} ends with {name}{arrow}{last}")
    } else {
        // a word that only begins in the array, or lies between two elements of it
        format!(in alloc; "{at} and a byte behind it, but {name} ends with {name}{arrow}{last}")
    }
}

/// An object by its name or its number.
fn object_text(
    alloc: Global,
    names: Option<&Names<'_>>,
    object: u16,
) -> Result<String, AllocError> {
    match names.and_then(|names| names.named(Kind::Object, object as u32)) {
        Some(named) => name_text(alloc, named.name),
        None => format!(in alloc; "object {object}"),
    }
}

/// What an instruction does, in words.
pub(crate) fn misuse_text(
    alloc: Global,
    names: Option<&Names<'_>>,
    misuse: Misuse,
) -> Result<String, AllocError> {
    match (misuse, names) {
        (Misuse::Read(outside), Some(names)) => outside_text(alloc, names, "reads", outside),
        (Misuse::Written(outside), Some(names)) => outside_text(alloc, names, "writes", outside),
        (Misuse::Read(_) | Misuse::Written(_), None) => {
            String::from_str(alloc, "accesses an array outside its bounds")
        }
        (Misuse::CallOfZero, _) => String::from_str(alloc, "calls routine 0"),
        (Misuse::IntoItself(object), _) => {
            let object = object_text(alloc, names, object)?;
            format!(in alloc; "moves {object} into itself")
        }
    }
}

/// The lines on what the code of a story does by its constants that an author hardly means.
pub(crate) fn misuse_lines(
    alloc: Global,
    memory: &Memory,
    names: &Names<'_>,
) -> Result<Vec<u8>, AllocError> {
    let extents = extents_of(alloc, Some(names))?;
    let mut facts = FactList::new(alloc);
    let routines = named_routines(alloc, Some(names))?;
    list_reached(alloc, memory, &[], routines.as_slice(), &mut facts)?;
    let mut lines = Vec::new(alloc);
    for fact in &facts.finish()? {
        let Fact::Instruction(address) = *fact else {
            continue;
        };
        if let Some(misuse) = misuse_at(memory, extents.as_slice(), address) {
            let text = misuse_text(alloc, Some(names), misuse)?;
            let place = source_text(alloc, names, address)?;
            let line = format!(in alloc; "{address:05x} {text}  ; {place}\n")?;
            lines.extend_from_slice(line.as_bytes())?;
        }
    }
    Ok(lines)
}
