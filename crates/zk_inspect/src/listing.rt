// The facts of a story, section by section, and its code.

ghost use Rattle.std.specs.Prelude.{◌≡◌, is_err};
ghost use Rattle.zk_inspect.specs.CodeFacts.{AreReachedFacts, AreWholeFacts};
ghost use Rattle.zk_inspect.specs.Facts.{AreNone, GaveBy};
ghost use Rattle.zk_inspect.specs.SectionFacts.{AreOfSection, AreSomeOfSection};

pub mod abbreviation_lines;
pub(crate) mod alphabet_lines;
pub mod dictionary_lines;
pub mod extension_lines;
pub mod global_lines;
pub mod header_lines;
pub mod ifid_line;
pub(crate) mod map_lines;
pub mod object_lines;
pub(crate) mod property_lines;
pub(crate) mod quoting;
pub(crate) mod reading;
pub(crate) mod shortening;
pub(crate) mod tree_lines;
pub(crate) mod writing;

use crate::fact::{Fact, FactWriter};
use crate::listing::abbreviation_lines::list_abbreviations;
use crate::listing::alphabet_lines::list_alphabets;
use crate::listing::dictionary_lines::list_dictionary;
use crate::listing::extension_lines::list_extension;
use crate::listing::global_lines::list_globals;
use crate::listing::header_lines::list_header;
use crate::listing::map_lines::list_map;
use crate::listing::object_lines::list_objects;
use crate::listing::property_lines::list_properties;
use crate::listing::tree_lines::list_tree;
use crate::reach::disassembly::{list_code, list_whole_code};
use crate::section::Section;
use crate::texts::list_texts;
use crate::whole::{find_whole, reach_named};
use std::alloc::{AllocError, Global};
use zk_mem::memory::Memory;

/// Gives the facts of a section, in the order of their numbers or addresses:
///
/// - of the header each field (Z-Machine Standards Document 1.1, section 11.1), with the file's length, and whether the
/// checksum
///   is right;
/// - of the map where the parts of the story begin by its header; those of one address stay in the order abbreviations,
///   globals, objects, dictionary, static, high, start (section 1.1);
/// - the 96 abbreviations (section 3.3), where the header names a table of them;
/// - of the dictionary that the header names the separators, the size and each word (section 13), or why there is none;
/// - the objects from 1 on, up to the first whose entry does not lie in data, or does not begin below the property
/// table of
///   each object before it (section 12.3); there are none where the header names no table;
/// - of the tree each object that has no parent, and below it its children; an object that was listed before is not
/// followed, nor
///   is a link to an object that is not listed;
/// - what catalogues name the story by (Treaty of Babel): the first name in its file, between `UUID://` and `//`, of 8
/// to 63
/// letters, digits and hyphens; or else `ZCODE`, the release, the serial number and, for a serial number of 1990 or
/// later,
///   the checksum;
/// - the texts that lie in the story by its code and the routines that lie beside;
/// - each property of each object, with its data, or why an object has no list of them (section 12.4);
/// - the 240 global variables with their first values (section 6.2), where the header names a table of them;
/// - the three alphabets in force, and the extra characters (sections 3.5 and 3.8.5);
/// - the words of the header's extension (section 11.1.7), where the header names one.
///
/// Refused for lack of memory alone; then it gives some rows of the tree, and of other sections nothing.
pub fn list_section<F: FactWriter>(
    alloc: Global,
    memory: &Memory,
    section: Section,
    facts: &mut F,
) -> Result<(), AllocError>
    ensures { GaveBy (is_err result) (AreOfSection section memory.now) (AreSomeOfSection section memory.now)
        F.wrote facts.old facts.new }
{
    match section {
        Section::Header => list_header(memory, facts),
        Section::Map => list_map(memory, facts),
        Section::Abbreviations => list_abbreviations(memory, facts),
        Section::Dictionary => list_dictionary(memory, facts),
        Section::Objects => list_objects(memory, facts),
        Section::Tree => return list_tree(alloc, memory, facts),
        Section::Ifid => facts.write(Fact::Ifid),
        Section::Strings => return list_texts(alloc, memory, facts),
        Section::Properties => return list_properties(alloc, memory, facts),
        Section::Globals => list_globals(memory, facts),
        Section::Alphabets => list_alphabets(facts),
        Section::Extension => list_extension(memory, facts),
    }
    Ok(())
}

/// Gives the code of a story, as `reach_named` has it: what stands at each address, ascending, and then each routine.
/// It gives nothing where it is refused, for lack of memory.
pub fn list_reached<F: FactWriter>(
    alloc: Global,
    memory: &Memory,
    addresses: &[u32],
    routines: &[u32],
    facts: &mut F,
) -> Result<(), AllocError>
    ensures { GaveBy (is_err result) (AreReachedFacts memory.now addresses.now routines.now) AreNone
        F.wrote facts.old facts.new }
{
    let code = reach_named(alloc, memory, addresses, routines)?;
    list_code(&code, facts);
    Ok(())
}

/// Gives the code that lies in a story, as `find_whole` has it: what stands at each address, ascending, and then each
/// routine, with whether it is reached. It gives nothing where it is refused, for lack of memory.
pub fn list_whole<F: FactWriter>(
    alloc: Global,
    memory: &Memory,
    addresses: &[u32],
    routines: &[u32],
    facts: &mut F,
) -> Result<(), AllocError>
    ensures { GaveBy (is_err result) (AreWholeFacts memory.now addresses.now routines.now) AreNone
        F.wrote facts.old facts.new }
{
    let whole = find_whole(alloc, memory, addresses, routines)?;
    list_whole_code(&whole, facts);
    Ok(())
}
