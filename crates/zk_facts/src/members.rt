// The members of facts, with their names.

use crate::objects::object_of;
use crate::outcome::{Facts, Outcome};
use crate::texts::Text;
use crate::values::{Member, Value};
use std::alloc::AllocError;
use zk_inspect::check::finding::Finding;
use zk_inspect::fact::{Fact, Field, Node, Word};
use zk_inspect::listing::extension_lines::extension_place;
use zk_inspect::listing::global_lines::global_place;
use zk_inspect::listing::header_lines::{Value as FieldValue, value_of};
use zk_inspect::listing::object_lines::number_or_none;
use zk_inspect::section::Section;
use zk_inspect::texts::packed;
use zk_mem::fault::Fault;
use zk_mem::memory::Memory;
use zk_tables::dictionary::Dictionary;
use zk_tables::lists::Property;
use zk_tables::tree::{child, parent, sibling};
use zk_text::alphabet::Row;

/// What facts stand in.
#[derive(Clone, Copy, Drop)]
pub(crate) enum Group {
    Section(Section),
    Findings,
}

impl Group {
    /// The group's name.
    pub(crate) fn name(self) -> &'static str {
        match self {
            Group::Section(section) => section.name(),
            Group::Findings => "findings",
        }
    }
}

/// How a fact stands in its group.
#[derive(Clone, Copy, Drop)]
pub(crate) enum Shape {
    /// By itself.
    Object,
    /// Its members are those of the group.
    Members,
    /// Its members are those of the group, and words come after them.
    BeforeWords,
    /// Its members are those of the group, and the name of the first tells it from others.
    Field,
    /// Its one member is the group.
    Whole,
}

/// Takes the members of facts.
pub(crate) trait MemberWriter {
    /// Takes the beginning of a group.
    fn begin(&mut self, group: Group) -> Result<(), AllocError>;

    /// Takes a fact of a kind.
    fn fact(&mut self, kind: &str, shape: Shape, members: &[Member<'_>]) -> Result<(), AllocError>;

    /// Takes the end of a group.
    fn end(&mut self, group: Group) -> Result<(), AllocError>;
}

fn member<'a>(name: &'static str, value: Value<'a>) -> Member<'a> {
    Member { name, value }
}

fn number<'a>(name: &'static str, number: u64) -> Member<'a> {
    member(name, Value::Number(number))
}

fn address<'a>(address: u32) -> Member<'a> {
    member("address", Value::Address(address))
}

fn fault<'a>(fault: Fault) -> Member<'a> {
    member("fault", Value::Fault(fault))
}

/// Gives a field of the header; after the checksum comes whether it is right.
fn give_field<W: MemberWriter>(
    out: &mut W,
    memory: &Memory,
    field: Field,
) -> Result<(), AllocError> {
    let value = match value_of(memory, field) {
        FieldValue::Number(number) => Value::Number(number as u64),
        FieldValue::Address(address) => Value::Address(address as u32),
        FieldValue::Word(word) => Value::Word(word),
        FieldValue::Byte(byte) => Value::Byte(byte),
        FieldValue::Serial(serial) => Value::Serial(serial),
        FieldValue::Checksum(sum, right) => {
            let members = [
                member(field.name(), Value::Word(sum)),
                member("checksum_ok", Value::Verdict(right)),
            ];
            return out.fact("header", Shape::Field, &members);
        }
    };
    out.fact("header", Shape::Field, &[member(field.name(), value)])
}

/// Gives an object.
fn give_object<W: MemberWriter>(
    out: &mut W,
    memory: &Memory,
    object: u16,
) -> Result<(), AllocError> {
    let members = [
        number("number", object as u64),
        member("name", Value::Text(memory, Text::Name(object))),
        number("parent", number_or_none(parent(memory, object)) as u64),
        number("sibling", number_or_none(sibling(memory, object)) as u64),
        number("child", number_or_none(child(memory, object)) as u64),
        member("attributes", Value::Attributes(memory, object)),
        member("properties", Value::Properties(memory, object)),
    ];
    out.fact("object", Shape::Object, &members)
}

/// Gives an object of the tree.
fn give_node<W: MemberWriter>(out: &mut W, memory: &Memory, node: Node) -> Result<(), AllocError> {
    let last = if node.again {
        member("again", Value::Again)
    } else {
        member("name", Value::Text(memory, Text::Name(node.object)))
    };
    let members = [
        number("depth", node.level as u64),
        number("number", node.object as u64),
        last,
    ];
    out.fact("tree", Shape::Object, &members)
}

/// Gives how many words a dictionary has, and how many bytes each.
fn give_entries<W: MemberWriter>(out: &mut W, dictionary: &Dictionary) -> Result<(), AllocError> {
    let members = [
        number("entries", dictionary.entries as u64),
        number("length", dictionary.entry_length as u64),
    ];
    out.fact("entries", Shape::BeforeWords, &members)
}

/// Gives a word of the dictionary.
fn give_word<W: MemberWriter>(out: &mut W, memory: &Memory, word: Word) -> Result<(), AllocError> {
    let members = [
        number("index", word.index as u64),
        address(word.address),
        member("word", Value::Text(memory, Text::Key(word.address))),
    ];
    out.fact("word", Shape::Object, &members)
}

/// Gives a text that lies in the story, by its byte address and its packed address.
fn give_text<W: MemberWriter>(out: &mut W, memory: &Memory, place: u32) -> Result<(), AllocError> {
    let members = [
        address(place),
        member(
            "packed",
            Value::Word((packed(memory, place) & 0xffff) as u16),
        ),
        member("text", Value::Text(memory, Text::At(place))),
    ];
    out.fact("string", Shape::Object, &members)
}

/// Gives a property of an object.
fn give_property<W: MemberWriter>(
    out: &mut W,
    memory: &Memory,
    object: u16,
    property: Property,
) -> Result<(), AllocError> {
    let members = [
        number("object", object as u64),
        number("number", property.number as u64),
        address(property.address),
        number("length", property.length as u64),
        member("bytes", Value::Bytes(memory, property)),
    ];
    out.fact("property", Shape::Object, &members)
}

/// Gives a word of memory by a number: its value, or why it can't be read.
fn give_value<W: MemberWriter>(
    out: &mut W,
    memory: &Memory,
    kind: &str,
    of: u64,
    place: u32,
) -> Result<(), AllocError> {
    let last = match memory.word(place) {
        Ok(word) => member("value", Value::Word(word)),
        Err(why) => fault(why),
    };
    out.fact(
        kind,
        Shape::Object,
        &[number("number", of), address(place), last],
    )
}

/// Gives the letters of an alphabet, or the extra characters.
fn give_letters<W: MemberWriter>(
    out: &mut W,
    memory: &Memory,
    name: &'static str,
    text: Text,
) -> Result<(), AllocError> {
    let members = [
        member("name", Value::Words(name)),
        member("characters", Value::Text(memory, text)),
    ];
    out.fact("alphabet", Shape::Object, &members)
}

/// Gives a finding, with the number of the object that it is about, where it is about one.
fn give_finding<W: MemberWriter>(
    out: &mut W,
    memory: &Memory,
    finding: Finding,
) -> Result<(), AllocError> {
    let object = match object_of(memory, finding) {
        Some(object) => Value::Number(object as u64),
        None => Value::Unknown,
    };
    let members = [
        member("finding", Value::Finding(finding.number)),
        address(finding.address),
        member("object", object),
        member("words", Value::Words(finding.number.words())),
    ];
    out.fact("finding", Shape::Object, &members)
}

/// The name of an alphabet.
fn alphabet_name(row: Row) -> &'static str {
    match row {
        Row::A0 => "A0",
        Row::A1 => "A1",
        Row::A2 => "A2",
    }
}

/// Gives the members of a fact. The title of a section has none.
fn give_fact<W: MemberWriter>(out: &mut W, memory: &Memory, fact: Fact) -> Result<(), AllocError> {
    match fact {
        Fact::Title(_) => Ok(()),
        Fact::Field(field) => give_field(out, memory, field),
        Fact::Part(place) => {
            let name = member("name", Value::Words(place.part.name()));
            out.fact("map", Shape::Object, &[address(place.address as u32), name])
        }
        Fact::Abbreviation(of) => {
            let text = member("text", Value::Text(memory, Text::Abbreviation(of)));
            out.fact(
                "abbreviation",
                Shape::Object,
                &[number("number", of as u64), text],
            )
        }
        Fact::Separators(dictionary) => {
            let text = Value::Text(memory, Text::Separators(dictionary));
            out.fact("separators", Shape::Members, &[member("separators", text)])
        }
        Fact::Entries(dictionary) => give_entries(out, &dictionary),
        Fact::Word(word) => give_word(out, memory, word),
        Fact::NoDictionary(why) => out.fact("dictionary", Shape::Members, &[fault(why)]),
        Fact::Object(object) => give_object(out, memory, object),
        Fact::Node(node) => give_node(out, memory, node),
        Fact::Ifid => out.fact("ifid", Shape::Whole, &[member("ifid", Value::Ifid(memory))]),
        Fact::Text(place) => give_text(out, memory, place),
        Fact::Property(object, property) => give_property(out, memory, object, property),
        Fact::NoProperties(object, why) => {
            let members = [number("object", object as u64), fault(why)];
            out.fact("property", Shape::Object, &members)
        }
        Fact::Global(of) => {
            give_value(out, memory, "global", of as u64, global_place(memory, of))
        }
        Fact::Alphabet(row) => give_letters(out, memory, alphabet_name(row), Text::Letters(row)),
        Fact::ExtraCharacters => give_letters(out, memory, "extra", Text::Extra),
        Fact::ExtensionWord(of) => {
            give_value(
                out,
                memory,
                "extension",
                of as u64,
                extension_place(memory, of),
            )
        }
        Fact::Instruction(place) => out.fact("instruction", Shape::Object, &[address(place)]),
        Fact::Routine(place) | Fact::LyingRoutine(place, _) => {
            out.fact("routine", Shape::Object, &[address(place)])
        }
        Fact::Finding(finding) => give_finding(out, memory, finding),
    }
}

/// Gives the facts of sections, each from its title on.
fn give_sections<W: MemberWriter>(out: &mut W, facts: Facts<'_>) -> Result<(), AllocError> {
    let mut open = None;
    for fact in facts.list {
        if let Fact::Title(section) = *fact {
            if let Some(before) = open {
                out.end(before)?;
            }
            let group = Group::Section(section);
            out.begin(group)?;
            open = Some(group);
        }
        give_fact(out, facts.memory, *fact)?;
    }
    match open {
        Some(last) => out.end(last),
        None => Ok(()),
    }
}

/// Gives findings.
fn give_findings<W: MemberWriter>(out: &mut W, facts: Facts<'_>) -> Result<(), AllocError> {
    out.begin(Group::Findings)?;
    for fact in facts.list {
        give_fact(out, facts.memory, *fact)?;
    }
    out.end(Group::Findings)
}

/// Gives what came of a look at a story: the facts of a listing, or that there is none.
pub(crate) fn give<W: MemberWriter>(out: &mut W, outcome: Outcome<'_>) -> Result<(), AllocError> {
    match outcome {
        Outcome::Listed(facts) => give_sections(out, facts),
        Outcome::Checked(facts) => give_findings(out, facts),
        Outcome::Refused(of, why) => out.fact(
            "refused",
            Shape::Members,
            &[
                number("refused", of as u64),
                member("why", Value::Words(why)),
            ],
        ),
        Outcome::Unread(words) => {
            out.fact(
                "unread",
                Shape::Members,
                &[member("unread", Value::Words(words))],
            )
        }
    }
}
