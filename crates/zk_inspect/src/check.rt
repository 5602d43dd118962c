// What is wrong with a story.

ghost use Rattle.std.specs.Prelude.{◌≡◌, ◌≤◌, ◌++◌, ◌^◌, IfOk, OnOk, map, nat_lt};
ghost use Rattle.std.specs.List.{filter};
ghost use Rattle.zk_code.specs.Ends.{KnowsEnds};
ghost use Rattle.zk_inspect.specs.Codes.{IsCodeOf};
ghost use Rattle.zk_inspect.specs.Findings.{AreFindings, Finds, at_address};
ghost use Rattle.zk_inspect.specs.Lists.{IsListOf};
ghost use Rattle.zk_inspect.specs.ObjectTests.{object_number};
ghost use Rattle.zk_inspect.specs.Parts.{Adds, AddsAll, AreParts};
ghost use Rattle.zk_inspect.specs.Tests.{branches_out, calls_low, calls_out, code_answer, code_number, instr_is_low};
ghost use Rattle.zk_inspect.specs.Tests.{instr_leads_out, is_low, is_outside, is_undecodable, jumps_out, leads_out};

pub mod finding;
pub mod finding_lines;
pub(crate) mod keys;
pub(crate) mod property_lists;
pub(crate) mod siblings;
pub(crate) mod text_faults;
pub(crate) mod texts;

use crate::check::finding::{Finding, NUMBERS, Number};
use crate::check::keys::{find_bad_dictionary, find_unordered};
use crate::check::text_faults::{FailingTexts, find_nested, find_past_end, list_failing};
use crate::check::texts::mark_all_texts;
use crate::objects::{Objects, Question, find_objects, list_objects};
use crate::reach::code::{Addresses, Code};
use crate::reach::reach;
use std::alloc::{AllocError, Global};
use zk_code::branch::{Branch, BranchTarget};
use zk_code::decode::decode_by;
use zk_code::ends::TextEnds;
use zk_code::instr::Instr;
use zk_code::routines::local_count;
use zk_mem::header::unpack;
use zk_mem::memory::Memory;

/// Where the checksum stands, if it is wrong.
fn find_wrong_checksum(alloc: Global, memory: &Memory) -> Result<Addresses, AllocError>
    ensures { IfOk result (IsListOf (Finds memory.now Number.Checksum)) }
{
    Addresses::only_if(alloc, !memory.checksum_ok(), 0x1c)
}

/// Where the length stands, if it is past the file's end.
fn find_length_past_end(alloc: Global, memory: &Memory) -> Result<Addresses, AllocError>
    ensures { IfOk result (IsListOf (Finds memory.now Number.Length)) }
{
    let stated = unpack(memory.version(), memory.header().file_length);
    Addresses::only_if(alloc, stated > memory.len(), 0x1a)
}

/// Whether there is no instruction at an address.
fn is_undecodable(memory: &Memory, ends: &TextEnds, address: u32) -> bool
    requires { KnowsEnds memory.now ends.now }
    ensures { result ≡ is_undecodable memory.now address }
{
    decode_by(memory, ends, address).is_err()
}

/// Whether a target lies outside the story.
fn is_outside(target: BranchTarget) -> bool
    ensures { result ≡ is_outside target }
{
    matches!(target, BranchTarget::Below(_) | BranchTarget::Past(_))
}

/// Whether a branch leads out of the story.
fn branches_out(branch: Option<Branch>) -> bool
    ensures { result ≡ branches_out branch }
{
    match branch {
        Some(branch) => is_outside(branch.target),
        None => false,
    }
}

/// Whether a jump leads out of the story.
fn jumps_out(target: Option<BranchTarget>) -> bool
    ensures { result ≡ jumps_out target }
{
    match target {
        Some(target) => is_outside(target),
        None => false,
    }
}

/// Whether a call is of no routine.
fn calls_out(memory: &Memory, routine: Option<u32>) -> bool
    ensures { result ≡ calls_out memory.now routine }
{
    match routine {
        Some(routine) => local_count(memory, routine).is_none(),
        None => false,
    }
}

/// Whether an instruction leads out of the story.
fn instr_leads_out(memory: &Memory, instr: &Instr) -> bool
    requires { instr.now.next ≤ 2 ^ 20 }
    ensures { result ≡ instr_leads_out memory.now instr.now }
{
    branches_out(instr.branch)
        || jumps_out(instr.constant_jump(memory))
        || calls_out(memory, instr.constant_call(memory))
}

/// Whether the instruction at an address leads out of the story.
fn leads_out(memory: &Memory, ends: &TextEnds, address: u32) -> bool
    requires { KnowsEnds memory.now ends.now }
    ensures { result ≡ leads_out memory.now address }
{
    match decode_by(memory, ends, address) {
        Ok(instr) => instr_leads_out(memory, &instr),
        Err(_) => false,
    }
}

/// Whether an address lies below the static base.
fn is_below_base(memory: &Memory, address: u32) -> bool
    ensures { result ≡ nat_lt address memory.now.static_base }
{
    memory.is_of_file();
    address < memory.header().static_base as u32
}

/// Whether a routine that is called lies below the static base.
fn calls_low(memory: &Memory, routine: Option<u32>) -> bool
    ensures { result ≡ calls_low memory.now routine }
{
    match routine {
        Some(routine) => is_below_base(memory, routine),
        None => false,
    }
}

/// Whether a run may rewrite what an instruction at an address does.
fn instr_is_low(memory: &Memory, address: u32, instr: &Instr) -> bool
    ensures { result ≡ instr_is_low memory.now address instr.now }
{
    is_below_base(memory, address) || calls_low(memory, instr.constant_call(memory))
}

/// Whether a run may rewrite what the instruction at an address does.
fn is_low(memory: &Memory, ends: &TextEnds, address: u32) -> bool
    requires { KnowsEnds memory.now ends.now }
    ensures { result ≡ is_low memory.now address }
{
    match decode_by(memory, ends, address) {
        Ok(instr) => instr_is_low(memory, address, &instr),
        Err(_) => false,
    }
}

/// What is asked of an address that is reached.
#[derive(Clone, Copy)]
enum CodeQuestion {
    /// Whether there is no instruction.
    Undecodable,
    /// Whether the instruction leads out of the story.
    LeadsOut,
    /// Whether a run may rewrite what the instruction does.
    Low,
}

/// The answer to a question.
fn code_answer(memory: &Memory, ends: &TextEnds, question: CodeQuestion, address: u32) -> bool
    requires { KnowsEnds memory.now ends.now }
    ensures { result ≡ code_answer memory.now question address }
{
    match question {
        CodeQuestion::Undecodable => is_undecodable(memory, ends, address),
        CodeQuestion::LeadsOut => leads_out(memory, ends, address),
        CodeQuestion::Low => is_low(memory, ends, address),
    }
}

/// The addresses of which a question is answered with yes.
fn list_code(
    alloc: Global,
    memory: &Memory,
    ends: &TextEnds,
    question: CodeQuestion,
    addresses: &[u32],
) -> Result<Addresses, AllocError>
    requires { KnowsEnds memory.now ends.now }
    ensures { IfOk result (λ list. list ≡ filter (code_answer memory.now question) addresses.now) }
{
    let mut list = Addresses::new(alloc);
    for address in addresses {
        if code_answer(memory, ends, question, *address) {
            list.push(*address)?;
        }
    }
    Ok(list)
}

/// The reached addresses of which a question is answered with yes.
fn find_code(
    alloc: Global,
    memory: &Memory,
    parts: &Parts,
    question: CodeQuestion,
) -> Result<Addresses, AllocError>
    requires { AreParts memory.now parts.now }
    ensures { IfOk result (IsListOf (Finds memory.now (code_number question))) }
{
    memory.has_bytes();
    list_code(
        alloc,
        memory,
        &parts.ends,
        question,
        parts.code.addresses.as_slice(),
    )
}

/// The entries of the listed objects of which a question is answered with yes.
fn find_objects_by(
    alloc: Global,
    memory: &Memory,
    parts: &Parts,
    question: Question,
) -> Result<Addresses, AllocError>
    requires { AreParts memory.now parts.now }
    ensures { IfOk result (IsListOf (Finds memory.now (object_number question))) }
{
    memory.has_bytes();
    list_objects(alloc, memory, &parts.objects, question)
}

/// What a story has that may be wrong.
#[derive(Drop)]
struct Parts {
    ends: TextEnds,
    code: Code,
    objects: Objects,
    texts: FailingTexts,
}

/// The ends of texts, the code, the objects and the texts with a fault of a story.
fn find_parts(alloc: Global, memory: &Memory) -> Result<Parts, AllocError>
    ensures { IfOk result (λ parts. AreParts memory.now parts) }
{
    let ends = TextEnds::find(alloc, memory)?;
    let code = reach(alloc, memory)?;
    let objects = find_objects(alloc, memory)?;
    let marks = mark_all_texts(alloc, memory, &ends, objects.count, &code)?;
    let texts = list_failing(alloc, memory, &marks)?;
    Ok(Parts {
        ends,
        code,
        objects,
        texts,
    })
}

/// Where something is wrong, by its number.
fn find(
    alloc: Global,
    memory: &Memory,
    parts: &Parts,
    number: Number,
) -> Result<Addresses, AllocError>
    requires { AreParts memory.now parts.now }
    ensures { IfOk result (IsListOf (Finds memory.now number)) }
{
    match number {
        Number::Checksum => find_wrong_checksum(alloc, memory),
        Number::Length => find_length_past_end(alloc, memory),
        Number::DictionaryOrder => find_unordered(alloc, memory),
        Number::DictionaryExtent => find_bad_dictionary(alloc, memory),
        Number::ObjectLinks => find_objects_by(alloc, memory, parts, Question::Links),
        Number::ChainWithARepeat => find_objects_by(alloc, memory, parts, Question::Chain),
        Number::PropertyList => find_objects_by(alloc, memory, parts, Question::Properties),
        Number::TextPastTheEnd => find_past_end(alloc, memory, &parts.texts),
        Number::NestedAbbreviation => find_nested(alloc, memory, &parts.texts),
        Number::UndecodableCode => find_code(alloc, memory, parts, CodeQuestion::Undecodable),
        Number::TargetOutOfTheStory => find_code(alloc, memory, parts, CodeQuestion::LeadsOut),
        Number::CodeBelowTheStaticBase => find_code(alloc, memory, parts, CodeQuestion::Low),
    }
}

/// Puts a finding at each address after the others.
fn put(findings: &mut Vec<Finding>, number: Number, addresses: &[u32]) -> Result<(), AllocError>
    ensures { OnOk result
        (findings.new.items ≡ findings.old.items ++ map (at_address number) addresses.now) }
{
    for address in addresses {
        findings.push(Finding {
            number,
            address: *address,
        })?;
    }
    Ok(())
}

/// Puts all findings of a number after the others.
fn add(
    alloc: Global,
    memory: &Memory,
    parts: &Parts,
    number: Number,
    findings: &mut Vec<Finding>,
) -> Result<(), AllocError>
    requires { AreParts memory.now parts.now }
    ensures { OnOk result (Adds memory.now number findings.old.items findings.new.items) }
{
    let list = find(alloc, memory, parts, number)?;
    put(findings, number, list.as_slice())?;
    Ok(())
}

/// Puts all findings of some numbers after the others, in the order of the numbers.
fn add_all(
    alloc: Global,
    memory: &Memory,
    parts: &Parts,
    numbers: &[Number],
    findings: &mut Vec<Finding>,
) -> Result<(), AllocError>
    requires { AreParts memory.now parts.now }
    ensures { OnOk result (AddsAll memory.now numbers.now findings.old.items findings.new.items) }
{
    for number in numbers {
        add(alloc, memory, parts, *number, findings)?;
    }
    Ok(())
}

/// All findings, from the parts of the story.
fn find_all(alloc: Global, memory: &Memory, parts: &Parts) -> Result<Vec<Finding>, AllocError>
    requires { AreParts memory.now parts.now }
    ensures { IfOk result (λ list. AreFindings memory.now list.items) }
{
    let mut all = Vec::new(alloc);
    add_all(alloc, memory, parts, &NUMBERS, &mut all)?;
    Ok(all)
}

/// What is wrong with a story: each finding once, by number, then by address. Nothing is asked of a table whose word in
/// the header is 0.
///
/// Refused for lack of memory alone.
pub fn check(alloc: Global, memory: &Memory) -> Result<Vec<Finding>, AllocError>
    ensures { IfOk result (λ list. AreFindings memory.now list.items) }
{
    let parts = find_parts(alloc, memory)?;
    find_all(alloc, memory, &parts)
}
