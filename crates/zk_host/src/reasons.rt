// Why a story has stopped, or nothing is opened, in words.

ghost use Rattle.std.specs.Prelude.{◌≡◌, IfSome};
ghost use Rattle.zk_mem.specs.Faults.{fault_number};
ghost use Rattle.zk_state.specs.Limits.{limit_number};

use zk_mem::fault::Fault;
use zk_state::refusal::Limit;

/// The fault of a number.
fn fault_of(number: u32) -> Option<Fault>
    ensures { IfSome result (λ fault. fault_number fault ≡ number) }
{
    match number {
        1 => Some(Fault::CodePastEnd),
        2 => Some(Fault::BadOpcode),
        3 => Some(Fault::MissingOperand),
        4 => Some(Fault::StackEmpty),
        5 => Some(Fault::NoSuchLocal),
        6 => Some(Fault::BadAddress),
        7 => Some(Fault::ReadOnly),
        8 => Some(Fault::DivisionByZero),
        9 => Some(Fault::BadObject),
        10 => Some(Fault::BadProperty),
        11 => Some(Fault::BadTree),
        12 => Some(Fault::TextPastEnd),
        13 => Some(Fault::NestedAbbreviation),
        14 => Some(Fault::StreamDepth),
        15 => Some(Fault::BadFrame),
        16 => Some(Fault::ReturnFromMain),
        17 => Some(Fault::BadTarget),
        18 => Some(Fault::BadDictionary),
        _ => None,
    }
}

/// The limit of a number.
fn limit_of(number: u32) -> Option<Limit>
    ensures { IfSome result (λ limit. limit_number limit ≡ number) }
{
    match number {
        1 => Some(Limit::Frames),
        2 => Some(Limit::Words),
        3 => Some(Limit::Steps),
        4 => Some(Limit::Reads),
        _ => None,
    }
}

/// What is wrong with an instruction.
fn words_on_fault(number: u32) -> &'static str {
    match fault_of(number) {
        Some(fault) => fault.text(),
        None => "",
    }
}

/// What there is too much of.
fn words_on_limit(number: u32) -> &'static str {
    match limit_of(number) {
        Some(limit) => limit.text(),
        None => "",
    }
}

/// The words for a status and its reason; none where they are not known.
pub fn words(status: u32, reason: u32) -> &'static str {
    match status {
        1 => "the story has ended",
        2 => words_on_fault(reason),
        3 => words_on_limit(reason),
        5 => "out of memory",
        6 => "an instruction shows more text than there may be",
        _ => "",
    }
}

/// The words for why nothing is opened; none where the number is not known.
pub fn words_on_open(number: u32) -> &'static str {
    match number {
        1 => "the file is shorter than a header",
        2 => "its version is not played",
        3 => "the file is too long for its version",
        4 => "static memory begins inside the header or past the file",
        5 => "the first instruction lies past the file",
        6 => "out of memory",
        7 => "a limit is out of its range",
        8 => "this is no snapshot",
        9 => "the snapshot is of another version",
        10 => "the snapshot is of another story",
        11 => "the snapshot is damaged",
        _ => "",
    }
}
