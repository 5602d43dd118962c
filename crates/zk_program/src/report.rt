// The last lines and the status of a play.

ghost use Rattle.std.specs.Prelude.{◌≡◌, false, is_err, [], IfOk, OnSome};
ghost use Rattle.std.specs.List.{flat_map};
ghost use Rattle.zk_term.specs.Devices.{Took, device};
ghost use Rattle.zk_program.specs.LastLine.{IsExplained, TookExplained, TookWords, cause_at, last_line, line};
ghost use Rattle.zk_program.specs.LastLine.{refused_words, stop_line, unread_words, words_line};
ghost use Rattle.zk_program.specs.Status.{exit_status};

use crate::about::About;
use crate::exit::Exit;
use itoa::Buffer;
use std::alloc::{AllocError, Global};
use std::io::{self, ErrorKind};
use zk_mem::fault::Fault;
use zk_mem::memory::ScreenSetup;
use zk_mem::story::OpenError;
use zk_state::refusal::Limit;
use zk_system::reason::Reason;
use zk_system::shown::Shown;
use zk_system::watched::DeviceNotes;
use zk_term::line_writer::{LineWriter, TargetWriter};
use zk_term::target::{Failed, Target};
use zk_term::writing::{hex_digits_of, write_texts, zeros_before};
use zk_vm::limits::Limits;
use zk_vm::stop::Stop;

/// Writes texts one after another, up to a write that fails.
#[tactic(auto, using(crate::proofs::Reports::took_by))]
fn write_together<E: Target>(errors: &mut E, texts: &[&[u8]]) -> Result<(), Failed>
    requires { E.failed errors.old ≡ false }
    ensures text { Took (device E.taken E.failed errors.old) (device E.taken E.failed errors.new)
        (flat_map (λ t. t.now) texts.now) }
    ensures failed { E.failed errors.new ≡ is_err result }
{
    let mut writer = TargetWriter::new(errors);
    write_texts(&mut writer, texts);
    writer.finish()
}

/// Writes a numbered cause at an address.
#[tactic(auto, unfolding(zk_term::specs::Numbers::address_digits))]
fn write_cause<E: Target>(errors: &mut E, cause: &[u8], number: u8, a: u32) -> Result<(), Failed>
    requires { E.failed errors.old ≡ false }
    ensures { Took (device E.taken E.failed errors.old) (device E.taken E.failed errors.new)
        (line (cause_at cause.now number a)) }
{
    let mut decimal = Buffer::new();
    let digits = hex_digits_of(a);
    let number = decimal.format(number).as_bytes();
    let address = &digits[zeros_before(a)..];
    write_together(errors, &[b"zkit: ", cause, number, b" at ", address, b"\n"])
}

/// Writes a line of the program.
fn write_line<E: Target>(errors: &mut E, text: &[u8]) -> Result<(), Failed>
    requires { E.failed errors.old ≡ false }
    ensures text { Took (device E.taken E.failed errors.old) (device E.taken E.failed errors.new)
        (line text.now) }
    ensures failed { E.failed errors.new ≡ is_err result }
{
    write_together(errors, &[b"zkit: ", text, b"\n"])
}

/// Writes a line in words, after a new line where the screen does not stand at the start of a line.
fn write_words_line<E: Target>(errors: &mut E, apart: bool, text: &[u8]) -> Result<(), Failed>
    requires { E.failed errors.old ≡ false }
    ensures text { Took (device E.taken E.failed errors.old) (device E.taken E.failed errors.new)
        (words_line apart text.now) }
    ensures failed { E.failed errors.new ≡ is_err result }
{
    if apart {
        return write_together(errors, &[b"\n", b"zkit: ", text, b"\n"]);
    }
    write_together(errors, &[b"zkit: ", text, b"\n"])
}

fn write_stop<E: Target>(errors: &mut E, stop: &Stop) -> Result<(), Failed>
    requires { E.failed errors.old ≡ false }
    ensures { Took (device E.taken E.failed errors.old) (device E.taken E.failed errors.new)
        (stop_line stop.now) }
{
    match stop {
        Stop::Quit | Stop::EndOfInput => Ok(()),
        Stop::Fault(a, fault) => write_cause(errors, b"fault ", fault.number(), *a),
        Stop::Limit(a, limit) => write_cause(errors, b"limit ", limit.number(), *a),
        Stop::Read => write_line(errors, b"read failed"),
        Stop::Write => write_line(errors, b"write failed"),
        Stop::Memory => write_line(errors, b"out of memory"),
    }
}

fn write_refusal<E: Target>(errors: &mut E, error: &OpenError) -> Result<(), Failed>
    requires { E.failed errors.old ≡ false }
    ensures { Took (device E.taken E.failed errors.old) (device E.taken E.failed errors.new)
        (line (refused_words error.now)) }
{
    match error {
        OpenError::OutOfMemory => write_line(errors, b"out of memory"),
        _ => {
            let mut decimal = Buffer::new();
            let number = decimal.format(error.number()).as_bytes();
            write_together(errors, &[b"zkit: ", b"refused ", number, b"\n"])
        }
    }
}

fn write_unread<E: Target>(errors: &mut E, kind: ErrorKind) -> Result<(), Failed>
    requires { E.failed errors.old ≡ false }
    ensures { Took (device E.taken E.failed errors.old) (device E.taken E.failed errors.new)
        (line (unread_words kind)) }
{
    match kind {
        ErrorKind::OutOfMemory => write_line(errors, b"out of memory"),
        _ => write_line(errors, b"read failed"),
    }
}

/// Writes the last line.
fn write_last<E: Target>(errors: &mut E, exit: &Exit) -> Result<(), Failed>
    requires { E.failed errors.old ≡ false }
    ensures { Took (device E.taken E.failed errors.old) (device E.taken E.failed errors.new)
        (last_line exit.now) }
{
    match exit {
        Exit::Unread(error) => write_unread(errors, error.kind()),
        Exit::Refused(error) => write_refusal(errors, error),
        Exit::Stopped(stop) => write_stop(errors, stop),
        Exit::Found => Ok(()),
    }
}

/// What has happened, in words.
fn words_on_limit(alloc: Global, limit: Limit, limits: &Limits) -> Result<String, AllocError> {
    let Limits {
        frames,
        words,
        undo: _,
        steps,
        screen: _,
    } = *limits;
    match limit {
        Limit::Frames => {
            format!(in alloc; "the story went past {frames} frames; --frames sets the limit")
        }
        Limit::Words => {
            format!(in alloc;
                "the story went past {words} words in its frames; --words sets the limit"
            )
        }
        Limit::Steps => format!(in alloc;
            "the story went past {steps} instructions without reading; --steps sets the limit"
        ),
        Limit::Reads => format!(in alloc; "{limit}"),
    }
}

/// Why a story's file can't be read, in words.
fn words_on_read(alloc: Global, error: &io::Error, about: &About) -> Result<String, AllocError> {
    let path = Shown(about.path);
    match error.kind() {
        ErrorKind::IsADirectory => format!(in alloc;
            "{path}: it is a folder: `zkit info --recursive` and `zkit check --recursive` search it"
        ),
        _ => format!(in alloc; "{path}: {}", Reason(error)),
    }
}

/// Why a story's file is no story, in words.
fn words_on_refusal(alloc: Global, error: &OpenError, about: &About) -> Result<String, AllocError> {
    let path = Shown(about.path);
    match about.looks.get().text() {
        Some(text) => format!(in alloc; "{path}: not a story: {text}"),
        None => format!(in alloc; "{path}: not a story: {error}"),
    }
}

/// Why a device failed, in words.
fn words_on_device(
    alloc: Global,
    name: &str,
    notes: &DeviceNotes,
    otherwise: &str,
) -> Result<String, AllocError> {
    match notes.failure() {
        Some(error) => format!(in alloc; "{}: {}", Shown(name), Reason(&error)),
        None => format!(in alloc; "{}: {otherwise}", Shown(name)),
    }
}

/// Whether a device is a pipe that nobody reads from any more.
fn is_closed(notes: &DeviceNotes) -> bool {
    match notes.failure() {
        Some(error) => error.kind() == ErrorKind::BrokenPipe,
        None => false,
    }
}

/// Why a write failed, in words, unless the screen is closed: then nobody needs them.
fn words_on_write(alloc: Global, about: &About) -> Result<Option<String>, AllocError> {
    let text = "it accepts no more data";
    if about.script.has_failed() {
        return Ok(Some(words_on_device(alloc, about.script_path, &about.script, text)?));
    }
    if is_closed(&about.screen) {
        return Ok(None);
    }
    Ok(Some(words_on_device(alloc, "the screen", &about.screen, text)?))
}

/// What is wrong with an instruction, in words.
fn words_on_fault(alloc: Global, fault: Fault, about: &About) -> Result<String, AllocError> {
    match about.bad_destination.get() {
        Some(bad_destination) if fault == Fault::BadTarget => bad_destination.text(alloc),
        _ => format!(in alloc; "{fault}"),
    }
}

/// Words with the calls after them that led there, where these are told.
fn with_calls(words: String, about: &About) -> Result<String, AllocError> {
    let mut words = words;
    if let Some(calls) = about.calls.take() {
        words.push_str(calls.as_str())?;
    }
    Ok(words)
}

/// What has happened, in words, where the last line does not say it in words.
fn words_on(
    alloc: Global,
    exit: &Exit,
    limits: &Limits,
    about: &About,
) -> Result<Option<String>, AllocError>
    ensures { IfOk result (λ o. OnSome o (IsExplained exit.now)) }
{
    match exit {
        Exit::Unread(error) if error.kind() == ErrorKind::OutOfMemory => Ok(None),
        Exit::Refused(OpenError::OutOfMemory) => Ok(None),
        Exit::Unread(error) => Ok(Some(words_on_read(alloc, error, about)?)),
        Exit::Refused(error) => Ok(Some(words_on_refusal(alloc, error, about)?)),
        Exit::Stopped(Stop::Fault(_, fault)) => {
            Ok(Some(with_calls(words_on_fault(alloc, *fault, about)?, about)?))
        }
        Exit::Stopped(Stop::Read) => {
            let text = "a line of it has more than 65535 bytes";
            Ok(Some(words_on_device(alloc, "standard input", &about.input.device, text)?))
        }
        Exit::Stopped(Stop::Write) => words_on_write(alloc, about),
        Exit::Stopped(Stop::Limit(_, limit)) => {
            Ok(Some(with_calls(words_on_limit(alloc, *limit, limits)?, about)?))
        }
        _ => Ok(None),
    }
}

/// Writes what has happened, in words, where there is memory for them, after a new line where the screen does not stand
/// at the start of a line.
fn write_words<E: Target>(
    alloc: Global,
    exit: &Exit,
    limits: &Limits,
    about: &About,
    apart: bool,
    errors: &mut E,
) -> Result<(), Failed>
    requires { E.failed errors.old ≡ false }
    ensures text { TookWords apart exit.now (device E.taken E.failed errors.old)
        (device E.taken E.failed errors.new) }
    ensures failed { E.failed errors.new ≡ is_err result }
{
    match words_on(alloc, exit, limits, about) {
        Ok(Some(words)) => write_words_line(errors, apart, words.as_bytes()),
        _ => Ok(()),
    }
}

/// The status of the program.
fn status(exit: &Exit) -> u8
    ensures { result ≡ exit_status exit.now }
{
    match exit {
        Exit::Unread(error) => match error.kind() {
            ErrorKind::OutOfMemory => 5,
            _ => 4,
        },
        Exit::Refused(OpenError::OutOfMemory) => 5,
        Exit::Refused(_) => 1,
        Exit::Stopped(Stop::Quit | Stop::EndOfInput) => 0,
        Exit::Stopped(Stop::Fault(_, _)) => 2,
        Exit::Stopped(Stop::Limit(_, _)) => 3,
        Exit::Stopped(Stop::Read | Stop::Write) => 4,
        Exit::Stopped(Stop::Memory) => 5,
        Exit::Found => 6,
    }
}

/// Writes the last line alone, and answers the program's status.
pub fn report_briefly<E: Target>(exit: &Exit, errors: &mut E) -> u8
    requires { E.failed errors.old ≡ false }
    ensures status { result ≡ exit_status exit.now }
    ensures line { Took (device E.taken E.failed errors.old) (device E.taken E.failed errors.new)
        (last_line exit.now) }
{
    let _ = write_last(errors, exit);
    status(exit)
}

/// Writes why a play has ended, unless the story or its input has, and answers the program's status: 0 for an end,
/// 1 for a file that is no story, 2 for a fault, 3 for a limit, 4 for a read or a write that failed, 5 for want of
/// memory, 6 for something that a check has found. Before the last line it writes what has happened in words.
pub fn report<E: Target>(
    alloc: Global,
    exit: &Exit,
    limits: &Limits,
    about: &About,
    errors: &mut E,
) -> u8
    requires { E.failed errors.old ≡ false }
    ensures status { result ≡ exit_status exit.now }
    ensures lines { TookExplained exit.now (last_line exit.now) (device E.taken E.failed errors.old)
        (device E.taken E.failed errors.new) }
{
    let apart = !about.screen.begins_line();
    match write_words(alloc, exit, limits, about, apart, errors) {
        Ok(()) => report_briefly(exit, errors),
        Err(Failed) => status(exit),
    }
}

/// Writes why a listing has ended, unless it was written to its end, and answers the program's status, as `report`
/// does.
pub fn report_listing<E: Target>(alloc: Global, exit: &Exit, about: &About, errors: &mut E) -> u8
    requires { E.failed errors.old ≡ false }
    ensures status { result ≡ exit_status exit.now }
    ensures lines { TookExplained exit.now (last_line exit.now) (device E.taken E.failed errors.old)
        (device E.taken E.failed errors.new) }
{
    // a listing meets no limits
    let none = Limits {
        frames: 1,
        words: 0,
        undo: 0,
        steps: 1,
        screen: ScreenSetup::plain(),
    };
    report(alloc, exit, &none, about, errors)
}
