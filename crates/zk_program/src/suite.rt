// Playing walkthroughs, and comparing what they show with their transcripts.

ghost use Rattle.std.specs.Prelude.{◌≡◌, ◌↔◌, ◌||◌, IfOk, IsTrue, false, nat_lt};
ghost use Rattle.std.specs.List.{count_by, list_any};
ghost use Rattle.std.specs.Str.{bytes_eq};
ghost use Rattle.zk_vm.specs.Bounds.{AreInRange};
ghost use Rattle.zk_program.specs.Plans.{IsHeld, IsPlanFor, is_walkthrough, status_of_suite};
ghost use Rattle.zk_suite.specs.Texts.{Occurs};

use crate::about::About;
use crate::cover::CoverFile;
use crate::listing::open_listed;
use crate::names::{names_of, read_names, see_named};
use crate::playing::{Devices, PlayRequest, play_and_report};
use crate::session::{Commands, MemorySlot, Session, SessionScreen};
use crate::strict::{SeenMisuse, misuses_in_play};
use crate::told::{out_of_memory, tell_unwritten};
use std::fs::File;
use std::io::{self, ErrorKind, Write};
use zk_command::arguments::NO_TEXT;
use zk_command::manner::Manner;
use zk_command::settings::TestOptions;
use zk_fast::places::{Places, Unnoted};
use zk_names::names::Names;
use zk_suite::difference::Difference;
use zk_suite::search::contains;
use zk_suite::walkthrough::{Check, Walkthrough};
use zk_system::files::{MOST_TEXT, files_of, read_whole};
use zk_system::reason::Reason;
use zk_system::shown::Shown;
use zk_term::echo::Echo;
use zk_term::io_device::IoDevice;
use zk_term::nothing::Nothing;
use zk_term::wrapped::Wrapped;

/// The ending of a walkthrough's name, and of its transcript's.
const WALKTHROUGH: &str = ".walkthrough";

const TRANSCRIPT: &str = ".transcript";

/// What Inform's library prints where a story does what it must not.
const LIBRARY_ERROR: &[u8] = b"[** Programming error";

/// The setting of a walkthrough whose story may do that, and its value.
const ALLOW: &str = "allow";

const LIBRARY_ERRORS: &[u8] = b"library errors";

/// So many lines of an answer are shown.
const SHOWN_LINES: usize = 12;

/// How walkthroughs are tested.
#[derive(Drop)]
struct Suite<'a> {
    options: TestOptions<'a>,
    /// The names by which calls are told, where there are some.
    names: Option<Names<'a>>,
    /// The coverage file of all plays, once it was read.
    cover: Option<CoverFile<'a>>,
    /// The program's status, once it was told that the names or the coverage file are not of a story.
    refused: Option<u8>,
}

impl Suite<'_> {
    /// Sees that the names and the coverage file are of the story at a path, or tells that they are not. A file that is
    /// no story passes: its play tells that.
    fn see_story(&mut self, rt: &HostRuntime, path: &str) -> Result<(), u8> {
        if self.names.is_none() && self.options.cover.is_none() {
            return Ok(());
        }
        let Ok(file) = File::open(rt, path) else {
            return Ok(());
        };
        let Ok(memory) = open_listed(rt.alloc(), file, &About::new(path, "")) else {
            return Ok(());
        };
        see_named(rt, self.options.names, self.names.as_ref(), &memory)?;
        match (&self.cover, self.options.cover) {
            (Some(cover), _) => cover.see_story(rt, &memory)?,
            (None, Some(path)) => self.cover = Some(CoverFile::read(rt, path, &memory)?),
            (None, None) => {}
        }
        Ok(())
    }
}

/// A story whose file is open.
#[derive(Drop)]
struct OpenStory<'a> {
    path: &'a str,
    file: File,
}

/// A walkthrough that was played.
#[derive(Drop)]
struct Played {
    /// What it does that an author hardly means, where that is looked for.
    misuses: Vec<SeenMisuse>,
    /// What it showed.
    text: Vec<u8>,
    /// How much of the text there was as each command was asked for.
    asked: Vec<usize>,
    /// Whether there was no memory for what it showed.
    lacks_memory: bool,
    status: u8,
    /// What was told of the ending.
    errors: Vec<u8>,
}

/// A path that is named from a file: from its folder, where it does not begin with a slash.
fn path_from(rt: &HostRuntime, file: &str, path: &str) -> io::Result<String> {
    match file.rsplit_once('/') {
        Some((folder, _)) if !path.starts_with('/') => {
            Ok(format!(in rt.alloc(); "{folder}/{path}")?)
        }
        _ => Ok(String::from_str(rt.alloc(), path)?),
    }
}

/// The path of a walkthrough's transcript.
fn transcript_path(rt: &HostRuntime, path: &str) -> io::Result<String> {
    let stem = path.strip_suffix(WALKTHROUGH).unwrap_or(path);
    Ok(format!(in rt.alloc(); "{stem}{TRANSCRIPT}")?)
}

/// Writes lines below that of a test, up to so many.
fn write_lines(rt: &HostRuntime, bytes: &[u8], most: usize) -> io::Result<()> {
    for line in bytes.split(|byte| *byte == b'\n').take(most) {
        let text = String::from_utf8_lossy(rt.alloc(), line)?;
        println!(rt; "    {}", Shown(text.as_str()))?;
    }
    Ok(())
}

/// Says that a test has failed, and why.
fn fail(rt: &HostRuntime, path: &str, reason: &str) -> io::Result<bool> {
    println!(rt; "FAILED {}: {}", Shown(path), Shown(reason))?;
    Ok(false)
}

/// Says that a test has failed, since something can't be done with a file.
fn fail_by(rt: &HostRuntime, path: &str, file: &str, error: &io::Error) -> io::Result<bool> {
    println!(rt;
        "FAILED {}: {}: {}",
        Shown(path),
        Shown(file),
        Reason(error)
    )?;
    Ok(false)
}

/// Plays commands on a story, and keeps what it shows.
fn play_commands(
    rt: &HostRuntime,
    story: OpenStory,
    manner: Manner,
    commands: &[u8],
    suite: &mut Suite<'_>,
) -> Played
    requires { AreInRange manner.settings.limits }
{
    let session = Session::new(rt.alloc());
    let mut errors = IoDevice::new(Vec::new(rt.alloc()));
    let about = About {
        tells_calls: true,
        names: suite.names.take(),
        ..About::new(story.path, "")
    };
    let staged = Staged {
        file: story.file,
        manner,
        commands,
        session: &session,
    };
    let status = match &mut suite.cover {
        Some(cover) => play_in(rt, staged, &about, &mut cover.cover, &mut errors),
        None => play_in(rt, staged, &about, &mut Unnoted, &mut errors),
    };
    let About { names, .. } = about;
    suite.names = names;
    let lacks_memory = session.lacks_memory();
    let (text, asked) = session.into_parts();
    Played {
        misuses: Vec::new(rt.alloc()),
        text,
        asked,
        lacks_memory,
        status,
        errors: errors.into_inner(),
    }
}

/// A play of a walkthrough that is to begin.
#[derive(Drop)]
struct Staged<'a> {
    file: File,
    manner: Manner,
    commands: &'a [u8],
    session: &'a Session,
}

/// Plays commands on a story in a session, notes where its instructions stand, and answers the program's status.
fn play_in<P: Places>(
    rt: &HostRuntime,
    staged: Staged<'_>,
    about: &About,
    places: &mut P,
    errors: &mut IoDevice<Vec<u8>>,
) -> u8
    requires range { AreInRange staged.manner.settings.limits }
    requires works { errors.old.failed ≡ false }
{
    let Staged {
        file,
        manner,
        commands,
        session,
    } = staged;
    let Manner { settings, width } = manner;
    let mut devices = Devices {
        input: Echo::new(
            Commands::new(session, commands),
            SessionScreen::new(session),
            true,
        ),
        screen: Wrapped::new(SessionScreen::new(session), width),
        script: Nothing,
        slot: MemorySlot::new(rt.alloc()),
    };
    let request = PlayRequest {
        story: file,
        about,
        settings,
    };
    play_and_report(rt.alloc(), request, &mut devices, places, errors)
}

/// The answer to the last of so many commands: the text after it, up to where the next one is asked for. The text
/// before the first one is that to none. There is no answer where the command was not asked for.
fn answer_to<'a>(played: &'a Played, commands: &[u8], count: usize) -> Option<&'a [u8]> {
    let end = match played.asked.get(count) {
        Some(end) => *end,
        None => played.text.len(),
    };
    if count == 0 {
        return played.text.get(..end);
    }
    let start = *played.asked.get(count - 1)?;
    let command = commands.split(|byte| *byte == b'\n').nth(count - 1)?;
    // the command itself is shown too, with its new line
    played
        .text
        .get(start.checked_add(command.len())?.checked_add(1)?..end)
}

/// Whether an answer has what a check asks.
fn is_held(check: &Check, answer: &[u8]) -> bool
    ensures { IsTrue result ↔ IsHeld check.now.wanted (Occurs check.now.text.now answer.now) }
{
    contains(answer, check.text) == check.wanted
}

/// Says of the first check that does not hold, if there is one, and tells whether all hold.
fn hold(
    rt: &HostRuntime,
    path: &str,
    checks: &[Check],
    played: &Played,
    commands: &[u8],
) -> io::Result<bool> {
    for check in checks {
        let Some(answer) = answer_to(played, commands, check.commands) else {
            return fail_check(rt, path, check, "the play ended before its command", b"");
        };
        if !is_held(check, answer) {
            let reason = if check.wanted {
                "missing from the reply"
            } else {
                "found in the reply"
            };
            return fail_check(rt, path, check, reason, answer);
        }
    }
    Ok(true)
}

/// Says of a check that it does not hold, with the answer that it is of.
fn fail_check(
    rt: &HostRuntime,
    path: &str,
    check: &Check,
    reason: &str,
    answer: &[u8],
) -> io::Result<bool> {
    let text = String::from_utf8_lossy(rt.alloc(), check.text)?;
    println!(rt;
        "FAILED {}: line {}: {reason}: {}",
        Shown(path),
        check.line,
        Shown(text.as_str())
    )?;
    write_lines(rt, answer, SHOWN_LINES)?;
    Ok(false)
}

/// Says that a test has failed at the last of so many commands, and why: with the line of the walkthrough and the
/// command, if there is one.
fn fail_at(
    rt: &HostRuntime,
    path: &str,
    walkthrough: &Walkthrough,
    commands: usize,
    reason: &str,
) -> io::Result<()> {
    let command = match commands.checked_sub(1) {
        Some(others) => walkthrough.command(others),
        None => None,
    };
    let Some(command) = command else {
        return println!(rt; "FAILED {}: {reason}", Shown(path));
    };
    let text = String::from_utf8_lossy(rt.alloc(), command.text)?;
    println!(rt;
        "FAILED {}: line {}: {reason}: {}",
        Shown(path),
        command.line,
        Shown(text.as_str())
    )
}

/// How many bytes stand before a line of a text, from 1.
fn bytes_before(text: &[u8], line: usize) -> usize {
    let mut before = 0usize;
    for line in text
        .split(|byte| *byte == b'\n')
        .take(line.saturating_sub(1))
    {
        before = before.saturating_add(line.len()).saturating_add(1);
    }
    before
}

/// How many commands were asked for before a byte of what was shown, by how much of it there was at each.
fn asked_before(asked: &[usize], byte: usize) -> usize
    ensures { result ≡ count_by (λ at. nat_lt at byte) asked.now }
{
    asked.iter().filter(|at| **at < byte).count()
}

/// Compares what was shown with a transcript, and says where they differ.
fn compare(
    rt: &HostRuntime,
    path: &str,
    walkthrough: &Walkthrough,
    wanted: &[u8],
    played: &Played,
) -> io::Result<bool> {
    let shown = played.text.as_slice();
    let Some(difference) = Difference::of(wanted, shown) else {
        return Ok(true);
    };
    let line = difference.line();
    let commands = asked_before(played.asked.as_slice(), bytes_before(shown, line));
    let reason = format!(in rt.alloc(); "output differs from line {line} of its transcript")?;
    fail_at(rt, path, walkthrough, commands, reason.as_str())?;
    print!(rt; "{difference}")?;
    Ok(false)
}

/// Writes what was shown as a transcript, and says so.
fn write_transcript(
    rt: &HostRuntime,
    path: &str,
    transcript: &str,
    shown: &[u8],
) -> io::Result<bool> {
    let written = match File::create(rt, transcript) {
        Ok(mut file) => file.write_all(shown),
        Err(error) => Err(error),
    };
    match written {
        Ok(()) => {
            println!(rt; "wrote {}", Shown(transcript))?;
            Ok(true)
        }
        Err(error) => fail_by(rt, path, transcript, &error),
    }
}

/// What is done about the transcript of a walkthrough whose checks hold.
#[derive(Clone, Copy, Drop)]
enum TranscriptPlan {
    Compare,
    Write,
    /// Nothing: its checks are enough.
    Pass,
    /// It fails, since there is none.
    Missing,
    /// It fails, since the file can't be read.
    Unread,
}

/// What is done about a transcript, by what its file gave, and by whether there are checks and one is to be written.
fn plan_for(found: &io::Result<Vec<u8>>, has_checks: bool, bless: bool) -> TranscriptPlan
    ensures { IsPlanFor found.now has_checks bless result }
{
    match found {
        Ok(_) if bless => TranscriptPlan::Write,
        Ok(_) => TranscriptPlan::Compare,
        Err(error) if error.kind() != ErrorKind::NotFound => TranscriptPlan::Unread,
        Err(_) if has_checks => TranscriptPlan::Pass,
        Err(_) if bless => TranscriptPlan::Write,
        Err(_) => TranscriptPlan::Missing,
    }
}

/// Looks whether what was shown is what a transcript has, or writes one where that is asked for. Where there are checks
/// no transcript is needed.
fn judge(
    rt: &HostRuntime,
    path: &str,
    walkthrough: &Walkthrough,
    played: &Played,
    has_checks: bool,
    bless: bool,
) -> io::Result<bool> {
    let transcript = transcript_path(rt, path)?;
    let wanted = read_whole(rt, transcript.as_str(), MOST_TEXT);
    let shown = played.text.as_slice();
    match (plan_for(&wanted, has_checks, bless), wanted) {
        (TranscriptPlan::Compare, Ok(wanted)) => {
            compare(rt, path, walkthrough, wanted.as_slice(), played)
        }
        (TranscriptPlan::Write, _) => write_transcript(rt, path, transcript.as_str(), shown),
        (TranscriptPlan::Unread, Err(error)) => fail_by(rt, path, transcript.as_str(), &error),
        (TranscriptPlan::Missing, _) => fail(rt, path, "it has no transcript; --bless writes one"),
        (TranscriptPlan::Pass | TranscriptPlan::Compare | TranscriptPlan::Unread, _) => Ok(true),
    }
}

/// The first line of what was shown in which the library tells an error, and how many bytes stand before it.
fn library_error(shown: &[u8]) -> Option<(usize, &[u8])> {
    let mut before = 0usize;
    for line in shown.split(|byte| *byte == b'\n') {
        if contains(line, LIBRARY_ERROR) {
            return Some((before, line));
        }
        before = before.saturating_add(line.len()).saturating_add(1);
    }
    None
}

/// Says of the first error that the library tells, if there is one and the walkthrough allows none, and tells whether
/// the test goes on.
fn pass_errors(
    rt: &HostRuntime,
    path: &str,
    walkthrough: &Walkthrough,
    played: &Played,
) -> io::Result<bool> {
    if walkthrough.setting(ALLOW).is_some() {
        return Ok(true);
    }
    let Some((before, line)) = library_error(played.text.as_slice()) else {
        return Ok(true);
    };
    let commands = asked_before(played.asked.as_slice(), before);
    fail_at(
        rt,
        path,
        walkthrough,
        commands,
        "the library tells an error",
    )?;
    write_lines(rt, line, 1)?;
    Ok(false)
}

/// Writes what was told of the ending of a play. With names all of it, below what the story showed after its last
/// command.
fn write_ending(
    rt: &HostRuntime,
    commands: &[u8],
    played: &Played,
    has_names: bool,
) -> io::Result<()> {
    if !has_names {
        return write_lines(rt, played.errors.as_slice(), SHOWN_LINES);
    }
    if let Some(answer) = answer_to(played, commands, played.asked.len()) {
        write_lines(rt, answer, SHOWN_LINES)?;
    }
    write_lines(rt, played.errors.as_slice(), usize::MAX)
}

/// Judges a walkthrough that was played: by its status, the errors of the library, its checks and its transcript.
fn judge_played(
    rt: &HostRuntime,
    path: &str,
    walkthrough: &Walkthrough,
    commands: &[u8],
    played: &Played,
    suite: &Suite<'_>,
) -> io::Result<bool> {
    if played.lacks_memory {
        return Err(ErrorKind::OutOfMemory.into());
    }
    if played.status != 0 {
        let reason = format!(in rt.alloc(); "the play ended with status {}", played.status)?;
        fail_at(rt, path, walkthrough, played.asked.len(), reason.as_str())?;
        write_ending(rt, commands, played, suite.names.is_some())?;
        write_misuses(rt, played)?;
        return Ok(false);
    }
    if !pass_misuses(rt, path, walkthrough, played)?
        || !pass_errors(rt, path, walkthrough, played)?
    {
        return Ok(false);
    }
    let checks = walkthrough.checks(rt.alloc())?;
    if !hold(rt, path, checks.as_slice(), played, commands)? {
        return Ok(false);
    }
    let bless = suite.options.bless;
    judge(rt, path, walkthrough, played, !checks.is_empty(), bless)
}

/// What the commands of a walkthrough make a story do that an author hardly means, where that is looked for. Then the
/// coverage file gets the texts that it prints by their addresses.
fn look_for_misuses(
    rt: &HostRuntime,
    story: &str,
    manner: Manner,
    commands: &[u8],
    suite: &mut Suite<'_>,
) -> io::Result<Vec<SeenMisuse>>
    requires { AreInRange manner.settings.limits }
{
    if !suite.options.strict {
        return Ok(Vec::new(rt.alloc()));
    }
    let file = File::open(rt, story)?;
    let names = suite.names.as_ref();
    let settings = manner.settings;
    let found = match &mut suite.cover {
        Some(cover) => {
            let texts = Some(&mut cover.cover);
            misuses_in_play(rt.alloc(), file, settings, commands, names, texts)
        }
        None => misuses_in_play(rt.alloc(), file, settings, commands, names, None),
    };
    Ok(found?)
}

/// Writes what a play does that an author hardly means.
fn write_misuses(rt: &HostRuntime, played: &Played) -> io::Result<()> {
    for seen in &played.misuses {
        println!(rt; "    {}", seen.text)?;
    }
    Ok(())
}

/// Says of what a play does that an author hardly means, and tells whether the test goes on.
fn pass_misuses(
    rt: &HostRuntime,
    path: &str,
    walkthrough: &Walkthrough,
    played: &Played,
) -> io::Result<bool> {
    let Some(first) = played.misuses.first() else {
        return Ok(true);
    };
    let reason = "the story does what is hardly meant";
    fail_at(rt, path, walkthrough, first.commands, reason)?;
    write_misuses(rt, played)?;
    Ok(false)
}

/// Tests a walkthrough on a story, as settings say.
fn test_on(
    rt: &HostRuntime,
    path: &str,
    walkthrough: &Walkthrough,
    story: OpenStory,
    manner: Manner,
    suite: &mut Suite<'_>,
) -> io::Result<bool>
    requires { AreInRange manner.settings.limits }
{
    let commands = walkthrough.commands(rt.alloc())?;
    let misuses = look_for_misuses(rt, story.path, manner, commands.as_slice(), suite)?;
    let played = play_commands(rt, story, manner, commands.as_slice(), suite);
    let played = Played { misuses, ..played };
    judge_played(rt, path, walkthrough, commands.as_slice(), &played, suite)
}

/// Whether one of some settings has a name.
fn has_setting(settings: &[(&[u8], &[u8])], name: &[u8]) -> bool {
    settings.iter().any(|(other, _)| *other == name)
}

/// Takes a setting of a play, unless it is that of the story; or tells what is wrong with it.
fn set(
    rt: &HostRuntime,
    manner: &mut Manner,
    name: &[u8],
    text: &[u8],
) -> io::Result<Option<String>>
    requires { AreInRange manner.old.settings.limits }
    ensures { AreInRange manner.new.settings.limits }
{
    let name = String::from_utf8_lossy(rt.alloc(), name)?;
    if name.as_str() == "story" || (name.as_str() == ALLOW && text == LIBRARY_ERRORS) {
        return Ok(None);
    }
    if name.as_str() == ALLOW {
        let reason = "setting 'allow': its only value is 'library errors'";
        return Ok(Some(String::from_str(rt.alloc(), reason)?));
    }
    let text = String::from_utf8_lossy(rt.alloc(), text)?;
    match manner.set(name.as_str(), text.as_str()) {
        Ok(()) => Ok(None),
        Err(error) => Ok(Some(format!(in rt.alloc(); "setting '{name}': {error}")?)),
    }
}

/// The manner of a play by settings, beside the story; or what is wrong with one of these.
fn manner_by(rt: &HostRuntime, settings: &[(&[u8], &[u8])]) -> io::Result<Result<Manner, String>>
    ensures { IfOk result (λ r. IfOk r (λ m. AreInRange m.settings.limits)) }
{
    let mut manner = Manner::new();
    for at in 0..settings.len() {
        let (name, text) = settings[at];
        if has_setting(&settings[..at], name) {
            let name = String::from_utf8_lossy(rt.alloc(), name)?;
            return Ok(Err(format!(in rt.alloc(); "setting '{name}' stands twice")?));
        }
        if let Some(reason) = set(rt, &mut manner, name, text)? {
            return Ok(Err(reason));
        }
    }
    Ok(Ok(manner))
}

/// Tests a walkthrough on a story, by its settings.
fn test_with(
    rt: &HostRuntime,
    path: &str,
    walkthrough: &Walkthrough,
    story: &str,
    suite: &mut Suite<'_>,
) -> io::Result<bool> {
    if let Err(status) = suite.see_story(rt, story) {
        suite.refused = Some(status);
        return Ok(false);
    }
    let settings = walkthrough.settings(rt.alloc())?;
    let manner = match manner_by(rt, settings.as_slice())? {
        Ok(manner) => manner,
        Err(reason) => return fail(rt, path, reason.as_str()),
    };
    match File::open(rt, story) {
        Ok(file) => {
            let story = OpenStory { path: story, file };
            test_on(rt, path, walkthrough, story, manner, suite)
        }
        Err(error) => fail_by(rt, path, story, &error),
    }
}

/// The path of a walkthrough's story, if it has one: as it says from its own folder, or as the command says.
fn story_of(
    rt: &HostRuntime,
    path: &str,
    walkthrough: &Walkthrough,
    otherwise: Option<&str>,
) -> io::Result<Option<String>> {
    match (walkthrough.setting("story"), otherwise) {
        (Some(story), _) => {
            let story = String::from_utf8_lossy(rt.alloc(), story)?;
            Ok(Some(path_from(rt, path, story.as_str())?))
        }
        (None, Some(story)) => Ok(Some(String::from_str(rt.alloc(), story)?)),
        (None, None) => Ok(None),
    }
}

/// Tests a walkthrough, says why it fails if it does, and tells whether it has passed.
fn test_one(rt: &HostRuntime, path: &str, suite: &mut Suite<'_>) -> io::Result<bool> {
    let bytes = match read_whole(rt, path, MOST_TEXT) {
        Ok(bytes) => bytes,
        Err(error) => return fail_by(rt, path, path, &error),
    };
    let walkthrough = Walkthrough::of(bytes.as_slice());
    let Some(story) = story_of(rt, path, &walkthrough, suite.options.story)? else {
        return fail(rt, path, "it names no story, and neither does --story");
    };
    test_with(rt, path, &walkthrough, story.as_str(), suite)
}

/// Whether a file is tested that was found by names: other files in a folder are no walkthroughs.
fn is_tested(path: &str, named: &[&str]) -> bool
    ensures { result ≡ (is_walkthrough path.now
        || list_any (λ name. bytes_eq name.now path.now) named.now) }
{
    path.as_bytes().ends_with(WALKTHROUGH.as_bytes()) || named.contains(&path)
}

/// Tests walkthroughs, one after another, says of each how it went, and tells how many have passed and failed. It ends
/// where the names or the coverage file are not of a story.
fn test_each(
    rt: &HostRuntime,
    paths: &[String],
    named: &[&str],
    suite: &mut Suite<'_>,
) -> io::Result<(u64, u64)> {
    let mut passed = 0u64;
    let mut failed = 0u64;
    for path in paths {
        let path = path.as_str();
        // one whose name is no text may be a folder with walkthroughs
        if !is_tested(path, named) && !path.contains(NO_TEXT) {
            continue;
        }
        if test_one(rt, path, suite)? {
            println!(rt; "passed {}", Shown(path))?;
            passed = passed.saturating_add(1);
        } else {
            failed = failed.saturating_add(1);
        }
        if suite.refused.is_some() {
            break;
        }
    }
    Ok((passed, failed))
}

/// The program's status by how many walkthroughs have passed and failed, and whether all of them could be found: 1
/// where one has failed, or there is none.
fn suite_status(passed: u64, failed: u64, all: bool) -> u8
    ensures { result ≡ status_of_suite passed failed all }
{
    if failed == 0 && passed > 0 && all {
        0
    } else {
        1
    }
}

/// Tests the walkthroughs that paths name, and those in folders, and answers the program's status.
fn test_paths(rt: &HostRuntime, paths: &[&str], suite: &mut Suite<'_>) -> io::Result<u8> {
    let files = files_of(rt, paths)?;
    let (passed, failed) = test_each(rt, files.paths.as_slice(), paths, suite)?;
    if let Some(status) = suite.refused {
        return Ok(status);
    }
    println!(rt; "{passed} passed, {failed} failed")?;
    let status = suite_status(passed, failed, files.all);
    match &mut suite.cover {
        Some(cover) => Ok(cover.write(rt, status)),
        None => Ok(status),
    }
}

/// Tests walkthroughs, as options say, with the bytes of a debugging file, if there is one; and answers the program's
/// status.
fn test_told<'r>(
    rt: &'r HostRuntime,
    paths: &[&str],
    options: TestOptions<'r>,
    bytes: &'r Option<Vec<u8>>,
) -> u8 {
    let names = match names_of(rt, options.names, bytes) {
        Ok(names) => names,
        Err(status) => return status,
    };
    let mut suite = Suite {
        options,
        names,
        cover: None,
        refused: None,
    };
    match test_paths(rt, paths, &mut suite) {
        Ok(status) => status,
        Err(error) if error.kind() == ErrorKind::OutOfMemory => out_of_memory(rt),
        Err(error) => tell_unwritten(rt, &error),
    }
}

/// Tests walkthroughs, as options say, and answers the program's status: 4 where what is said can't be written, or the
/// names or the coverage file are not taken, and 5 where there is no memory.
pub fn test<'r>(rt: &'r HostRuntime, paths: &[&str], options: TestOptions<'r>) -> u8 {
    match read_names(rt, options.names) {
        Ok(bytes) => test_told(rt, paths, options, &bytes),
        Err(status) => status,
    }
}
