// The lines that were read, kept in a file.

ghost use Rattle.std.specs.Prelude.{◌≡◌, ◌++◌, codes, decimal, false, is_err, true};
ghost use Rattle.zk_term.specs.LineWriters.{Wrote};
ghost use Rattle.zk_system.specs.Records.{frame_settings, play_settings, record_heading, run_settings, setting};
ghost use Rattle.zk_system.specs.Records.{LinesAreRecorded, recorded_part, view_setting, width_setting};

use crate::paged::line_length;
use crate::reason::tell_reason;
use itoa::Buffer;
use std::fs::File;
use std::io::{self, Write};
use zk_command::settings::Settings;
use zk_step::state::game_state::View;
use zk_suite::kinds::needs_backslash;
use zk_term::line_writer::{LineWriter, TargetWriter};
use zk_term::target::{Failed, Target};
use zk_term::writing::write_texts;
use zk_vm::limits::Limits;

/// The file of a record.
#[derive(Clone, Copy, Drop)]
pub struct RecordFile<'a> {
    pub path: &'a str,
    pub file: &'a File,
}

/// A record of the lines that are read, where there is a file for it: one that begins as another line of a walkthrough
/// gets a backslash before it. Without a file what it takes is dropped. The first write that fails is told on standard
/// error.
#[derive(Drop)]
pub struct Record<'a> {
    rt: &'a HostRuntime,
    to: Option<RecordFile<'a>>,
    begins_line: bool,
    failed: bool,
}

impl<'a> Record<'a> {
    pub fn new(rt: &'a HostRuntime, to: Option<RecordFile<'a>>) -> Record<'a>
        ensures { result.failed ≡ false }
    {
        Record {
            rt,
            to,
            begins_line: true,
            failed: false,
        }
    }

    /// Notes that a write has failed, and tells why where it is the first one.
    fn fail(&mut self, path: &str, error: &io::Error) -> Failed
        ensures { self.new.failed ≡ true }
    {
        if !self.failed {
            tell_reason(self.rt, path, error);
        }
        self.failed = true;
        Failed
    }
}

/// What stands before a part of a line: a backslash where it begins one that needs it.
fn before_part(begins_line: bool, part: &[u8]) -> &'static [u8]
    ensures { result.now ++ part.now ≡ recorded_part begins_line part.now }
{
    match part.first() {
        Some(first) if begins_line && needs_backslash(*first) => b"\\",
        _ => b"",
    }
}

/// A line that was read is recorded as its walkthrough has it, in whatever parts it came.
pub fn lines_are_recorded()
    ensures { LinesAreRecorded }
{}

/// Writes bytes of a line, with a backslash before them where they begin one that needs it.
fn write_part(file: &File, begins_line: bool, part: &[u8]) -> io::Result<()> {
    let mut file = file;
    file.write_all(before_part(begins_line, part))?;
    file.write_all(part)
}

impl Target for Record<'_> {
    ghost use Rattle.std.specs.Prelude.{◌≡◌, None, true};

    ghost taken = { λ _. None };

    ghost failed = { λ r. r.failed };

    ghost fails = { λ _ r. r.failed ≡ true };

    ghost whole = { λ _. Unit {0} };

    fn write(&mut self, bytes: &[u8]) -> Result<usize, Failed> {
        let Some(RecordFile { path, file }) = self.to else {
            return Ok(bytes.len());
        };
        let count = line_length(bytes);
        let part = &bytes[..count];
        match write_part(file, self.begins_line, part) {
            Ok(()) => {
                self.begins_line = part.last() == Some(&b'\n');
                Ok(count)
            }
            Err(error) => Err(self.fail(path, &error)),
        }
    }

    fn flush(&mut self) -> Result<(), Failed> {
        Ok(())
    }
}

/// Writes a comment that sets something.
#[tactic(auto, unfolding(crate::specs::Records::setting))]
fn write_setting<P: LineWriter>(writer: &mut P, name: &[u8], value: &[u8])
    ensures { P.wrote writer.old writer.new (setting name.now value.now) }
{
    write_texts(writer, &[b"# ", name, b": ", value, b"\n"]);
}

/// Writes a comment that sets a number.
fn write_number<P: LineWriter>(writer: &mut P, name: &[u8], number: u64)
    ensures { P.wrote writer.old writer.new (setting name.now (decimal number)) }
{
    let mut buffer = Buffer::new();
    write_setting(writer, name, buffer.format(number).as_bytes());
}

/// Writes the comments that set the limits on frames and words.
#[tactic(auto, unfolding(crate::specs::Records::frame_settings))]
fn write_frame_limits<P: LineWriter>(writer: &mut P, limits: Limits)
    ensures { P.wrote writer.old writer.new (frame_settings limits) }
{
    write_number(writer, b"frames", u64::from(limits.frames));
    write_number(writer, b"words", u64::from(limits.words));
}

/// Writes the comments that set the limits on states to go back to and on steps.
#[tactic(auto, unfolding(crate::specs::Records::run_settings))]
fn write_run_limits<P: LineWriter>(writer: &mut P, limits: Limits)
    ensures { P.wrote writer.old writer.new (run_settings limits) }
{
    write_number(writer, b"undo", u64::from(limits.undo));
    write_number(writer, b"steps", u64::from(limits.steps));
}

/// Writes the comment that sets the view, where it is not the plain one.
#[tactic(auto, unfolding(crate::specs::Records::view_setting))]
fn write_view<P: LineWriter>(writer: &mut P, view: View)
    ensures { P.wrote writer.old writer.new (view_setting view) }
{
    match view {
        View::Plain => {}
        View::Upper => write_setting(writer, b"upper", b"yes"),
    }
}

/// Writes the comment that sets the columns of the screen, where lines are wrapped.
#[tactic(auto, unfolding(crate::specs::Records::width_setting))]
fn write_width<P: LineWriter>(writer: &mut P, width: Option<u8>)
    ensures { P.wrote writer.old writer.new (width_setting width) }
{
    match width {
        None => {}
        Some(width) => write_number(writer, b"width", u64::from(width)),
    }
}

/// Writes the comments that set the story and the seed.
fn write_start<P: LineWriter>(writer: &mut P, story: &str, seed: u64)
    ensures { P.wrote writer.old writer.new
        (setting (codes "story") story.now ++ setting (codes "seed") (decimal seed)) }
{
    write_setting(writer, b"story", story.as_bytes());
    write_number(writer, b"seed", seed);
}

/// Writes the comments that set the limits.
fn write_limits<P: LineWriter>(writer: &mut P, limits: Limits)
    ensures { P.wrote writer.old writer.new (frame_settings limits ++ run_settings limits) }
{
    write_frame_limits(writer, limits);
    write_run_limits(writer, limits);
}

/// Writes the comments that set the story, the seed and the limits.
#[tactic(auto, unfolding(crate::specs::Records::play_settings))]
fn write_play<P: LineWriter>(writer: &mut P, story: &str, settings: &Settings)
    ensures { P.wrote writer.old writer.new (play_settings story.now settings.now) }
{
    write_start(writer, story, settings.seed);
    write_limits(writer, settings.limits);
}

/// Writes the comments that set what is shown.
fn write_look<P: LineWriter>(writer: &mut P, view: View, width: Option<u8>)
    ensures { P.wrote writer.old writer.new (view_setting view ++ width_setting width) }
{
    write_view(writer, view);
    write_width(writer, width);
}

/// Writes the comments that begin a record.
#[tactic(auto, unfolding(crate::specs::Records::record_heading))]
fn write_comments<P: LineWriter>(
    writer: &mut P,
    story: &str,
    settings: &Settings,
    width: Option<u8>,
)
    ensures { P.wrote writer.old writer.new (record_heading story.now settings.now width) }
{
    write_play(writer, story, settings);
    write_look(writer, settings.view, width);
}

/// Writes the comments that begin a record, by the story's path: what a later play of its lines needs.
pub fn write_record_heading<T: Target>(
    target: &mut T,
    story: &str,
    settings: &Settings,
    width: Option<u8>,
) -> Result<(), Failed>
    ensures { Wrote (is_err result) (T.taken target.old) (T.taken target.new)
        (record_heading story.now settings.now width) }
{
    let mut writer = TargetWriter::new(target);
    write_comments(&mut writer, story, settings, width);
    writer.finish()
}
