// Walkthroughs.

ghost use Rattle.std.specs.Prelude.{◌≡◌, ◌<◌, ◌≤◌, ◌+◌, ◌^◌, ◌++◌, [], ◌∷◌, length, map, option_map, option_to_list};
ghost use Rattle.std.specs.Prelude.{IfOk, OnOk, slice_get};
ghost use Rattle.std.specs.Str.Lines.{lines};
ghost use Rattle.zk_suite.specs.Scripts.{asked_at, checks_of, command_count, commands_of, comments, first_of, script};
ghost use Rattle.zk_suite.specs.Scripts.{numbered_commands, typed_command, setting_in, settings_of, typed, unmarked};
ghost use Rattle.zk_suite.specs.Seen.{check_seen, command_seen};

use crate::kinds::{asked, is_comment, without_mark};
use crate::lines::cut_line;
use crate::settings::{setting_in, value_in};
use std::alloc::{AllocError, Global};

/// The lines after the comments, and how many comments stand before them.
#[derive(Clone, Copy, Drop)]
pub(crate) struct Script<'a> {
    pub rest: &'a [u8],
    pub comments: usize,
}

/// The lines after the comments that bytes begin with.
pub(crate) fn script_in(bytes: &[u8]) -> Script<'_>
    ensures value { lines result.rest.now ≡ script (lines bytes.now) }
    ensures count { result.comments ≡ length (comments (lines bytes.now)) }
    ensures within { result.comments + length result.rest.now ≤ length bytes.now }
{
    let mut rest = bytes;
    let mut count = 0;
    while let Some(cut) = cut_line(rest) {
        if !is_comment(cut.line) {
            return Script {
                rest,
                comments: count,
            };
        }
        count += 1;
        rest = cut.rest;
    }
    Script {
        rest,
        comments: count,
    }
}

/// What is asked of the answer to a command.
#[derive(Clone, Copy, Drop)]
pub struct Check<'a> {
    /// How many commands stand before it: 0 asks it of the text before the first command.
    pub commands: usize,
    /// The line of the walkthrough, from 1.
    pub line: usize,
    /// Whether the answer has to have the text, or must not.
    pub wanted: bool,
    /// The text.
    pub text: &'a [u8],
}

/// A command of a walkthrough.
#[derive(Clone, Copy, Drop)]
pub struct Command<'a> {
    /// The line of the walkthrough, from 1.
    pub line: usize,
    /// What is typed, without a new line.
    pub text: &'a [u8],
}

/// A walkthrough, line by line. A line ends at a new line or at the end of the file; a carriage return before its new
/// line is no part of it.
///
/// The lines that it begins with are comments, as long as they are `#` alone or begin with `# `. A comment `# key:
/// value` is a setting: the key has letters, digits and hyphens alone, and spaces before and after the value are
/// dropped.
///
/// Each line after the comments is `! text`, which asks that the answer to the command before it has the text; `!~
/// text`, which asks that it has not; or else a command. A backslash that a command begins with is not typed: it tells
/// `\! text` from what asks something, and `\# text` from a comment.
#[derive(Clone, Copy, Drop)]
pub struct Walkthrough<'a> {
    /// The bytes of its file.
    pub bytes: &'a [u8],
}

/// Puts the setting that a line is behind others, where it is one.
fn put_setting<'a>(
    settings: &mut Vec<(&'a [u8], &'a [u8])>,
    line: &'a [u8],
) -> Result<(), AllocError>
    ensures { OnOk result (map (λ s. (s.0.now, s.1.now)) settings.new.items
        ≡ map (λ s. (s.0.now, s.1.now)) settings.old.items ++ option_to_list (setting_in line.now)) }
{
    if let Some(setting) = setting_in(line) {
        settings.push(setting)?;
    }
    Ok(())
}

/// What is typed by a command.
fn plain_command(line: &[u8]) -> &[u8]
    ensures { result.now ≡ typed_command line.now }
{
    if line.starts_with(b"\\") {
        &line[1..]
    } else {
        line
    }
}

/// Puts what is typed by a line and a new line behind others, where it is a command.
fn put_command(out: &mut Vec<u8>, line: &[u8]) -> Result<(), AllocError>
    ensures { OnOk result (out.new.items ≡ out.old.items ++ typed (line.now ∷ [])) }
{
    if asked(line).is_none() {
        out.extend_from_slice(plain_command(line))?;
        out.push(b'\n')?;
    }
    Ok(())
}

/// Puts what a line asks behind the checks before it, after so many commands, and answers how many there are with the
/// line.
fn put_check<'a>(
    checks: &mut Vec<Check<'a>>,
    commands: usize,
    number: usize,
    line: &'a [u8],
) -> Result<usize, AllocError>
    requires { commands < 2 ^ 63 }
    ensures commands { IfOk result (λ n. n ≡ commands + command_count line.now) }
    ensures checks { OnOk result (map check_seen checks.new.items
        ≡ map check_seen checks.old.items ++ option_to_list (asked_at commands number line.now)) }
{
    match asked(line) {
        Some(it) => {
            checks.push(Check {
                commands,
                line: number,
                wanted: it.wanted,
                text: it.text,
            })?;
            Ok(commands)
        }
        None => Ok(commands + 1),
    }
}

impl<'a> Walkthrough<'a> {
    /// The walkthrough that bytes are, without a byte order mark before them.
    pub fn of(bytes: &'a [u8]) -> Walkthrough<'a>
        ensures { result.bytes.now ≡ unmarked bytes.now }
    {
        Walkthrough {
            bytes: without_mark(bytes),
        }
    }

    /// The value of the first setting of a name.
    pub fn setting(&self, name: &str) -> Option<&'a [u8]>
        ensures { option_map (λ v. v.now) result
            ≡ first_of name.now (settings_of self.now.bytes.now) }
    {
        let mut rest = self.bytes;
        while let Some(cut) = cut_line(rest) {
            if !is_comment(cut.line) {
                return None;
            }
            if let Some(value) = value_in(cut.line, name.as_bytes()) {
                return Some(value);
            }
            rest = cut.rest;
        }
        None
    }

    /// The settings, each a key with its value, in order; `AllocError` where there is no memory for the list.
    pub fn settings(&self, alloc: Global) -> Result<Vec<(&'a [u8], &'a [u8])>, AllocError>
        ensures { IfOk result (λ v. map (λ s. (s.0.now, s.1.now)) v.items
            ≡ settings_of self.now.bytes.now) }
    {
        let mut settings = Vec::new(alloc);
        let mut rest = self.bytes;
        while let Some(cut) = cut_line(rest) {
            if !is_comment(cut.line) {
                return Ok(settings);
            }
            put_setting(&mut settings, cut.line)?;
            rest = cut.rest;
        }
        Ok(settings)
    }

    /// The commands, each with a new line after it: what is typed in the play. `AllocError` where there is no memory
    /// for it.
    pub fn commands(&self, alloc: Global) -> Result<Vec<u8>, AllocError>
        ensures { IfOk result (λ v. v.items ≡ commands_of self.now.bytes.now) }
    {
        let mut out = Vec::new(alloc);
        let mut rest = script_in(self.bytes).rest;
        while let Some(cut) = cut_line(rest) {
            put_command(&mut out, cut.line)?;
            rest = cut.rest;
        }
        Ok(out)
    }

    /// The command before which so many others stand, if there is one.
    pub fn command(&self, others: usize) -> Option<Command<'a>>
        ensures { option_map command_seen result
            ≡ slice_get (numbered_commands self.now.bytes.now) others }
    {
        let script = script_in(self.bytes);
        let mut rest = script.rest;
        let mut number = script.comments;
        let mut left = others;
        while let Some(cut) = cut_line(rest) {
            number += 1;
            rest = cut.rest;
            if asked(cut.line).is_some() {
                continue;
            }
            if left == 0 {
                return Some(Command {
                    line: number,
                    text: plain_command(cut.line),
                });
            }
            left -= 1;
        }
        None
    }

    /// What is asked of answers, in order; `AllocError` where there is no memory for the list.
    pub fn checks(&self, alloc: Global) -> Result<Vec<Check<'a>>, AllocError>
        ensures { IfOk result (λ v. map check_seen v.items ≡ checks_of self.now.bytes.now) }
    {
        let script = script_in(self.bytes);
        let mut checks = Vec::new(alloc);
        let mut rest = script.rest;
        let mut commands = 0;
        let mut line = script.comments;
        while let Some(cut) = cut_line(rest) {
            line += 1;
            commands = put_check(&mut checks, commands, line, cut.line)?;
            rest = cut.rest;
        }
        Ok(checks)
    }
}
