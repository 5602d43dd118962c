// Plays, lists and checks Z-machine stories.
#![tactic(auto)]

ghost use Rattle.std.specs.Prelude.{◌≡◌, ◌⊎◌, false};
ghost use Rattle.clap.specs.Words.{kind_of};
ghost use Rattle.zk_command.specs.CommandLine.{usage_status};

use clap::Error;
use clap::error::ErrorKind;
use std::alloc::{AllocError, Global};
use std::env::{self, Env, FillError};
use std::fs::{self, OpenOptions};
use std::io;
use std::os::fd::{AsRawFd, IntoRawFd, RawFd};
use std::process::ExitCode;
use zk_command::arguments::{NO_TEXT, argument_of};
use zk_command::choice::{Choice, choose, story_named, usage_status_of};
use zk_command::settings::PlayOptions;
use zk_program::coverage::report_coverage;
use zk_program::list::list_all;
use zk_program::play::play_story;
use zk_program::story_page::make_story_page;
use zk_program::suite::test;
use zk_program::told::{out_of_memory, tell_unread, tell_unwritten};
use zk_program::unpack::unpack;
use zk_system::files::paths_listed;
use zk_system::same_file::is_same_file;
use zk_system::shown::Shown;

/// So many bytes an argument of the command line has at most.
const MOST_BYTES: usize = 131_072;

/// Shows help, the version or what is wrong with the arguments, and answers the program's status: 4 where help can't be
/// written.
fn tell_usage(rt: &HostRuntime, error: &Error) -> u8
    ensures { (result ≡ usage_status (kind_of error.now))
        ⊎ ((result ≡ 4) × (usage_status (kind_of error.now) ≡ 0)) }
{
    if error.kind() == ErrorKind::OutOfMemory {
        return out_of_memory(rt);
    }
    match error.print(rt) {
        Err(failure) if !error.use_stderr() => tell_unwritten(rt, &failure),
        _ => usage_status_of(error),
    }
}

/// The option of `play` that names the story's own file, if one does.
fn option_on_story(rt: &HostRuntime, story: &str, options: &PlayOptions) -> Option<&'static str> {
    for (option, path) in [
        ("save", options.save),
        ("script", options.script),
        ("record", options.recorded),
        ("cover", options.cover),
    ] {
        match path {
            Some(path) if is_same_file(rt, story, path) => return Some(option),
            _ => {}
        }
    }
    None
}

/// Tells how a story is played, where the first argument names a file in a command's place.
fn tell_command(rt: &HostRuntime, arguments: &[&str], error: &Error) {
    if error.kind() != ErrorKind::InvalidSubcommand {
        return;
    }
    let Some(argument) = arguments.get(1) else {
        return;
    };
    if fs::exists(rt, *argument).unwrap_or(false) {
        let _ = eprintln!(rt; "\nto play it: zkit play {}", Shown(argument));
    }
}

/// Tells that an argument is no text, and answers the program's status.
fn tell_no_text(rt: &HostRuntime) -> u8
    ensures { result ≡ 1 }
{
    let _ = eprintln!(rt; "zkit: an argument is not valid UTF-8");
    1
}

/// Arguments with the paths of a list after them, if there is one.
fn with_paths<'a>(
    alloc: Global,
    arguments: &'a [String],
    paths: Option<&'a [String]>,
) -> Result<Vec<&'a str>, AllocError> {
    let mut all = Vec::new(alloc);
    for argument in arguments {
        all.push(argument.as_str())?;
    }
    let Some(paths) = paths else {
        return Ok(all);
    };
    all.push("--")?;
    for path in paths {
        all.push(path.as_str())?;
    }
    Ok(all)
}

/// Does what arguments ask for, with the paths of a list after them, if there is one; and answers the program's status.
/// A path that is no text is left out where stories are listed; nothing else is done by such an argument.
fn answer(rt: &HostRuntime, arguments: &[String], paths: Option<&[String]>) -> u8 {
    let Ok(arguments) = with_paths(rt.alloc(), arguments, paths) else {
        return out_of_memory(rt);
    };
    let arguments = arguments.as_slice();
    let are_text = !arguments.iter().any(|argument| argument.contains(NO_TEXT));
    match choose(rt.alloc(), arguments) {
        Ok(
            Choice::Show {
                stories,
                roots,
                naming,
                options,
                asked,
            },
        ) => list_all(
            rt,
            stories.as_slice(),
            &roots,
            &naming,
            options,
            &asked,
            paths.is_some(),
        ),
        _ if !are_text => tell_no_text(rt),
        Ok(Choice::Play { story, options }) => match option_on_story(rt, story, &options) {
            Some(option) => tell_usage(rt, &story_named(rt.alloc(), option)),
            None => play_story(rt, story, options),
        },
        Ok(Choice::Test { paths, options }) => test(rt, paths.as_slice(), options),
        Ok(
            Choice::Cover {
                paths,
                sources,
                options,
            },
        ) => report_coverage(rt, paths.as_slice(), sources.as_slice(), options),
        Ok(Choice::Unpack { file, out }) => unpack(rt, file, out),
        Ok(
            Choice::Page {
                story,
                out,
                options,
            },
        ) => make_story_page(rt, story, out, &options),
        Err(error) => {
            let status = tell_usage(rt, &error);
            tell_command(rt, arguments, &error);
            status
        }
    }
}

/// An argument that the program is called with, by its number, if there are so many.
fn read_argument(rt: &HostRuntime, number: usize) -> Result<Option<String>, AllocError> {
    let mut bytes = vec![in rt.alloc(); 0; MOST_BYTES]?;
    match rt.arg(number, bytes.as_mut_slice()) {
        Ok(count) => Ok(Some(argument_of(rt.alloc(), &bytes[..count])?)),
        Err(FillError::NotPresent) => Ok(None),
        Err(FillError::TooLong) => Err(AllocError),
    }
}

/// The arguments that the program is called with, its name first, where one of them is no text.
fn read_arguments_apart(rt: &HostRuntime) -> io::Result<Vec<String>> {
    let mut arguments = Vec::new(rt.alloc());
    for number in 0..usize::MAX {
        match read_argument(rt, number)? {
            Some(argument) => arguments.push(argument)?,
            None => break,
        }
    }
    Ok(arguments)
}

/// The arguments that the program is called with, its name first.
fn read_arguments(rt: &HostRuntime) -> io::Result<Vec<String>> {
    match env::args(rt) {
        Ok(arguments) => Ok(arguments.collect(rt.alloc())?),
        Err(error) if error.kind() == io::ErrorKind::InvalidData => read_arguments_apart(rt),
        Err(error) => Err(error),
    }
}

/// Opens the null device where one of the first numbers of open files is free, up to `last`, and leaves it open.
fn hold(rt: &HostRuntime, how: &OpenOptions, last: RawFd) {
    match how.open(rt, "/dev/null") {
        Ok(file) if file.as_raw_fd() <= last => {
            file.into_raw_fd();
        }
        _ => {}
    }
}

/// Sees that no file that is opened later gets the number of standard input, output or errors (0, 1, 2), where that is
/// closed. A read or a write there fails, as it does where it is closed.
fn hold_numbers(rt: &HostRuntime) {
    hold(rt, OpenOptions::new().write(true), 0);
    hold(rt, OpenOptions::new().read(true), 2);
    hold(rt, OpenOptions::new().read(true), 2);
}

fn main(rt: HostRuntime) -> ExitCode {
    hold_numbers(&rt);
    let status = match read_arguments(&rt) {
        Ok(arguments) => match paths_listed(&rt, arguments.as_slice()) {
            None => answer(&rt, arguments.as_slice(), None),
            // an empty list asks for nothing
            Some(Ok(paths)) if paths.is_empty() => 0,
            Some(Ok(paths)) => answer(&rt, arguments.as_slice(), Some(paths.as_slice())),
            Some(Err(error)) => tell_unread(&rt, "the list of paths", error),
        },
        Err(_) => out_of_memory(&rt),
    };
    ExitCode::from(status)
}
