// The line before a listing, where a story is one of several.

ghost use Rattle.std.specs.Prelude.{◌≡◌, ◌||◌, ◌++◌, codes, false, is_err, None, Some, option_map};
ghost use Rattle.std.specs.List.{flat_map};
ghost use Rattle.zk_term.specs.LineWriters.{Wrote};
ghost use Rattle.zk_program.specs.Headings.{behind_path, heading};
ghost use Rattle.zk_program.specs.LastLine.{refused_words, unread_words};
ghost use Rattle.zk_program.specs.declared.exit.Exit.TheVariants.{Refused, Unread};

use crate::exit::Exit;
use itoa::Buffer;
use std::io::ErrorKind;
use zk_mem::story::OpenError;
use zk_term::line_writer::{LineWriter, TargetWriter};
use zk_term::target::{Failed, Target};
use zk_term::writing::write_texts;

/// Writes texts one after another.
fn write_parts<S: Target>(screen: &mut S, texts: &[&[u8]]) -> Result<(), Failed>
    ensures text { Wrote (is_err result) (S.taken screen.old) (S.taken screen.new)
        (flat_map (λ t. t.now) texts.now) }
    ensures failed { S.failed screen.new ≡ (is_err result || S.failed screen.old) }
{
    let mut writer = TargetWriter::new(screen);
    write_texts(&mut writer, texts);
    writer.finish()
}

/// Writes that a file can't be read.
fn write_unread<S: Target>(screen: &mut S, path: &str, kind: ErrorKind) -> Result<(), Failed>
    ensures text { Wrote (is_err result) (S.taken screen.old) (S.taken screen.new)
        (path.now ++ (codes ": " ++ (unread_words kind ++ codes "\n"))) }
    ensures failed { S.failed screen.new ≡ (is_err result || S.failed screen.old) }
{
    match kind {
        ErrorKind::OutOfMemory => write_parts(
            screen,
            &[path.as_bytes(), b": ", b"out of memory", b"\n"],
        ),
        _ => write_parts(screen, &[path.as_bytes(), b": ", b"read failed", b"\n"]),
    }
}

/// Writes which refusal a file meets that is no story.
fn write_refused<S: Target>(screen: &mut S, path: &str, error: &OpenError) -> Result<(), Failed>
    ensures text { Wrote (is_err result) (S.taken screen.old) (S.taken screen.new)
        (path.now ++ (codes ": " ++ (refused_words error.now ++ codes "\n"))) }
    ensures failed { S.failed screen.new ≡ (is_err result || S.failed screen.old) }
{
    match error {
        OpenError::OutOfMemory => write_parts(
            screen,
            &[path.as_bytes(), b": ", b"out of memory", b"\n"],
        ),
        _ => {
            let mut decimal = Buffer::new();
            let number = decimal.format(error.number()).as_bytes();
            write_parts(
                screen,
                &[path.as_bytes(), b": ", b"refused ", number, b"\n"],
            )
        }
    }
}

/// Writes the line before a listing, by the path of one of several stories; where that one is not listed the line says
/// why.
pub fn write_heading<S: Target>(
    screen: &mut S,
    path: Option<&str>,
    refused: Option<&Exit>,
) -> Result<(), Failed>
    ensures text { Wrote (is_err result) (S.taken screen.old) (S.taken screen.new)
        (heading (option_map (λ p. p.now) path.entry) (option_map (λ e. e.now) refused.entry)) }
    ensures failed { S.failed screen.new ≡ (is_err result || S.failed screen.old) }
    ensures alone { path.entry ≡ None → is_err result ≡ false }
{
    let Some(shown) = path else {
        return Ok(());
    };
    match refused {
        Some(Exit::Unread(error)) => write_unread(screen, shown, error.kind()),
        Some(Exit::Refused(error)) => write_refused(screen, shown, error),
        _ => write_parts(screen, &[shown.as_bytes(), b":\n"]),
    }
}
