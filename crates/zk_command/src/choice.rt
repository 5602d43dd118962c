// What the arguments of the command line ask for.

ghost use Rattle.std.specs.Prelude.{◌≡◌, ◌≤◌, ◌⊎◌, ℕ, List, codes, IfErr, IfNone, IfOk, IfSome, OnErr, SomeIff, Option};
ghost use Rattle.std.specs.Prelude.{Some, false, map, option_map};
ghost use Rattle.clap.specs.Words.{app_of, first_of, found_of, kind_of, rows_of};
ghost use Rattle.clap.specs.declared.error.ErrorKind.TheVariants.{OutOfMemory};
ghost use Rattle.zk_vm.specs.Bounds.{AreInRange};
ghost use Rattle.zk_vm.specs.declared.limits.Limits.{Limits};
ghost use Rattle.zk_command.specs.declared.choice.Choice.{Choice};
ghost use Rattle.zk_command.specs.declared.settings.Asked.{Asked};
ghost use Rattle.zk_command.specs.declared.settings.Amount.{Amount};
ghost use Rattle.zk_command.specs.declared.settings.PlayOptions.{PlayOptions};
ghost use Rattle.zk_command.specs.CommandLine.{AreTexts, Asks, HasLimits, IsAmount, IsNamed, IsNumberIn, IsOtherName};
ghost use Rattle.zk_command.specs.CommandLine.{SaysCover, SaysNaming, SaysPage, SaysTest};
ghost use Rattle.zk_command.specs.CommandLine.{IsRefusedWith, MaySayAmount, MetSays, Says, SaysAsked, SaysLimits};
ghost use Rattle.zk_command.specs.CommandLine.{SaysNumber, SaysOptions, SaysRoots, SaysSeed, SaysStory, command_line};
ghost use Rattle.zk_command.specs.CommandLine.{flag_said, form_said, number_in};
ghost use Rattle.zk_command.specs.CommandLine.{sections_named, sections_said};
ghost use Rattle.zk_command.specs.CommandLine.{show_said, usage_status, view_said};
ghost use Rattle.zk_command.specs.CommandLine.{word_of};

use crate::command_line::{command_line_of, command_of};
use crate::options::{
    COVER, CommandTable, FRAMES, NumberOption, PAGE, PLAY, SEED, STEPS, UNDO, WIDTH, WORDS,
};
use crate::settings::{
    Amount, Asked, CoverOptions, Form, Naming, PageOptions, PlayOptions, Roots, ShowOptions,
    TestOptions,
};
use clap::error::ErrorKind;
use clap::{ArgMatches, Command, Error};
use std::alloc::{AllocError, Global};
use zk_inspect::section::{SECTIONS, Section};
use zk_mem::memory::ScreenSetup;
use zk_step::state::game_state::View;
use zk_vm::limits::Limits;

/// What the program is asked to do.
#[derive(Drop)]
pub enum Choice<'a> {
    /// To play the story in a file.
    Play {
        story: &'a str,
        options: PlayOptions<'a>,
    },
    /// To list the stories in files, one at least.
    Show {
        stories: Vec<&'a str>,
        roots: Roots<'a>,
        naming: Naming<'a>,
        options: ShowOptions,
        asked: Asked,
    },
    /// To play walkthroughs, or those in folders, one path at least, and to compare what they show with transcripts, or
    /// to write these.
    Test {
        paths: Vec<&'a str>,
        options: TestOptions<'a>,
    },
    /// To tell what ran of a story. The paths are those of coverage files, one at least, and then that of the story;
    /// `sources` are folders in which the source is looked for.
    Cover {
        paths: Vec<&'a str>,
        sources: Vec<&'a str>,
        options: CoverOptions<'a>,
    },
    /// To write the story of a Blorb file to a file.
    Unpack {
        file: &'a str,
        out: &'a str,
    },
    /// To write a page that plays a story to a file.
    Page {
        story: &'a str,
        out: &'a str,
        options: PageOptions<'a>,
    },
}

/// The number that an argument says, if it lies in a range.
pub(crate) fn number_from(argument: &str, number: NumberOption) -> Option<u64>
    ensures { SomeIff result (IsNumberIn number.least number.most argument.now) (number_in argument.now) }
{
    match argument.parse::<u64>() {
        Ok(n) if n >= number.least && n <= number.most => Some(n),
        _ => None,
    }
}

/// The number of an option, if it lies in its range.
fn number_of(matches: &ArgMatches<'_>, number: NumberOption) -> Option<u64>
    ensures says { IfSome result
        (λ n. SaysNumber (rows_of (found_of matches.now)) number.name.now number.least number.most n) }
    ensures least { IfSome result (λ n. number.least ≤ n) }
    ensures most { IfSome result (λ n. n ≤ number.most) }
    ensures none { IfNone result ((n : ℕ)
        → SaysNumber (rows_of (found_of matches.now)) number.name.now number.least number.most n → ⊥) }
{
    let Some(argument) = matches.get_str(number.name) else {
        return None;
    };
    number_from(argument, number)
}

/// An error of the command line.
fn usage_error(command: &mut Command<'_>, kind: ErrorKind, text: &str) -> Error
    requires { 1 ≤ usage_status kind }
    ensures { 1 ≤ usage_status (kind_of result) }
{
    match command.error(kind, text) {
        Ok(error) => error,
        Err(error) => Error::from(error),
    }
}

/// An error of the arguments of a command, with its usage, by how it is called.
fn command_error(
    alloc: Global,
    table: CommandTable,
    called: &str,
    kind: ErrorKind,
    text: &str,
) -> Error
    requires { 1 ≤ usage_status kind }
    ensures { 1 ≤ usage_status (kind_of result) }
{
    match command_of(alloc, table) {
        Err(error) => Error::from(error),
        Ok(command) => match command.bin_name(called) {
            Err(error) => Error::from(error),
            Ok(mut command) => usage_error(&mut command, kind, text),
        },
    }
}

/// An error of an option of `play`.
fn option_error(alloc: Global, text: &str) -> Error
    ensures { 1 ≤ usage_status (kind_of result) }
{
    command_error(alloc, PLAY, "zkit play", ErrorKind::ValueValidation, text)
}

/// The error of an option that is no number in its range.
fn out_of_range(alloc: Global, number: NumberOption) -> Error
    ensures { 1 ≤ usage_status (kind_of result) }
{
    let NumberOption {
        name,
        least,
        most,
        ..
    } = number;
    match format!(in alloc; "'--{name} <n>' takes a number from {least} to {most}") {
        Ok(text) => option_error(alloc, text.as_str()),
        Err(error) => Error::from(error),
    }
}

/// The number of an option that always has one, or the error where it lies out of its range.
fn number_or_error(
    alloc: Global,
    matches: &ArgMatches<'_>,
    number: NumberOption,
) -> Result<u64, Error>
    ensures says { IfOk result
        (λ n. SaysNumber (rows_of (found_of matches.now)) number.name.now number.least number.most n) }
    ensures least { IfOk result (λ n. number.least ≤ n) }
    ensures most { IfOk result (λ n. n ≤ number.most) }
    ensures mistake { IfErr result (λ e. 1 ≤ usage_status (kind_of e)) }
    ensures none { OnErr result ((n : ℕ)
        → SaysNumber (rows_of (found_of matches.now)) number.name.now number.least number.most n → ⊥) }
{
    match number_of(matches, number) {
        Some(n) => Ok(n),
        None => Err(out_of_range(alloc, number)),
    }
}

/// The error of an option that names the story's own file.
pub fn story_named(alloc: Global, option: &str) -> Error
    ensures { 1 ≤ usage_status (kind_of result) }
{
    match format!(in alloc; "'--{option} <FILE>' names the story itself, which would be lost") {
        Ok(text) => option_error(alloc, text.as_str()),
        Err(error) => Error::from(error),
    }
}

/// The limits that the options of `play` say.
fn limits_of(alloc: Global, play: &ArgMatches<'_>) -> Result<Limits, Error>
    ensures says { IfOk result (λ l. SaysLimits (rows_of (found_of play.now)) l) }
    ensures in_range { IfOk result (λ l. AreInRange l) }
    ensures mistake { IfErr result (λ e. 1 ≤ usage_status (kind_of e)) }
    ensures says_none { OnErr result
        ((l : Limits) → SaysLimits (rows_of (found_of play.now)) l → ⊥) }
{
    let frames = number_or_error(alloc, play, FRAMES)?;
    let words = number_or_error(alloc, play, WORDS)?;
    let undo = number_or_error(alloc, play, UNDO)?;
    let steps = number_or_error(alloc, play, STEPS)?;
    Ok(Limits {
        frames: frames as u16,
        words: words as u16,
        undo: undo as u8,
        steps: steps as u32,
        screen: ScreenSetup::plain(),
    })
}

/// Whether a flag is given.
fn has_flag(matches: &ArgMatches<'_>, name: &str) -> bool
    ensures { result ≡ flag_said (first_of name.now (rows_of (found_of matches.now))) }
{
    match matches.get_str(name) {
        Some(argument) => argument == "true",
        None => false,
    }
}

/// The view that the options of `play` say.
fn view_of(play: &ArgMatches<'_>) -> View
    ensures { result ≡ view_said (rows_of (found_of play.now)) }
{
    if has_flag(play, "upper") {
        View::Upper
    } else {
        View::Plain
    }
}

/// The number that an argument says: one in a range, or one that the program finds.
fn amount_from(argument: &str, number: NumberOption) -> Option<Amount>
    ensures says { IfSome result
        (IsAmount number.least number.most (word_of number) argument.now) }
    ensures none { IfNone result ((a : Amount)
        → IsAmount number.least number.most (word_of number) argument.now a → ⊥) }
{
    match number.word {
        Some(word) if argument == word => Some(Amount::Found),
        _ => match number_from(argument, number) {
            Some(n) => Some(Amount::Number(n)),
            None => None,
        },
    }
}

/// The number of an option that may be left out.
fn amount_of(
    alloc: Global,
    play: &ArgMatches<'_>,
    number: NumberOption,
) -> Result<Option<Amount>, Error>
    ensures says { IfOk result (λ a. MaySayAmount (rows_of (found_of play.now)) number.name.now
        number.least number.most (word_of number) a) }
    ensures mistake { IfErr result (λ e. 1 ≤ usage_status (kind_of e)) }
    ensures says_none { OnErr result ((a : Option Amount)
        → MaySayAmount (rows_of (found_of play.now)) number.name.now number.least number.most
        (word_of number) a → ⊥) }
{
    let Some(argument) = play.get_str(number.name) else {
        return Ok(None);
    };
    match amount_from(argument, number) {
        Some(amount) => Ok(Some(amount)),
        None => Err(out_of_range(alloc, number)),
    }
}

/// The seed that the options of `play` say.
fn seed_of(alloc: Global, play: &ArgMatches<'_>) -> Result<Amount, Error>
    ensures says { IfOk result (λ a. SaysSeed (rows_of (found_of play.now)) a) }
    ensures mistake { IfErr result (λ e. 1 ≤ usage_status (kind_of e)) }
    ensures says_none { OnErr result
        ((a : Amount) → SaysSeed (rows_of (found_of play.now)) a → ⊥) }
{
    match amount_of(alloc, play, SEED) {
        Ok(Some(seed)) => Ok(seed),
        Ok(None) => Err(out_of_range(alloc, SEED)),
        Err(error) => Err(error),
    }
}

/// The text of an option, if it is given.
fn text_of<'a>(found: &ArgMatches<'a>, name: &str) -> Option<&'a str>
    ensures { option_map (λ s. s.now) result ≡ first_of name.now (rows_of (found_of found.now)) }
{
    found.get_str(name)
}

/// What the options of `play` say.
fn options_of<'a>(alloc: Global, play: &ArgMatches<'a>) -> Result<PlayOptions<'a>, Error>
    ensures says { IfOk result (λ o. SaysOptions (rows_of (found_of play.now)) o) }
    ensures in_range { IfOk result (λ o. AreInRange o.limits) }
    ensures mistake { IfErr result (λ e. 1 ≤ usage_status (kind_of e)) }
    ensures says_none { OnErr result
        ((o : PlayOptions) → SaysOptions (rows_of (found_of play.now)) o → ⊥) }
{
    let limits = limits_of(alloc, play)?;
    let seed = seed_of(alloc, play)?;
    let width = amount_of(alloc, play, WIDTH)?;
    let page = amount_of(alloc, play, PAGE)?;
    let save = text_of(play, "save");
    let saves = text_of(play, "saves");
    let script = text_of(play, "script");
    let recorded = text_of(play, "record");
    let cover = text_of(play, "cover");
    let names = text_of(play, "names");
    Ok(PlayOptions {
        limits,
        seed,
        view: view_of(play),
        boxes: has_flag(play, "boxes"),
        save,
        saves,
        script,
        recorded,
        width,
        page,
        styles: has_flag(play, "styles"),
        echo: has_flag(play, "echo"),
        calls: has_flag(play, "calls"),
        cover,
        names,
    })
}

/// The path of the story.
fn story_of<'a>(command: &mut Command<'_>, matches: &ArgMatches<'a>) -> Result<&'a str, Error>
    ensures says { IfOk result (λ s. SaysStory (rows_of (found_of matches.now)) s.now) }
    ensures mistake { IfErr result (λ e. 1 ≤ usage_status (kind_of e)) }
    ensures says_none { OnErr result
        ((path : List ℕ) → SaysStory (rows_of (found_of matches.now)) path → ⊥) }
{
    let Some(story) = matches.get_str("STORY") else {
        let text = "the story's path is missing";
        return Err(usage_error(command, ErrorKind::MissingRequiredArgument, text));
    };
    Ok(story)
}

/// What the options of `play` ask for.
fn choose_play<'a>(
    alloc: Global,
    command: &mut Command<'_>,
    play: &ArgMatches<'a>,
) -> Result<Choice<'a>, Error>
    ensures says { IfOk result (λ c. Says (codes "play") (rows_of (found_of play.now)) c) }
    ensures in_range { IfOk result (λ c. HasLimits c) }
    ensures mistake { IfErr result (λ e. 1 ≤ usage_status (kind_of e)) }
    ensures says_none { OnErr result
        ((c : Choice) → Says (codes "play") (rows_of (found_of play.now)) c → ⊥) }
{
    let story = story_of(command, play)?;
    let options = options_of(alloc, play)?;
    Ok(Choice::Play { story, options })
}

/// A path that has to be given.
fn path_of<'a>(
    command: &mut Command<'_>,
    found: &ArgMatches<'a>,
    name: &str,
) -> Result<&'a str, Error>
    ensures says { IfOk result
        (λ s. first_of name.now (rows_of (found_of found.now)) ≡ Some s.now) }
    ensures mistake { IfErr result (λ e. 1 ≤ usage_status (kind_of e)) }
    ensures says_none { OnErr result ((path : List ℕ)
        → first_of name.now (rows_of (found_of found.now)) ≡ Some path → ⊥) }
{
    let Some(path) = text_of(found, name) else {
        let text = "a file's path is missing";
        return Err(usage_error(command, ErrorKind::MissingRequiredArgument, text));
    };
    Ok(path)
}

/// What `unpack` asks for.
fn choose_unpack<'a>(command: &mut Command<'_>, found: &ArgMatches<'a>) -> Result<Choice<'a>, Error>
    ensures says { IfOk result (λ c. Says (codes "unpack") (rows_of (found_of found.now)) c) }
    ensures in_range { IfOk result (λ c. HasLimits c) }
    ensures mistake { IfErr result (λ e. 1 ≤ usage_status (kind_of e)) }
    ensures says_none { OnErr result
        ((c : Choice) → Says (codes "unpack") (rows_of (found_of found.now)) c → ⊥) }
{
    let file = path_of(command, found, "FILE")?;
    let out = path_of(command, found, "OUT")?;
    Ok(Choice::Unpack { file, out })
}

/// What the options of `page` say.
fn page_options_of<'a>(found: &ArgMatches<'a>) -> PageOptions<'a>
    ensures { SaysPage (rows_of (found_of found.now)) result }
{
    PageOptions {
        title: text_of(found, "title"),
        author: text_of(found, "author"),
        blurb: text_of(found, "blurb"),
        cover: text_of(found, "cover"),
        walkthrough: text_of(found, "walkthrough"),
    }
}

/// What `page` asks for.
fn choose_page<'a>(command: &mut Command<'_>, found: &ArgMatches<'a>) -> Result<Choice<'a>, Error>
    ensures says { IfOk result (λ c. Says (codes "page") (rows_of (found_of found.now)) c) }
    ensures in_range { IfOk result (λ c. HasLimits c) }
    ensures mistake { IfErr result (λ e. 1 ≤ usage_status (kind_of e)) }
    ensures says_none { OnErr result
        ((c : Choice) → Says (codes "page") (rows_of (found_of found.now)) c → ⊥) }
{
    let story = story_of(command, found)?;
    let out = path_of(command, found, "OUT")?;
    let options = page_options_of(found);
    Ok(Choice::Page {
        story,
        out,
        options,
    })
}

/// What a command lists, by its name, what clap found for it, and the sections that are asked for.
fn asked_of(name: &str, found: &ArgMatches<'_>, sections: Vec<Section>) -> Option<Asked>
    requires { sections.items ≡ sections_said (rows_of (found_of found.now)) }
    ensures says { IfSome result (λ a. SaysAsked name.now (rows_of (found_of found.now)) a) }
    ensures says_none { IfNone result
        ((a : Asked) → SaysAsked name.now (rows_of (found_of found.now)) a → ⊥) }
{
    if name == "info" {
        Some(Asked::Sections(sections))
    } else if name == "disasm" {
        Some(Asked::Code {
            all: has_flag(found, "all"),
        })
    } else if name == "check" {
        Some(Asked::Findings)
    } else {
        None
    }
}

/// In which form listings are shown, by the options of a command.
fn form_of(found: &ArgMatches<'_>) -> Form
    ensures { result ≡ form_said (rows_of (found_of found.now)) }
{
    if has_flag(found, "json") {
        Form::Json
    } else if has_flag(found, "rows") {
        Form::Rows
    } else if has_flag(found, "graph") {
        Form::Graph
    } else if has_flag(found, "svg") {
        Form::Picture
    } else {
        Form::Lines
    }
}

/// How a command that lists stories looks for them and shows them.
fn show_options_of(found: &ArgMatches<'_>) -> ShowOptions
    ensures { result ≡ show_said (rows_of (found_of found.now)) }
{
    ShowOptions {
        recursive: has_flag(found, "recursive"),
        form: form_of(found),
        notes: has_flag(found, "notes"),
        summary: has_flag(found, "summary"),
        callers: has_flag(found, "callers"),
        only: has_flag(found, "only"),
    }
}

/// By which names a listing is shown, with the folders of the source.
fn naming_of<'a>(found: &ArgMatches<'a>, sources: Vec<&'a str>) -> Naming<'a>
    requires { AreTexts (λ s. s.now) (rows_of (found_of found.now)) (codes "source") sources.items }
    ensures { SaysNaming (rows_of (found_of found.now)) result }
{
    Naming {
        names: text_of(found, "names"),
        sources,
        around: text_of(found, "around"),
        depth: text_of(found, "depth"),
    }
}

/// What a command names: the paths of stories or walkthroughs, the sections that are listed, where code is looked for,
/// and the folders of the source.
#[derive(Drop)]
struct Named<'a> {
    paths: Vec<&'a str>,
    sections: Vec<Section>,
    roots: Roots<'a>,
    sources: Vec<&'a str>,
}

/// What a command that lists stories asks for, by its name, what clap found for it, and what it names.
fn choose_listing<'a>(
    command: &mut Command<'_>,
    name: &str,
    found: &ArgMatches<'a>,
    named: Named<'a>,
) -> Result<Choice<'a>, Error>
    requires other { IsOtherName name.now }
    requires named { IsNamed (rows_of (found_of found.now)) named }
    ensures says { IfOk result (λ c. Says name.now (rows_of (found_of found.now)) c) }
    ensures in_range { IfOk result (λ c. HasLimits c) }
    ensures mistake { IfErr result (λ e. 1 ≤ usage_status (kind_of e)) }
    ensures says_none { OnErr result
        ((c : Choice) → Says name.now (rows_of (found_of found.now)) c → ⊥) }
{
    match asked_of(name, found, named.sections) {
        Some(asked) if !named.paths.is_empty() => {
            let options = show_options_of(found);
            let naming = naming_of(found, named.sources);
            Ok(Choice::Show {
                stories: named.paths,
                roots: named.roots,
                naming,
                options,
                asked,
            })
        }
        Some(_) => {
            let text = "the story's path is missing";
            Err(usage_error(command, ErrorKind::MissingRequiredArgument, text))
        }
        None => {
            let text =
                "the commands are 'play', 'info', 'disasm', 'check', 'test', 'cover', 'unpack' and 'page'";
            Err(usage_error(command, ErrorKind::InvalidSubcommand, text))
        }
    }
}

/// What the options of `test` say.
fn test_options_of<'a>(found: &ArgMatches<'a>) -> TestOptions<'a>
    ensures { SaysTest (rows_of (found_of found.now)) result }
{
    TestOptions {
        story: text_of(found, "story"),
        bless: has_flag(found, "bless"),
        cover: text_of(found, "cover"),
        names: text_of(found, "names"),
        strict: has_flag(found, "strict"),
    }
}

/// What `test` asks for, by what clap found for it, and the paths that it names.
fn choose_test<'a>(
    command: &mut Command<'_>,
    found: &ArgMatches<'a>,
    named: Named<'a>,
) -> Result<Choice<'a>, Error>
    requires { IsNamed (rows_of (found_of found.now)) named }
    ensures says { IfOk result (λ c. Says (codes "test") (rows_of (found_of found.now)) c) }
    ensures in_range { IfOk result (λ c. HasLimits c) }
    ensures mistake { IfErr result (λ e. 1 ≤ usage_status (kind_of e)) }
    ensures says_none { OnErr result
        ((c : Choice) → Says (codes "test") (rows_of (found_of found.now)) c → ⊥) }
{
    if named.paths.is_empty() {
        let text = "the path of a walkthrough is missing";
        return Err(usage_error(command, ErrorKind::MissingRequiredArgument, text));
    }
    Ok(Choice::Test {
        paths: named.paths,
        options: test_options_of(found),
    })
}

/// What the options of `cover` say.
fn cover_options_of<'a>(found: &ArgMatches<'a>) -> CoverOptions<'a>
    ensures { SaysCover (rows_of (found_of found.now)) result }
{
    CoverOptions {
        names: text_of(found, "names"),
        lcov: text_of(found, "lcov"),
        html: text_of(found, "html"),
    }
}

/// What `cover` asks for, by what clap found for it, and what it names.
fn choose_cover<'a>(
    alloc: Global,
    found: &ArgMatches<'a>,
    named: Named<'a>,
) -> Result<Choice<'a>, Error>
    requires { IsNamed (rows_of (found_of found.now)) named }
    ensures says { IfOk result (λ c. Says (codes "cover") (rows_of (found_of found.now)) c) }
    ensures in_range { IfOk result (λ c. HasLimits c) }
    ensures mistake { IfErr result (λ e. 1 ≤ usage_status (kind_of e)) }
    ensures says_none { OnErr result
        ((c : Choice) → Says (codes "cover") (rows_of (found_of found.now)) c → ⊥) }
{
    if named.paths.len() < 2 {
        let text = "the paths of a coverage file and of its story are needed";
        let kind = ErrorKind::MissingRequiredArgument;
        return Err(command_error(alloc, COVER, "zkit cover", kind, text));
    }
    Ok(Choice::Cover {
        paths: named.paths,
        sources: named.sources,
        options: cover_options_of(found),
    })
}

/// What a command asks for, by its name, what clap found for it, and what it names.
fn choose_by<'a>(
    alloc: Global,
    command: &mut Command<'_>,
    name: &str,
    found: &ArgMatches<'a>,
    named: Named<'a>,
) -> Result<Choice<'a>, Error>
    requires { IsNamed (rows_of (found_of found.now)) named }
    ensures says { IfOk result (λ c. Says name.now (rows_of (found_of found.now)) c) }
    ensures in_range { IfOk result (λ c. HasLimits c) }
    ensures mistake { IfErr result (λ e. 1 ≤ usage_status (kind_of e)) }
    ensures says_none { OnErr result
        ((c : Choice) → Says name.now (rows_of (found_of found.now)) c → ⊥) }
{
    if name == "play" {
        choose_play(alloc, command, found)
    } else if name == "unpack" {
        choose_unpack(command, found)
    } else if name == "page" {
        choose_page(command, found)
    } else if name == "test" {
        choose_test(command, found, named)
    } else if name == "cover" {
        choose_cover(alloc, found, named)
    } else {
        choose_listing(command, name, found, named)
    }
}

/// The texts of an option or a path that may be given several times.
fn texts_of<'a>(
    alloc: Global,
    found: &ArgMatches<'a>,
    name: &str,
) -> Result<Vec<&'a str>, AllocError>
    ensures { IfOk result (λ v. AreTexts (λ s. s.now) (rows_of (found_of found.now)) name.now v.items) }
{
    let mut list = Vec::new(alloc);
    if let Some(texts) = found.get_strs(name) {
        list.extend_from_slice(texts)?;
    }
    Ok(list)
}

/// Where code is looked for.
fn roots_of<'a>(alloc: Global, found: &ArgMatches<'a>) -> Result<Roots<'a>, AllocError>
    ensures { IfOk result (λ r. SaysRoots (rows_of (found_of found.now)) r) }
{
    let at = texts_of(alloc, found, "at")?;
    let routines = texts_of(alloc, found, "routine")?;
    Ok(Roots {
        at,
        routines,
        cover: text_of(found, "cover"),
    })
}

/// The sections that flags name, in the order in which they are shown.
fn sections_named(alloc: Global, found: &ArgMatches<'_>) -> Result<Vec<Section>, AllocError>
    ensures { IfOk result (λ v. v.items ≡ sections_named (rows_of (found_of found.now))) }
{
    let mut sections = Vec::new(alloc);
    for section in &SECTIONS {
        if has_flag(found, section.name()) {
            sections.push(*section)?;
        }
    }
    Ok(sections)
}

/// The sections that are asked for: the header where none is named.
fn sections_of(alloc: Global, found: &ArgMatches<'_>) -> Result<Vec<Section>, AllocError>
    ensures { IfOk result (λ v. v.items ≡ sections_said (rows_of (found_of found.now))) }
{
    let mut sections = sections_named(alloc, found)?;
    if sections.is_empty() {
        sections.push(Section::Header)?;
    }
    Ok(sections)
}

/// What a command names.
fn named_in<'a>(alloc: Global, found: &ArgMatches<'a>) -> Result<Named<'a>, AllocError>
    ensures { IfOk result (λ n. IsNamed (rows_of (found_of found.now)) n) }
{
    let paths = texts_of(alloc, found, "STORY")?;
    let sections = sections_of(alloc, found)?;
    let roots = roots_of(alloc, found)?;
    let sources = texts_of(alloc, found, "source")?;
    Ok(Named {
        paths,
        sections,
        roots,
        sources,
    })
}

/// What a command asks for, by what clap has met.
fn choose_met<'a>(
    alloc: Global,
    command: &mut Command<'_>,
    matches: &ArgMatches<'a>,
) -> Result<Choice<'a>, Error>
    ensures says { IfOk result (λ c. MetSays matches.now c) }
    ensures in_range { IfOk result (λ c. HasLimits c) }
    ensures refused { IfErr result (λ e. (kind_of e ≡ OutOfMemory)
        ⊎ ((1 ≤ usage_status (kind_of e)) × ((c : Choice) → MetSays matches.now c → ⊥))) }
{
    let Some((name, found)) = matches.subcommand() else {
        let text = "a command is missing";
        return Err(usage_error(command, ErrorKind::MissingSubcommand, text));
    };
    let named = named_in(alloc, found)?;
    choose_by(alloc, command, name, found, named)
}

/// What the arguments ask for, by the command line.
fn choose_from<'a>(
    alloc: Global,
    command: &mut Command<'a>,
    arguments: &'a [&'a str],
) -> Result<Choice<'a>, Error>
    requires { app_of command.old ≡ command_line }
    ensures asks { IfOk result (λ c. Asks (map (λ s. s.now) arguments.entry.now) c) }
    ensures in_range { IfOk result (λ c. HasLimits c) }
    ensures refused { IfErr result (λ e. IsRefusedWith (map (λ s. s.now) arguments.entry.now) e) }
{
    let matches = command.try_get_matches_from_mut(arguments)?;
    choose_met(alloc, command, &matches)
}

/// What the arguments ask for, the first of which is the program's name.
pub fn choose<'a>(alloc: Global, arguments: &'a [&'a str]) -> Result<Choice<'a>, Error>
    ensures asks { IfOk result (λ c. Asks (map (λ s. s.now) arguments.entry.now) c) }
    ensures in_range { IfOk result (λ c. HasLimits c) }
    ensures refused { IfErr result (λ e. IsRefusedWith (map (λ s. s.now) arguments.entry.now) e) }
{
    let mut command = command_line_of(alloc)?;
    choose_from(alloc, &mut command, arguments)
}

/// The program's status after an error of the command line: 0 for help and the version, 5 where there is no memory, and
/// else 1.
pub fn usage_status_of(error: &Error) -> u8
    ensures { result ≡ usage_status (kind_of error.now) }
{
    match error.kind() {
        ErrorKind::DisplayHelp | ErrorKind::DisplayVersion => 0,
        ErrorKind::OutOfMemory => 5,
        _ => 1,
    }
}
