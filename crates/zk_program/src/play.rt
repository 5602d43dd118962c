// Playing a story from its file.

ghost use Rattle.std.specs.Prelude.{◌≡◌, false, IfOk};
ghost use Rattle.zk_vm.specs.Bounds.{AreInRange};
ghost use Rattle.zk_program.specs.Plans.{page_lines};

use crate::about::About;
use crate::boxes::{Look, play_with_boxes_and_report};
use crate::cover::CoverFile;
use crate::exit::Exit;
use crate::listing::open_listed;
use crate::names::{names_of, read_names, see_named};
use crate::opening::read_story;
use crate::playing::{Devices, PlayRequest, play_and_report};
use crate::told::{out_of_memory, tell_exit, tell_unmade};
use std::fs::{self, File};
use std::io::{self, Read, Write};
use zk_command::settings::{Amount, PlayOptions, Settings};
use zk_fast::places::{Places, Unnoted};
use zk_names::names::Names;
use zk_system::asking::{Asker, StandardOutput, TypedInput};
use zk_system::paged::Paged;
use zk_system::record::{Record, RecordFile, write_record_heading};
use zk_system::save_file::{SaveFile, SavePlace, tell_no_folder};
use zk_system::script::ScriptFile;
use zk_system::shown::Shown;
use zk_system::style_codes::StyleCodes;
use zk_system::style_marks::StyleMarks;
use zk_system::terminal::{
    assumes_columns, columns, is_shown_at, is_typed_at, lines, seed_of_clock,
};
use zk_system::typed_bytes::TypedBytes;
use zk_system::watched::Watched;
use zk_term::echo::Echo;
use zk_term::io_device::IoDevice;
use zk_term::wrapped::Wrapped;

/// Standard output.
pub fn screen_of<'a>(rt: &'a HostRuntime, about: &'a About) -> StandardOutput<'a>
    ensures { result.failed ≡ false }
{
    IoDevice::new(Watched::new(io::writer(rt), &about.screen))
}

/// What is typed, recorded in a file where there is one, and shown where that is asked for. By `bytewise` no byte of
/// another line is read ahead.
fn typed<'a>(
    rt: &'a HostRuntime,
    about: &'a About,
    record: Option<RecordFile<'a>>,
    bytewise: bool,
    echo: bool,
) -> TypedInput<'a>
    ensures { result.input.input.failed ≡ false }
{
    let input = IoDevice::new(TypedBytes::new(rt.stdin(), &about.input));
    Echo::new(
        Echo::new(input, Record::new(rt, record), bytewise),
        screen_of(rt, about),
        echo,
    )
}

/// The seed of a play. The one that the clock says is told, so that the play can be had again.
fn seed_by(rt: &HostRuntime, seed: Amount) -> u64 {
    match seed {
        Amount::Number(seed) => seed,
        Amount::Found => {
            let seed = seed_of_clock(rt);
            let _ = eprintln!(rt; "zkit: using --seed {seed}");
            seed
        }
    }
}

/// The columns of the screen's lines, where they are wrapped. Those that are assumed are told, so that the shell can
/// say them.
fn width_by(rt: &HostRuntime, width: Option<Amount>) -> Option<u8> {
    match width? {
        Amount::Number(columns) => u8::try_from(columns).ok(),
        Amount::Found => {
            let columns = columns(rt)?;
            if assumes_columns(rt) {
                let _ = eprintln!(rt;
                    "zkit: using --width {columns}; for the terminal's width, type: export COLUMNS"
                );
            }
            u8::try_from(columns).ok()
        }
    }
}

/// After how many lines a play waits for Enter, where it waits, by the lines of the terminal, if it is one that shows
/// what is typed: a line of the terminal is left for what asks for it.
fn page_of(page: Option<Amount>, lines: Option<u64>) -> Option<u64>
    ensures { result ≡ page_lines page lines }
{
    match (page, lines) {
        (Some(Amount::Number(page)), Some(_)) => Some(page),
        (Some(Amount::Found), Some(lines)) => Some(lines.saturating_sub(1)),
        _ => None,
    }
}

/// After how many lines a play waits for Enter, where it waits.
fn page_by(rt: &HostRuntime, page: Option<Amount>) -> Option<u64> {
    if is_typed_at(rt) {
        page_of(page, lines(rt))
    } else {
        None
    }
}

/// The name that is offered for a saved game: that of the story's file, with another ending.
fn name_offered(rt: &HostRuntime, story: &str) -> io::Result<String> {
    let name = match story.rsplit_once('/') {
        Some((_, name)) => name,
        None => story,
    };
    let stem = match name.rsplit_once('.') {
        Some((stem, _)) if !stem.is_empty() => stem,
        _ => name,
    };
    Ok(format!(in rt.alloc(); "{}.qzl", Shown(stem))?)
}

/// How many folders a path leads down to its file, where each is named.
fn folders_in(path: &str) -> Option<usize> {
    if path.starts_with('/') {
        return None;
    }
    let (folders, _) = path.rsplit_once('/')?;
    if folders
        .split('/')
        .any(|name| matches!(name, "" | "." | ".."))
    {
        return None;
    }
    Some(folders.split('/').count())
}

/// The path of a story, as it is from the folder of a record.
fn path_beside(rt: &HostRuntime, record: &str, story: &str) -> io::Result<String> {
    if story.starts_with('/') || !record.contains('/') {
        return Ok(String::from_str(rt.alloc(), story)?);
    }
    let Some(folders) = folders_in(record) else {
        return Ok(fs::canonicalize(rt, story)?.into_string());
    };
    let mut path = String::new(rt.alloc());
    for _k in 0..folders {
        path.push_str("../")?;
    }
    path.push_str(story)?;
    Ok(path)
}

/// Makes the file of a record, and writes the comments that begin it.
fn begin_record(
    rt: &HostRuntime,
    path: &str,
    story: &str,
    settings: &Settings,
    width: Option<u8>,
) -> io::Result<File> {
    let mut file = File::create(rt, path)?;
    let beside = path_beside(rt, path, story)?;
    let shown = format!(in rt.alloc(); "{}", Shown(beside.as_str()))?;
    let mut heading = IoDevice::new(Vec::new(rt.alloc()));
    if write_record_heading(&mut heading, shown.as_str(), settings, width).is_err() {
        return Err(io::ErrorKind::OutOfMemory.into());
    }
    file.write_all(heading.into_inner().as_slice())?;
    Ok(file)
}

/// Where saved games are kept, by options.
fn place_of<'a>(options: &PlayOptions<'a>) -> Option<SavePlace<'a>> {
    match (options.saves, options.save) {
        (Some(folder), _) => Some(SavePlace::Folder(folder)),
        (None, Some(path)) => Some(SavePlace::File(path)),
        (None, None) => None,
    }
}

/// Makes the file of a record where options name one; or answers the program's status, where it is told why it can't be
/// made.
fn record_of(
    rt: &HostRuntime,
    story: &str,
    options: &PlayOptions,
    settings: &Settings,
    width: Option<u8>,
) -> Result<Option<File>, u8> {
    let Some(path) = options.recorded else {
        return Ok(None);
    };
    match begin_record(rt, path, story, settings, width) {
        Ok(file) => Ok(Some(file)),
        Err(error) => Err(tell_unmade(rt, path, &error)),
    }
}

/// The bytes of a story, which told whether other files are of it, and the coverage file that a play adds to, if there
/// is one.
#[derive(Drop)]
pub struct Covering<'a> {
    story: Vec<u8>,
    file: Option<CoverFile<'a>>,
}

/// Sees that names are of a story, if there are some, and finds the coverage file for a play of it, if there is one; or
/// answers the program's status, where it is told why the story, the names or the file are not taken.
fn covering_of<'a>(
    rt: &HostRuntime,
    options: &PlayOptions<'a>,
    story: &File,
    about: &About,
) -> Result<Option<Covering<'a>>, u8> {
    if options.cover.is_none() && about.names.is_none() {
        return Ok(None);
    }
    let alloc = rt.alloc();
    let story = match read_story(alloc, story) {
        Ok(story) => story,
        Err(error) => return Err(tell_exit(rt, &Exit::Unread(error), about)),
    };
    let memory = match open_listed(alloc, story.as_slice(), about) {
        Ok(memory) => memory,
        Err(exit) => return Err(tell_exit(rt, &exit, about)),
    };
    see_named(rt, options.names, about.names.as_ref(), &memory)?;
    let file = match options.cover {
        Some(path) => Some(CoverFile::read(rt, path, &memory)?),
        None => None,
    };
    Ok(Some(Covering { story, file }))
}

/// A play that is asked for, with its files open.
#[derive(Drop)]
pub struct OpenPlay<'a, 'n> {
    story: File,
    about: About<'a, 'n>,
    options: PlayOptions<'a>,
    settings: Settings,
    /// The columns of the screen's lines, where they are wrapped.
    width: Option<u8>,
    /// Whether styles are shown.
    styles: bool,
    /// The file that gets the lines that are read.
    record: Option<File>,
}

impl<'a, 'n> OpenPlay<'a, 'n> {
    /// Opens the files of a play, the story's first, and finds what its coverage file has; or answers the program's
    /// status, where it is told why one can't be opened.
    pub fn new(
        rt: &HostRuntime,
        path: &'a str,
        options: PlayOptions<'a>,
        names: Option<Names<'n>>,
    ) -> Result<(OpenPlay<'a, 'n>, Option<Covering<'a>>), u8>
        requires { AreInRange options.limits }
        ensures { IfOk result (λ opened. AreInRange opened.0.settings.limits) }
    {
        let about = About {
            tells_calls: options.calls || names.is_some(),
            names,
            ..About::new(path, options.script.unwrap_or(""))
        };
        let settings = Settings {
            limits: options.limits,
            seed: seed_by(rt, options.seed),
            view: options.view,
        };
        let story = match File::open(rt, path) {
            Ok(story) => story,
            Err(error) => return Err(tell_exit(rt, &Exit::Unread(error), &about)),
        };
        let covering = covering_of(rt, &options, &story, &about)?;
        let width = width_by(rt, options.width);
        if let Some(folder) = options.saves {
            tell_no_folder(rt, folder);
        }
        let record = record_of(rt, path, &options, &settings, width)?;
        let opened = OpenPlay {
            story,
            about,
            options,
            settings,
            width,
            styles: options.styles && is_shown_at(rt),
            record,
        };
        Ok((opened, covering))
    }

    /// What is typed, as options say. No byte of another line may be read ahead where a question has its answer by a
    /// read of its own, or where a record has what was read alone.
    fn input<'r>(&'r self, rt: &'r HostRuntime) -> TypedInput<'r>
        ensures { result.input.input.failed ≡ false }
    {
        let options = &self.options;
        let bytewise = options.recorded.is_some() || options.saves.is_some();
        let record = match (options.recorded, &self.record) {
            (Some(path), Some(file)) => Some(RecordFile { path, file }),
            _ => None,
        };
        typed(rt, &self.about, record, bytewise, options.echo)
    }

    /// The screen, as options say.
    fn screen<'r>(
        &'r self,
        rt: &'r HostRuntime,
    ) -> Wrapped<Paged<'r, StyleCodes<StandardOutput<'r>>>>
        ensures { result.inner.screen.inner.failed ≡ false }
    {
        let output = StyleCodes::new(screen_of(rt, &self.about), self.styles);
        let typed = typed(rt, &self.about, None, false, false);
        let asker = Asker::new(rt, typed, &self.about.input);
        let page = page_by(rt, self.options.page);
        Wrapped::new(Paged::new(output, asker, page), self.width)
    }
}

/// Plays a story on the devices of an open play, notes where its instructions stand, and answers the program's status.
fn play_noting<'r, 'n, R: Read + Drop, P: Places>(
    rt: &'r HostRuntime,
    opened: &'r OpenPlay<'r, 'n>,
    story: R,
    places: &mut P,
) -> u8
    requires { AreInRange opened.now.settings.limits }
{
    let options = &opened.options;
    let Ok(offered) = name_offered(rt, opened.about.path) else {
        return out_of_memory(rt);
    };
    let names = Asker::new(rt, opened.input(rt), &opened.about.input);
    let devices = Devices {
        input: opened.input(rt),
        screen: opened.screen(rt),
        script: ScriptFile::new(rt, options.script, &opened.about.script),
        slot: SaveFile::new(rt, place_of(options), names, offered),
    };
    let request = PlayRequest {
        story,
        about: &opened.about,
        settings: opened.settings,
    };
    let errors = &mut IoDevice::new(rt.stderr());
    if options.boxes {
        let look = Look::new(opened.width, opened.styles);
        play_with_boxes_and_report(rt.alloc(), request, devices, places, look, errors)
    } else {
        let Devices {
            input,
            screen,
            script,
            slot,
        } = devices;
        let mut devices = Devices {
            input,
            screen: StyleMarks::new(screen, opened.styles),
            script,
            slot,
        };
        play_and_report(rt.alloc(), request, &mut devices, places, errors)
    }
}

/// Plays a story whose files are open, and answers the program's status. Where its instructions stand goes to its
/// coverage file, if there is one.
pub fn play<'r, 'n>(
    rt: &'r HostRuntime,
    opened: &'r OpenPlay<'r, 'n>,
    covering: Option<Covering<'r>>,
) -> u8
    requires { AreInRange opened.now.settings.limits }
{
    let Some(covering) = covering else {
        return play_noting(rt, opened, &opened.story, &mut Unnoted);
    };
    let Covering { story, file } = covering;
    let story = story.as_slice();
    match file {
        Some(mut file) => {
            let status = play_noting(rt, opened, story, &mut file.cover);
            file.write(rt, status)
        }
        None => play_noting(rt, opened, story, &mut Unnoted),
    }
}

/// Plays the story at a path, as options say, with the bytes of a debugging file, if there is one; and answers the
/// program's status.
fn play_told<'r>(
    rt: &'r HostRuntime,
    path: &'r str,
    options: PlayOptions<'r>,
    bytes: &'r Option<Vec<u8>>,
) -> u8
    requires { AreInRange options.limits }
{
    let names = match names_of(rt, options.names, bytes) {
        Ok(names) => names,
        Err(status) => return status,
    };
    match OpenPlay::new(rt, path, options, names) {
        Ok((opened, covering)) => play(rt, &opened, covering),
        Err(status) => status,
    }
}

/// Plays the story at a path, as options say, and answers the program's status.
pub fn play_story<'r>(rt: &'r HostRuntime, path: &'r str, options: PlayOptions<'r>) -> u8
    requires { AreInRange options.limits }
{
    match read_names(rt, options.names) {
        Ok(bytes) => play_told(rt, path, options, &bytes),
        Err(status) => status,
    }
}
