// Playing a story from C: what `library/raw.h` declares, on which `library/zkit.c` makes the functions of
// `include/zkit.h`.
#![tactic(auto)]

ghost use Rattle.std.specs.Prelude.{◌≡◌, ◌∷◌, ◌==◌, [], List, ℕ, None, Some, drop, length, min, not, unwrap_or};
ghost use Rattle.zk_blorb.specs.Blorb.{story_of};
ghost use Rattle.zk_blorb.specs.Looks.{looks_of, looks_text};
ghost use Rattle.zk_mem.specs.Header.{header_of};
ghost use Rattle.zk_term.specs.Windows.{row_cells, row_text, tallest_row_cells, tallest_row_text};
ghost use Rattle.zk_vm.specs.Sessions.{with_grid_forgotten, with_height};
ghost use Rattle.zk_vm.specs.Answers.Answer.{Typed, GameKept, File};
ghost use Rattle.zk_vm.specs.Plays.{codes_read};
ghost use Rattle.zk_host.specs.Texts.{IsPutInFront, IsTaken};
ghost use Rattle.zk_host.specs.Calls.{IsStatus, awaited, character_read, character_refused, line_refused};
ghost use Rattle.zk_host.specs.Calls.{done_unless, longest_snapshot, marks_from, restore_refused, save_refused};
ghost use Rattle.zk_host.specs.Calls.{split_refused};
ghost use Rattle.zk_host.specs.Changing.{move_of, word_of};
ghost use Rattle.zk_host.specs.Drawing.{longest_line, row_bytes, row_number, row_styles, window_of};
ghost use Rattle.zk_host.specs.Files.{IsStoryPut};
ghost use Rattle.zk_host.specs.Listings.{listing_numbered};
ghost use Rattle.zk_host.specs.Looking.{AreObjects, IsFrameTold, IsTold, frame_numbered, hash_at, locals_of};
ghost use Rattle.zk_host.specs.Looking.{object_numbered, place_figures, property_numbered, words_of};
ghost use Rattle.zk_host.specs.Names.{IsObjectName};
ghost use Rattle.zk_host.specs.Marks.{run_of, run_told, taken_from, with_styles};
ghost use Rattle.zk_host.specs.Numbers.{address_number, answer_number, reason_number, status_number};
ghost use Rattle.zk_host.specs.Exports.{IsAnswered, IsImaged, IsListed, IsOpened, IsOpenedAgain, IsSnapshotPut, IsTurn};
ghost use Rattle.zk_host.specs.Exports.{IsChanging, IsCloned, IsCovering, IsHeld, IsListedAt, IsListedPart};
ghost use Rattle.zk_host.specs.Exports.{IsOpenedBeside, IsRestoring};
ghost use Rattle.zk_host.specs.Exports.{IsResumedBeside, IsSeeded, IsUndo, OnPlay, facts_of, limits_said, view_if};

use std::alloc::Global;
use zk_host::drawing::{StatusFigures, WindowFigures};
use zk_host::facts::{Facts, facts_of};
use zk_host::files::{put_story, words_on_file};
use zk_host::handle::Zkit;
use zk_host::listing::listing_of;
use zk_host::looking::{FrameFigures, ObjectFigures, PlaceFigures, PropertyFigures};
use zk_host::marks::Run;
use zk_host::numbers::{
    address_number, answer_number, part_number, reason_number, refused_number, snapshot_number,
    status_number, turn_number,
};
use zk_host::options::{limits_said, view_if};
use zk_host::play::changing::{move_of, word_of};
use zk_host::play::{Play, SnapshotRefusal};
use zk_host::reasons::{words, words_on_open};
use zk_host::text::{put_file, put_front};

/// What is not awaited: a handle that is not open awaits nothing.
const NOT_AWAITED: u32 = 1;

/// There is no such open routine, object or property.
const NOT_THERE: u32 = 11;

/// A limit lies out of its range.
const BAD_LIMIT: u32 = 7;

// What the play of a handle answers; another answer is returned where the handle is not open.
macro_rules! on_play {
    ($alloc:ident, $game:ident, $none:expr, $play:ident => $does:expr) => {{
        let Some(mut $play) = $game.take($alloc) else {
            return $none;
        };
        let answer = $does;
        $game.put($alloc, $play);
        answer
    }};
}

/// Puts an opened play into a handle, in place of one that it may have. Answers 0, or why there is none.
fn hold(alloc: Global, game: &mut Zkit, opened: Result<Box<Play>, SnapshotRefusal>) -> u32
    ensures { IsHeld game.old.play game.new.play opened result }
{
    match opened {
        Ok(play) => {
            game.put(alloc, play);
            0
        }
        Err(refusal) => snapshot_number(refusal),
    }
}

/// Opens a story at its start, in place of one that the handle may have: `Machine::start` of `zk_vm`. Answers 0, or why
/// it is not opened: 1 to 6 are the numbers of `OpenError`, 7 a limit out of its range. Then the handle is as it
/// was. The screen
/// has so many columns, and unless `styles` is 0 the story is told that there is bold and italic text.
#[unsafe(no_mangle)]
pub extern "C" fn zk_open(
    alloc: Global,
    game: &mut Zkit,
    story: &[u8],
    seed: u64,
    frames: u32,
    words: u32,
    undo: u32,
    steps: u32,
    upper: u32,
    columns: u32,
    styles: u32,
) -> u32
    ensures { IsOpened game.old.play game.new.play story.now seed
        (limits_said frames words undo steps columns styles) (view_if upper) result }
{
    match limits_said(frames, words, undo, steps, columns, styles) {
        None => BAD_LIMIT,
        Some(limits) => match Play::open(alloc, story, seed, limits, view_if(upper)) {
            Ok(play) => {
                game.put(alloc, play);
                0
            }
            Err(error) => error.number() as u32,
        },
    }
}

/// Runs the story up to its next event or its stop, for so many instructions at most and while fewer than `room` bytes
/// of its text wait, which it collects: `run_for` of `zk_vm`. Answers what is awaited: 1 a line, 2 a character, 3 that
/// a game is kept, 4 a saved game, 5 that text is taken, 6 another turn, 7 memory; 0 where the story has stopped.
#[unsafe(no_mangle)]
pub extern "C" fn zk_turn(alloc: Global, game: &mut Zkit, steps: u32, room: u32) -> u32
    ensures { OnPlay game.old.play game.new.play
        (λ old new. IsTurn old new steps room result) (result ≡ 0) }
{
    turn_number(on_play!(alloc, game, 0, play => play.turn(steps, room)))
}

/// Answers a read by a line, UTF-8 without its new line, and the ZSCII code of the key that ended it, 13 for a new
/// line: `answer_line` of `zk_vm`. Answers 0, 1 where no line is awaited, 2 where the bytes are no line, or 10 where
/// the key ends no line of the story.
#[unsafe(no_mangle)]
pub extern "C" fn zk_line(alloc: Global, game: &mut Zkit, line: &[u8], key: u32) -> u32
    ensures { OnPlay game.old.play game.new.play
        (λ old new. IsAnswered (line_refused (awaited old) old.machine.state.game.memory line.now key)
        (with_grid_forgotten old.machine) old new
        (Typed (codes_read old.machine line.now) key) result) (result ≡ 1) }
{
    answer_number(on_play!(alloc, game, NOT_AWAITED, play => play.line(line, key)))
}

/// Answers a read by a character, its number in Unicode, or, if `keys` is not 0, by a key that gives none, its ZSCII
/// code: `answer_char` of `zk_vm`. Answers 0, or 1 where none is awaited.
#[unsafe(no_mangle)]
pub extern "C" fn zk_character(alloc: Global, game: &mut Zkit, character: u32, keys: u32) -> u32
    ensures { OnPlay game.old.play game.new.play
        (λ old new. IsAnswered (character_refused (awaited old))
        (with_grid_forgotten old.machine) old new
        (Typed (character_read old.machine (not (keys == 0)) character ∷ []) 13) result) (result ≡ 1) }
{
    answer_number(on_play!(alloc, game, NOT_AWAITED, play => play.character(character, keys != 0)))
}

/// Gives the upper window so many rows, 255 at most, as the story's `split_window` would: `split` of `zk_vm`. Answers
/// 0, or 1 in the middle of an instruction's text, where nothing changes.
#[unsafe(no_mangle)]
pub extern "C" fn zk_split(alloc: Global, game: &mut Zkit, rows: u32) -> u32
    ensures { OnPlay game.old.play game.new.play
        (λ old new. (result ≡ answer_number (done_unless (split_refused old)))
        × (new ≡ record old { machine = with_height old.machine (min rows 255) })) (result ≡ 1) }
{
    answer_number(on_play!(alloc, game, NOT_AWAITED, play => play.split(rows)))
}

/// Takes text of the screen, UTF-8, from the front into a buffer. Answers how many bytes: 0 where none are left. What
/// is behind them in the buffer stays as it was.
#[unsafe(no_mangle)]
pub extern "C" fn zk_text(alloc: Global, game: &mut Zkit, buffer: &mut [u8]) -> usize
    ensures { OnPlay game.old.play game.new.play
        (λ old new. IsTaken old.text.screen new.text.screen buffer.old buffer.new result
        × (new ≡ record old { text = taken_from old.text new.text.screen result }))
        ((result ≡ 0) × (buffer.new ≡ buffer.old)) }
{
    on_play!(alloc, game, 0, play => play.take_text(buffer))
}

/// Keeps the style of each character of the screen's text from now on, where no text waits.
#[unsafe(no_mangle)]
pub extern "C" fn zk_keep_styles(alloc: Global, game: &mut Zkit)
    ensures { OnPlay game.old.play game.new.play
        (λ old new. new ≡ record old { text = with_styles old.text }) (Unit {0}) }
{
    on_play!(alloc, game, (), play => play.keep_styles())
}

/// Tells how the first bytes of the screen's text are shown, and what came before them, which is told once: an erasure
/// of the lower window (16), a high bleep (32) and a low one (64).
#[unsafe(no_mangle)]
pub extern "C" fn zk_next_run(alloc: Global, game: &mut Zkit, run: &mut Run)
    ensures { OnPlay game.old.play game.new.play
        (λ old new. (new ≡ record old { text = run_told old.text }) × (run.new ≡ run_of old.text))
        (run.new ≡ run.old) }
{
    *run = on_play!(alloc, game, (), play => play.next_run());
}

/// Takes text of the transcript, UTF-8, from the front into a buffer. Answers how many bytes: 0 where none are left.
/// What is behind them in the buffer stays as it was.
#[unsafe(no_mangle)]
pub extern "C" fn zk_transcript(alloc: Global, game: &mut Zkit, buffer: &mut [u8]) -> usize
    ensures { OnPlay game.old.play game.new.play
        (λ old new. IsTaken old.text.script new.text.script buffer.old buffer.new result
        × (new ≡ record old { text = record old.text { script = new.text.script } }))
        ((result ≡ 0) × (buffer.new ≡ buffer.old)) }
{
    on_play!(alloc, game, 0, play => play.take_script(buffer))
}

/// Copies the saved game that waits to be kept to the front of a buffer, and its length in bytes to `length`: `image`
/// of `zk_vm`. Answers 0, 1 where none is to be kept, 3 where the buffer is shorter, or 4 where there is no memory.
#[tactic(auto, using(zk_host::proofs::Exporting::not_imaged))]
#[unsafe(no_mangle)]
pub extern "C" fn zk_image(
    alloc: Global,
    game: &mut Zkit,
    buffer: &mut [u8],
    length: &mut usize,
) -> u32
    ensures { OnPlay game.old.play game.new.play
        (λ old new. IsImaged (save_refused (awaited old)) old new buffer.old buffer.new
        length.old length.new result)
        ((result ≡ 1) × (buffer.new ≡ buffer.old) × (length.new ≡ length.old)) }
{
    match on_play!(alloc, game, NOT_AWAITED, play => play.image(alloc)) {
        Ok(file) => put_file(file.as_slice(), buffer, length),
        Err(refusal) => refused_number(refusal),
    }
}

/// Copies the snapshot of a play that waits for a line or a character to the front of a buffer, and its length in bytes
/// to `length`: `snapshot` of `zk_snapshot`, with as many of the newest states to go back to as fit in `undo_bytes`.
/// Text that was not taken is not in it. Answers 0, 1 where nothing of the kind is awaited, 3 where the buffer is
/// shorter, or 4 where there is no memory.
#[unsafe(no_mangle)]
pub extern "C" fn zk_take_snapshot(
    alloc: Global,
    game: &mut Zkit,
    undo_bytes: usize,
    buffer: &mut [u8],
    length: &mut usize,
) -> u32
    ensures { OnPlay game.old.play game.new.play (λ old new.
        IsSnapshotPut old new undo_bytes buffer.old buffer.new length.old length.new result)
        ((result ≡ 1) × (buffer.new ≡ buffer.old) × (length.new ≡ length.old)) }
{
    match on_play!(alloc, game, NOT_AWAITED, play => play.snapshot(alloc, undo_bytes)) {
        Ok(bytes) => put_file(bytes.as_slice(), buffer, length),
        Err(refusal) => refused_number(refusal),
    }
}

/// How many bytes a snapshot of the play has at most, now or later, with `undo_bytes` bytes of states to go back to:
/// `longest_snapshot` of `zk_snapshot`.
#[unsafe(no_mangle)]
pub extern "C" fn zk_longest_snapshot(alloc: Global, game: &mut Zkit, undo_bytes: usize) -> usize
    ensures { OnPlay game.old.play game.new.play (λ old new. (new ≡ old)
        × (result ≡ longest_snapshot old undo_bytes)) (result ≡ 0) }
{
    on_play!(alloc, game, 0, play => play.longest_snapshot(undo_bytes))
}

/// Opens a play that goes on from a snapshot of a story, in place of one that the handle may have, where the snapshot's
/// limits are at most these: `open_snapshot` of `zk_snapshot`. Answers 0, or why it is not opened: 7 where one of these
/// lies out of its range, else 1 to 6 as `zk_open`, else 8 to 11 since the bytes are no snapshot, one of another
/// version or another story, or damaged, else 7 where one of its limits is greater; 6 may come in place of 7 to 11.
/// Then the handle is as it was.
#[unsafe(no_mangle)]
pub extern "C" fn zk_open_snapshot(
    alloc: Global,
    game: &mut Zkit,
    story: &[u8],
    snapshot: &[u8],
    frames: u32,
    words: u32,
    undo: u32,
    steps: u32,
) -> u32
    ensures { IsOpenedAgain game.old.play game.new.play story.now snapshot.now
        (limits_said frames words undo steps 80 0) result }
{
    match limits_said(frames, words, undo, steps, 80, 0) {
        None => BAD_LIMIT,
        Some(most) => hold(
            alloc,
            game,
            Play::open_snapshot(alloc, story, snapshot, most),
        ),
    }
}

/// Answers whether the saved game was kept, not 0 where it was: `answer_save` of `zk_vm`. Answers 0, or 1 where that is
/// not awaited.
#[unsafe(no_mangle)]
pub extern "C" fn zk_saved(alloc: Global, game: &mut Zkit, kept: u32) -> u32
    ensures { OnPlay game.old.play game.new.play
        (λ old new. IsAnswered (save_refused (awaited old)) old.machine old new
        (GameKept (not (kept == 0))) result) (result ≡ 1) }
{
    answer_number(on_play!(alloc, game, NOT_AWAITED, play => play.save(kept != 0)))
}

/// Answers by the file of a saved game: `answer_restore` of `zk_vm`. Past version 3 the upper window keeps its height.
/// Answers 0, or 1 where none is awaited.
#[unsafe(no_mangle)]
pub extern "C" fn zk_restore(alloc: Global, game: &mut Zkit, file: &[u8]) -> u32
    ensures { OnPlay game.old.play game.new.play
        (λ old new. IsRestoring (restore_refused (awaited old)) old new (File (Some file.now)) result) (result ≡ 1) }
{
    answer_number(on_play!(alloc, game, NOT_AWAITED, play => play.restore(Some(file))))
}

/// Answers that there is no saved game: `answer_restore` of `zk_vm`. Answers 0, or 1 where none is awaited.
#[unsafe(no_mangle)]
pub extern "C" fn zk_restore_none(alloc: Global, game: &mut Zkit) -> u32
    ensures { OnPlay game.old.play game.new.play
        (λ old new. IsRestoring (restore_refused (awaited old)) old new (File None) result) (result ≡ 1) }
{
    answer_number(on_play!(alloc, game, NOT_AWAITED, play => play.restore(None)))
}

/// Why the story has stopped, by what the last turn found: 1 its end, 2 a fault, 3 a limit, 4 its input (which these
/// functions never end), 5 lack of memory, 6 too much text of one instruction; 0 where it has not.
#[unsafe(no_mangle)]
pub extern "C" fn zk_status(alloc: Global, game: &mut Zkit) -> u32
    ensures { OnPlay game.old.play game.new.play
        (λ old new. (new ≡ old) × (result ≡ status_number old.text.too_much old.stopped))
        (result ≡ 0) }
{
    let too_much = game.has_shown_too_much(alloc);
    status_number(too_much, game.stopped(alloc))
}

/// The number of the fault or the limit that has stopped the story; 0 where none has.
#[unsafe(no_mangle)]
pub extern "C" fn zk_reason(alloc: Global, game: &mut Zkit) -> u32
    ensures { OnPlay game.old.play game.new.play
        (λ old new. (new ≡ old) × (result ≡ reason_number old.stopped)) (result ≡ 0) }
{
    reason_number(game.stopped(alloc))
}

/// The byte address of the instruction with the fault or the limit that has stopped the story; 0 where none has.
#[unsafe(no_mangle)]
pub extern "C" fn zk_address(alloc: Global, game: &mut Zkit) -> u32
    ensures { OnPlay game.old.play game.new.play
        (λ old new. (new ≡ old) × (result ≡ address_number old.stopped)) (result ≡ 0) }
{
    address_number(game.stopped(alloc))
}

/// Goes back to the newest state that the story has kept, in place of an answer to a read: `go_back` of `zk_vm`.
/// Answers 0, 1 where no line or character is awaited, or 5 where there is no state.
#[unsafe(no_mangle)]
pub extern "C" fn zk_undo(alloc: Global, game: &mut Zkit) -> u32
    ensures { OnPlay game.old.play game.new.play (λ old new. IsUndo old new result) (result ≡ 1) }
{
    answer_number(on_play!(alloc, game, NOT_AWAITED, play => play.go_back()))
}

/// The most letters of the line that is awaited; 0 where none is.
#[unsafe(no_mangle)]
pub extern "C" fn zk_longest_line(alloc: Global, game: &mut Zkit) -> u32
    ensures { OnPlay game.old.play game.new.play (λ old new. (new ≡ old)
        × (result ≡ longest_line old.machine.state.game.memory (awaited old))) (result ≡ 0) }
{
    on_play!(alloc, game, 0, play => play.longest_line()) as u32
}

/// Tells how the upper window stands: its height, the height of the tallest grid since the last answer to a read, the
/// cursor, and whether it is selected.
#[unsafe(no_mangle)]
pub extern "C" fn zk_window(alloc: Global, game: &mut Zkit, window: &mut WindowFigures)
    ensures { OnPlay game.old.play game.new.play
        (λ old new. (new ≡ old) × (window.new ≡ window_of old.machine.state.game.windows))
        (window.new ≡ window.old) }
{
    *window = on_play!(alloc, game, (), play => play.window());
}

/// Puts the UTF-8 of a row of the upper window, from 1 on, at the front of a buffer, as much of it as there is room
/// for. Answers how many bytes.
#[unsafe(no_mangle)]
pub extern "C" fn zk_row(alloc: Global, game: &mut Zkit, row: u32, buffer: &mut [u8]) -> usize
    ensures { OnPlay game.old.play game.new.play (λ old new. (new ≡ old) × IsPutInFront
        (row_bytes (row_text old.machine.state.game.windows) (row_number row)) buffer.old
        buffer.new result)
        ((result ≡ 0) × (buffer.new ≡ buffer.old)) }
{
    put_front(
        on_play!(alloc, game, 0, play => play.row(row)).as_slice(),
        buffer,
    )
}

/// The same for a row of the tallest grid since the last answer to a read.
#[unsafe(no_mangle)]
pub extern "C" fn zk_tallest_row(
    alloc: Global,
    game: &mut Zkit,
    row: u32,
    buffer: &mut [u8],
) -> usize
    ensures { OnPlay game.old.play game.new.play (λ old new. (new ≡ old) × IsPutInFront
        (row_bytes (tallest_row_text old.machine.state.game.windows) (row_number row)) buffer.old
        buffer.new result)
        ((result ≡ 0) × (buffer.new ≡ buffer.old)) }
{
    put_front(
        on_play!(alloc, game, 0, play => play.tallest_row(row)).as_slice(),
        buffer,
    )
}

/// Puts the text styles of the cells of a row of the upper window, from 1 on, at the front of a buffer, as many of them
/// as there is room for: a byte each, up to the last cell that is not empty. Answers how many.
#[unsafe(no_mangle)]
pub extern "C" fn zk_row_styles(
    alloc: Global,
    game: &mut Zkit,
    row: u32,
    buffer: &mut [u8],
) -> usize
    ensures { OnPlay game.old.play game.new.play (λ old new. (new ≡ old) × IsPutInFront
        (row_styles (row_cells old.machine.state.game.windows) (row_number row)) buffer.old
        buffer.new result)
        ((result ≡ 0) × (buffer.new ≡ buffer.old)) }
{
    put_front(
        on_play!(alloc, game, 0, play => play.row_styles(row)).as_slice(),
        buffer,
    )
}

/// The same for a row of the tallest grid since the last answer to a read.
#[unsafe(no_mangle)]
pub extern "C" fn zk_tallest_row_styles(
    alloc: Global,
    game: &mut Zkit,
    row: u32,
    buffer: &mut [u8],
) -> usize
    ensures { OnPlay game.old.play game.new.play (λ old new. (new ≡ old) × IsPutInFront
        (row_styles (tallest_row_cells old.machine.state.game.windows) (row_number row)) buffer.old
        buffer.new result)
        ((result ≡ 0) × (buffer.new ≡ buffer.old)) }
{
    put_front(
        on_play!(alloc, game, 0, play => play.tallest_row_styles(row)).as_slice(),
        buffer,
    )
}

/// Tells the figures of the status line of a story of version 3, and collects its name, which `zk_status_name` takes.
#[unsafe(no_mangle)]
pub extern "C" fn zk_figures(alloc: Global, game: &mut Zkit, figures: &mut StatusFigures)
    ensures { OnPlay game.old.play game.new.play (λ old new. IsStatus old new figures.new)
        (figures.new ≡ figures.old) }
{
    *figures = on_play!(alloc, game, (), play => play.status(alloc));
}

/// Takes text of the name in the status line, UTF-8, from the front into a buffer. Answers how many bytes: 0 where none
/// are left.
#[unsafe(no_mangle)]
pub extern "C" fn zk_status_name(alloc: Global, game: &mut Zkit, buffer: &mut [u8]) -> usize
    ensures { OnPlay game.old.play game.new.play
        (λ old new. IsTaken old.name.screen new.name.screen buffer.old buffer.new result
        × (new ≡ record old { name = record old.name { screen = new.name.screen } }))
        ((result ≡ 0) × (buffer.new ≡ buffer.old)) }
{
    on_play!(alloc, game, 0, play => play.take_name(buffer))
}

/// Opens a second play that goes on from where a play waits for a line or a character, in place of one that the second
/// handle may have: `try_clone` of `zk_vm`. Answers 0, 1 where nothing of the kind is awaited, or 4 where there is no
/// memory; then the second handle is as it was.
#[unsafe(no_mangle)]
pub extern "C" fn zk_clone(alloc: Global, game: &mut Zkit, clone: &mut Zkit) -> u32
    ensures { OnPlay game.old.play game.new.play
        (λ old new. IsCloned old new clone.old.play clone.new.play result)
        ((result ≡ 1) × (clone.new.play ≡ clone.old.play)) }
{
    match on_play!(alloc, game, NOT_AWAITED, play => play.try_clone(alloc)) {
        Ok(play) => {
            clone.put(alloc, play);
            0
        }
        Err(refusal) => refused_number(refusal),
    }
}

/// Opens a second play, at the start of the story of a play, in place of one that the second handle may have. The two
/// share the story's file. Answers 0, 1 where the first handle is not open, 6 where there is no memory, or 7 where a
/// limit is out of its range; then the second handle is as it was.
#[unsafe(no_mangle)]
pub extern "C" fn zk_open_beside(
    alloc: Global,
    game: &mut Zkit,
    other: &mut Zkit,
    seed: u64,
    frames: u32,
    words: u32,
    undo: u32,
    steps: u32,
    upper: u32,
    columns: u32,
    styles: u32,
) -> u32
    ensures { OnPlay game.old.play game.new.play
        (λ old new. IsOpenedBeside old new other.old.play other.new.play seed
        (limits_said frames words undo steps columns styles) (view_if upper) result)
        ((result ≡ 1) × (other.new.play ≡ other.old.play)) }
{
    let limits = limits_said(frames, words, undo, steps, columns, styles);
    let opened = on_play!(alloc, game, NOT_AWAITED,
        play => play.open_beside(alloc, seed, limits, view_if(upper)));
    hold(alloc, other, opened)
}

/// Opens a second play that goes on from a snapshot of the story of a play, in place of one that the second handle may
/// have, where the snapshot's limits are at most these: `open_snapshot` of `zk_snapshot`. The two share the story's
/// file. Answers as `zk_open_snapshot` does, or 1 where the first handle is not open; where it is not 0, the second
/// handle is as it was.
#[unsafe(no_mangle)]
pub extern "C" fn zk_open_snapshot_beside(
    alloc: Global,
    game: &mut Zkit,
    other: &mut Zkit,
    snapshot: &[u8],
    frames: u32,
    words: u32,
    undo: u32,
    steps: u32,
) -> u32
    ensures { OnPlay game.old.play game.new.play
        (λ old new. IsResumedBeside old new other.old.play other.new.play snapshot.now
        (limits_said frames words undo steps 80 0) result)
        ((result ≡ 1) × (other.new.play ≡ other.old.play)) }
{
    let most = limits_said(frames, words, undo, steps, 80, 0);
    let opened = on_play!(alloc, game, NOT_AWAITED,
        play => play.open_snapshot_beside(alloc, snapshot, most));
    hold(alloc, other, opened)
}

/// Begins the random numbers anew with a seed, where a line or a character is awaited: `reseed` of `zk_vm`. Answers 0,
/// or 1 where nothing of the kind is.
#[unsafe(no_mangle)]
pub extern "C" fn zk_reseed(alloc: Global, game: &mut Zkit, seed: u64) -> u32
    ensures { OnPlay game.old.play game.new.play (λ old new. IsSeeded seed old new result) (result ≡ 1) }
{
    answer_number(on_play!(alloc, game, NOT_AWAITED, play => play.reseed(seed)))
}

/// Gives the word at a byte address of dynamic memory a value, where a line or a character is awaited: `change` of
/// `zk_vm`. Answers 0, 1 where nothing of the kind is awaited, or 12 where the story could not do it, or where the
/// instruction that waits lies in dynamic memory; then nothing changes.
#[unsafe(no_mangle)]
pub extern "C" fn zk_set_word(alloc: Global, game: &mut Zkit, address: u32, value: u32) -> u32
    ensures { OnPlay game.old.play game.new.play
        (λ old new. IsChanging (word_of address value) old new result) (result ≡ 1) }
{
    answer_number(on_play!(alloc, game, NOT_AWAITED, play => play.change(word_of(address, value))))
}

/// Puts an object into another, as its first child, or for 0 into none, in the same way.
#[unsafe(no_mangle)]
pub extern "C" fn zk_move_object(alloc: Global, game: &mut Zkit, object: u32, parent: u32) -> u32
    ensures { OnPlay game.old.play game.new.play
        (λ old new. IsChanging (move_of object parent) old new result) (result ≡ 1) }
{
    answer_number(on_play!(alloc, game, NOT_AWAITED, play => play.change(move_of(object, parent))))
}

/// Notes from now on which instructions are carried out. Answers 0, 1 where the handle is not open, or 4 where there is
/// no memory.
#[unsafe(no_mangle)]
pub extern "C" fn zk_keep_coverage(alloc: Global, game: &mut Zkit) -> u32
    ensures { OnPlay game.old.play game.new.play (λ old new. IsCovering old new result) (result ≡ 1) }
{
    answer_number(on_play!(alloc, game, NOT_AWAITED, play => play.keep_coverage(alloc)))
}

/// Puts the marks of the addresses from one on at the front of a buffer, as many as there is room for: a byte each, 1
/// where an instruction begins that was carried out. Answers how many.
#[unsafe(no_mangle)]
pub extern "C" fn zk_coverage(
    alloc: Global,
    game: &mut Zkit,
    address: u32,
    buffer: &mut [u8],
) -> usize
    ensures { OnPlay game.old.play game.new.play (λ old new. (new ≡ old) × IsPutInFront
        (marks_from old.cover address) buffer.old buffer.new result)
        ((result ≡ 0) × (buffer.new ≡ buffer.old)) }
{
    on_play!(alloc, game, 0, play => play.coverage(address, buffer))
}

/// How many bytes of the screen's text wait to be taken.
#[unsafe(no_mangle)]
pub extern "C" fn zk_waiting_text(alloc: Global, game: &mut Zkit) -> usize
    ensures { OnPlay game.old.play game.new.play
        (λ old new. (new ≡ old) × (result ≡ length old.text.screen.bytes)) (result ≡ 0) }
{
    on_play!(alloc, game, 0, play => play.waiting_text())
}

/// How many bytes of the transcript's text wait to be taken.
#[unsafe(no_mangle)]
pub extern "C" fn zk_waiting_transcript(alloc: Global, game: &mut Zkit) -> usize
    ensures { OnPlay game.old.play game.new.play
        (λ old new. (new ≡ old) × (result ≡ length old.text.script.bytes)) (result ≡ 0) }
{
    on_play!(alloc, game, 0, play => play.waiting_script())
}

/// Tells where the play stands.
#[unsafe(no_mangle)]
pub extern "C" fn zk_place(alloc: Global, game: &mut Zkit, place: &mut PlaceFigures)
    ensures { OnPlay game.old.play game.new.play
        (λ old new. (new ≡ old) × (place.new ≡ place_figures old.machine)) (place.new ≡ place.old) }
{
    *place = on_play!(alloc, game, (), play => play.place());
}

/// Tells what is known of the open routine of a number: that which the story begins in has 0, and the newest as many as
/// were called. Answers 0, or 11 where there is none; then nothing is told.
#[unsafe(no_mangle)]
pub extern "C" fn zk_frame(
    alloc: Global,
    game: &mut Zkit,
    number: u32,
    frame: &mut FrameFigures,
) -> u32
    ensures { OnPlay game.old.play game.new.play
        (λ old new. (new ≡ old) × IsFrameTold old.machine number frame.old frame.new result)
        ((result ≡ 1) × (frame.new ≡ frame.old)) }
{
    match on_play!(alloc, game, NOT_AWAITED, play => play.frame(number)) {
        Some(told) => {
            *frame = told;
            0
        }
        None => NOT_THERE,
    }
}

/// Puts the local variables of the open routine of a number at the front of a buffer, as many as there is room for.
/// Answers how many.
#[unsafe(no_mangle)]
pub extern "C" fn zk_locals(
    alloc: Global,
    game: &mut Zkit,
    number: u32,
    buffer: &mut [u16],
) -> usize
    ensures { OnPlay game.old.play game.new.play (λ old new. (new ≡ old) × IsPutInFront
        (locals_of (frame_numbered old.machine number)) buffer.old buffer.new result)
        ((result ≡ 0) × (buffer.new ≡ buffer.old)) }
{
    on_play!(alloc, game, 0, play => play.locals(number, buffer))
}

/// Puts the words of its evaluation stack there, the newest last.
#[unsafe(no_mangle)]
pub extern "C" fn zk_stack(alloc: Global, game: &mut Zkit, number: u32, buffer: &mut [u16]) -> usize
    ensures { OnPlay game.old.play game.new.play (λ old new. (new ≡ old) × IsPutInFront
        (words_of (frame_numbered old.machine number)) buffer.old buffer.new result)
        ((result ≡ 0) × (buffer.new ≡ buffer.old)) }
{
    on_play!(alloc, game, 0, play => play.stack(number, buffer))
}

/// Puts the bytes of memory from an address on, as they are now, at the front of a buffer, as many as there is room
/// for. Answers how many.
#[unsafe(no_mangle)]
pub extern "C" fn zk_memory(
    alloc: Global,
    game: &mut Zkit,
    address: u32,
    buffer: &mut [u8],
) -> usize
    ensures { OnPlay game.old.play game.new.play (λ old new. (new ≡ old) × IsPutInFront
        (drop address old.machine.state.game.memory.bytes) buffer.old buffer.new result)
        ((result ≡ 0) × (buffer.new ≡ buffer.old)) }
{
    on_play!(alloc, game, 0, play => play.memory(address, buffer))
}

/// The hash of so many bytes of memory from an address on, as they are now.
#[unsafe(no_mangle)]
pub extern "C" fn zk_hash(alloc: Global, game: &mut Zkit, address: u32, count: u32) -> u64
    ensures { OnPlay game.old.play game.new.play (λ old new. (new ≡ old)
        × (result ≡ hash_at old.machine.state.game.memory address count)) (result ≡ 0) }
{
    on_play!(alloc, game, 0, play => play.hash(address, count))
}

/// How many objects the story has: `count_objects` of `zk_inspect`, of memory as it is now.
#[unsafe(no_mangle)]
pub extern "C" fn zk_objects(alloc: Global, game: &mut Zkit) -> u32
    ensures { OnPlay game.old.play game.new.play (λ old new. (new ≡ old) × AreObjects old.machine result)
        (result ≡ 0) }
{
    on_play!(alloc, game, 0, play => play.objects()) as u32
}

/// Tells how an object stands. Answers 0, or 11 where it does not lie in data; then nothing is told.
#[unsafe(no_mangle)]
pub extern "C" fn zk_object(
    alloc: Global,
    game: &mut Zkit,
    object: u32,
    figures: &mut ObjectFigures,
) -> u32
    ensures { OnPlay game.old.play game.new.play (λ old new. (new ≡ old)
        × IsTold (object_numbered old.machine.state.game.memory object) figures.old figures.new result)
        ((result ≡ 1) × (figures.new ≡ figures.old)) }
{
    match on_play!(alloc, game, NOT_AWAITED, play => play.object(object)) {
        Ok(told) => {
            *figures = told;
            0
        }
        Err(_) => NOT_THERE,
    }
}

/// Tells a property of an object. Answers 0, or 11 where there is none; then nothing is told.
#[unsafe(no_mangle)]
pub extern "C" fn zk_property(
    alloc: Global,
    game: &mut Zkit,
    object: u32,
    number: u32,
    figures: &mut PropertyFigures,
) -> u32
    ensures { OnPlay game.old.play game.new.play (λ old new. (new ≡ old)
        × IsTold (property_numbered old.machine.state.game.memory object number) figures.old figures.new result)
        ((result ≡ 1) × (figures.new ≡ figures.old)) }
{
    match on_play!(alloc, game, NOT_AWAITED, play => play.property(object, number)) {
        Ok(told) => {
            *figures = told;
            0
        }
        Err(_) => NOT_THERE,
    }
}

/// Collects the short name of an object, which `zk_status_name` takes.
#[unsafe(no_mangle)]
pub extern "C" fn zk_name_object(alloc: Global, game: &mut Zkit, object: u32)
    ensures { OnPlay game.old.play game.new.play (λ old new.
        IsObjectName old.machine.state.game.memory object new.name × (new ≡ record old { name = new.name }))
        (Unit {0}) }
{
    on_play!(alloc, game, (), play => play.name_object(alloc, object))
}

/// Tells version, release and checksum that a story's file says, and puts its serial number at the front of a buffer.
/// Answers how many bytes.
#[unsafe(no_mangle)]
pub extern "C" fn zk_facts(
    alloc: Global,
    game: &mut Zkit,
    facts: &mut Facts,
    buffer: &mut [u8],
) -> usize
    ensures { OnPlay game.old.play game.new.play (λ old new. (new ≡ old)
        × (facts.new ≡ facts_of (header_of old.machine.state.game.memory.file))
        × IsPutInFront (header_of old.machine.state.game.memory.file).serial buffer.old buffer.new
        result)
        ((result ≡ 0) × (facts.new ≡ facts.old) × (buffer.new ≡ buffer.old)) }
{
    let header = on_play!(alloc, game, 0, play => play.header());
    *facts = facts_of(&header);
    put_front(&header.serial, buffer)
}

/// Puts the words for a status and its reason at the front of a buffer, as many bytes as there is room for. Answers how
/// many.
#[unsafe(no_mangle)]
pub extern "C" fn zk_text_of_reason(status: u32, reason: u32, buffer: &mut [u8]) -> usize
    ensures { (bytes : List ℕ) × IsPutInFront bytes buffer.old buffer.new result }
{
    put_front(words(status, reason).as_bytes(), buffer)
}

/// Puts the words for why `zk_open` or `zk_open_snapshot` opens nothing at the front of a buffer, as many bytes as
/// there is room for. Answers how many.
#[unsafe(no_mangle)]
pub extern "C" fn zk_text_of_open(reason: u32, buffer: &mut [u8]) -> usize
    ensures { (bytes : List ℕ) × IsPutInFront bytes buffer.old buffer.new result }
{
    put_front(words_on_open(reason).as_bytes(), buffer)
}

/// Puts the words for what a file is that is no story, by its first bytes, at the front of a buffer, as many bytes as
/// there is room for. Answers how many.
#[unsafe(no_mangle)]
pub extern "C" fn zk_text_of_file(file: &[u8], buffer: &mut [u8]) -> usize
    ensures { IsPutInFront (unwrap_or (looks_text (looks_of file.now)) []) buffer.old buffer.new result }
{
    put_front(words_on_file(file).as_bytes(), buffer)
}

/// Puts the story of a Blorb file at the front of a buffer and tells its length: `story_in` of `zk_blorb`. Answers 0, 3
/// where there is no room for it, 8 where the file is no Blorb file, or 9 where that has no story.
#[unsafe(no_mangle)]
pub extern "C" fn zk_story_in(file: &[u8], buffer: &mut [u8], length: &mut usize) -> u32
    ensures { IsStoryPut (story_of file.now) buffer.old buffer.new length.old length.new result }
{
    put_story(file, buffer, length)
}

/// Lists the story's file in at most so many bytes, for `zk_listing`. Answers 0, 1 where there is no such listing, 4
/// where there is no memory, or 6 where it has more bytes. Where it is refused, nothing is left of an earlier listing.
#[unsafe(no_mangle)]
pub extern "C" fn zk_list(alloc: Global, game: &mut Zkit, listing: u32, most: usize) -> u32
    ensures { OnPlay game.old.play game.new.play
        (λ old new. IsListed (listing_numbered listing) most old new result) (result ≡ 1) }
{
    let Some(mut play) = game.take(alloc) else {
        return NOT_AWAITED;
    };
    let Some(listing) = listing_of(listing) else {
        play.drop_listing(alloc);
        game.put(alloc, play);
        return NOT_AWAITED;
    };
    let listed = play.list(alloc, listing, most);
    game.put(alloc, play);
    answer_number(listed)
}

/// Lists the story's file in parts, for `zk_listing`: begins the listing of a number, or goes on with it until so many
/// steps are used up. Answers 13 where more is to come, 0 where that was all, 1 where there is no such listing, 4 where
/// there is no memory, 6 where too many bytes wait, or 7 where it has too many facts or its texts have too many words.
/// Where it is refused, nothing is left of an earlier listing.
#[unsafe(no_mangle)]
pub extern "C" fn zk_list_for(alloc: Global, game: &mut Zkit, listing: u32, steps: u32) -> u32
    ensures { OnPlay game.old.play game.new.play
        (λ old new. IsListedPart listing old new result) (result ≡ 1) }
{
    part_number(on_play!(alloc, game, NOT_AWAITED, play => play.list_for(alloc, listing, steps)))
}

/// Lists the instruction at a byte address of memory as it is now, in at most so many bytes, for `zk_listing`. Answers
/// 0, 1 where the handle is not open, 4 where there is no memory, 6 where it has more bytes, or 7 where its text has
/// too many words. Where it is refused, nothing is left of an earlier listing.
#[unsafe(no_mangle)]
pub extern "C" fn zk_list_instruction(
    alloc: Global,
    game: &mut Zkit,
    address: u32,
    most: usize,
) -> u32
    ensures { OnPlay game.old.play game.new.play
        (λ old new. IsListedAt address most old new result) (result ≡ 1) }
{
    answer_number(
        on_play!(alloc, game, NOT_AWAITED, play => play.list_instruction(alloc, address, most)),
    )
}

/// Takes text of the listing, UTF-8, from the front into a buffer. Answers how many bytes: 0 where none are left.
#[unsafe(no_mangle)]
pub extern "C" fn zk_listing(alloc: Global, game: &mut Zkit, buffer: &mut [u8]) -> usize
    ensures { OnPlay game.old.play game.new.play
        (λ old new. IsTaken old.listing new.listing buffer.old buffer.new result
        × (new ≡ record old { listing = new.listing }))
        ((result ≡ 0) × (buffer.new ≡ buffer.old)) }
{
    on_play!(alloc, game, 0, play => play.take_listing(buffer))
}

/// Gives back the memory of a handle, which is not open then.
#[unsafe(no_mangle)]
pub extern "C" fn zk_close(alloc: Global, game: &mut Zkit)
    ensures { game.new.play ≡ None }
{
    game.close(alloc);
}
