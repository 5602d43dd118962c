// Output streams are selected and deselected.

ghost use Rattle.zk_state.specs.Frames.{bounds_of};
ghost use Rattle.std.specs.Prelude.{◌≡◌, Ok, Err, MatchResult};
ghost use Rattle.zk_step.specs.Streams.{newest_of};
ghost use Rattle.zk_step.specs.Selecting.{transcript_set, table_opened, table_closed, stream_selected, stream_changed};

use crate::state::game_state::GameState;
use crate::state::values::Values;
use zk_code::opcode::Stream;
use zk_mem::fault::Fault;

/// Where Flags 2 has the bit of the transcript.
const FLAGS_2: u32 = 0x11;

/// Turns stream 2 on or off.
fn set_transcript(game: &mut GameState, on: bool) -> Result<(), Fault>
    ensures value { MatchResult result (λ _. transcript_set on game.old ≡ Ok game.new)
        (λ e. transcript_set on game.old ≡ Err e) }
    ensures bounds { bounds_of game.new.frames ≡ bounds_of game.old.frames }
{
    let flags = game.memory.byte(FLAGS_2)?;
    let changed = if on {
        flags | 0b0000_0001
    } else {
        flags & 0b1111_1110
    };
    game.memory.set_byte(FLAGS_2, changed)
}

/// Opens a table of stream 3. Where 16 are open it is `StreamDepth`, else without an address `BadAddress`.
fn open_table(game: &mut GameState, address: Option<u16>) -> Result<(), Fault>
    ensures value { MatchResult result (λ _. table_opened game.old address ≡ Ok game.new)
        (λ e. table_opened game.old address ≡ Err e) }
    ensures bounds { bounds_of game.new.frames ≡ bounds_of game.old.frames }
{
    match address {
        Some(address) => game.streams.open(address),
        None => {
            game.streams.open(0)?;
            Err(Fault::BadAddress)
        }
    }
}

/// Closes the newest table of stream 3, whose first word then says how many codes it got. Where none is open
/// nothing happens.
fn close_table(game: &mut GameState) -> Result<(), Fault>
    ensures value { MatchResult result
        (λ _. table_closed game.old (newest_of game.old.streams.tables) ≡ Ok game.new)
        (λ e. table_closed game.old (newest_of game.old.streams.tables) ≡ Err e) }
    ensures bounds { bounds_of game.new.frames ≡ bounds_of game.old.frames }
{
    match game.streams.newest() {
        None => Ok(()),
        Some(table) => {
            game.memory.set_word(table.address as u32, table.count)?;
            game.streams.close();
            Ok(())
        }
    }
}

/// Selects a stream, or deselects it by its negative number.
#[tactic(auto, unfolding(crate::specs::Selecting::stream_selected))]
fn select_stream(game: &mut GameState, values: &Values) -> Result<(), Fault>
    ensures value { MatchResult result (λ _. stream_selected game.old values.now ≡ Ok game.new)
        (λ e. stream_selected game.old values.now ≡ Err e) }
    ensures bounds { bounds_of game.new.frames ≡ bounds_of game.old.frames }
{
    match values.first() {
        1 => {
            game.streams.set_screen(true);
            Ok(())
        }
        0xffff => {
            game.streams.set_screen(false);
            Ok(())
        }
        2 => set_transcript(game, true),
        0xfffe => set_transcript(game, false),
        3 => open_table(game, values.given_second()),
        0xfffd => close_table(game),
        _ => Ok(()),
    }
}

/// What opcodes of streams change.
#[tactic(auto, unfolding(crate::specs::Selecting::stream_changed))]
pub fn change_stream(operation: Stream, game: &mut GameState, values: &Values) -> Result<(), Fault>
    ensures value { MatchResult result
        (λ _. stream_changed operation game.old values.now ≡ Ok game.new)
        (λ e. stream_changed operation game.old values.now ≡ Err e) }
    ensures bounds { bounds_of game.new.frames ≡ bounds_of game.old.frames }
{
    match operation {
        Stream::OutputStream => select_stream(game, values),
        Stream::InputStream => Ok(()),
    }
}
