// Variables: the evaluation stack, locals and globals.

ghost use Rattle.zk_state.specs.Frames.{bounds_of};
ghost use Rattle.std.specs.Prelude.{◌≡◌, ◌≤◌, Ok, Err, MatchResult};
ghost use Rattle.zk_step.specs.Limited.{limited};
ghost use Rattle.zk_step.specs.Variables.{global_address, named_read, named_written, variable_read, variable_written};
ghost use Rattle.zk_step.specs.Variables.{indirect_read, indirect_written};

use crate::state::game_state::GameState;
use zk_mem::fault::Fault;
use zk_mem::memory::Memory;
use zk_state::refusal::Refusal;

/// The byte address of a global variable.
#[inline(always)]
pub fn global_of(memory: &Memory, variable: u8) -> u32
    ensures { 16 ≤ variable → result ≡ global_address memory.now variable }
{
    (memory.header().globals as u32 + 2 * variable as u32).wrapping_sub(32)
}

/// The byte address of a global variable.
#[inline(always)]
pub fn global(game: &GameState, variable: u8) -> u32
    ensures { 16 ≤ variable → result ≡ global_address game.now.memory variable }
{
    global_of(&game.memory, variable)
}

/// The value of a local or global variable.
#[tactic(auto, unfolding(crate::specs::Variables::named_read))]
fn read_named(game: &GameState, variable: u8) -> Result<u16, Fault>
    ensures { result ≡ named_read game.now variable }
{
    if variable < 16 {
        game.frames.local(variable)
    } else {
        game.memory.word(global(game, variable))
    }
}

/// Gives a local or global variable a value.
#[tactic(auto, unfolding(crate::specs::Variables::named_written), using(zk_state::proofs::BoundsKept::local_bounds))]
pub fn write_named(game: &mut GameState, variable: u8, value: u16) -> Result<(), Fault>
    ensures value { MatchResult result
        (λ _. named_written game.old variable value ≡ Ok game.new)
        (λ e. named_written game.old variable value ≡ Err e) }
    ensures bounds { bounds_of game.new.frames ≡ bounds_of game.old.frames }
{
    if variable < 16 {
        game.frames.set_local(variable, value)?;
        Ok(())
    } else {
        let address = global(game, variable);
        game.memory.set_word(address, value)?;
        Ok(())
    }
}

/// The value of a variable. Variable 0 pulls the newest word of the evaluation stack.
#[tactic(auto, unfolding(crate::specs::Variables::variable_read), using(zk_state::proofs::BoundsKept::popped_bounds))]
pub fn read_variable(game: &mut GameState, variable: u8) -> Result<u16, Fault>
    ensures value { MatchResult result
        (λ x. variable_read game.old variable ≡ Ok (game.new, x))
        (λ e. variable_read game.old variable ≡ Err e) }
    ensures bounds { bounds_of game.new.frames ≡ bounds_of game.old.frames }
{
    if variable == 0 {
        let value = game.frames.pop()?;
        Ok(value)
    } else {
        let value = read_named(game, variable)?;
        Ok(value)
    }
}

/// Pushes a word on the evaluation stack.
#[tactic(auto, unfolding(crate::proofs::Opened::in_push), using(crate::proofs::WithinBounds::of_push))]
pub(crate) fn push(game: &mut GameState, value: u16) -> Result<(), Refusal>
    ensures value { MatchResult result
        (λ _. limited (variable_written game.old 0 value) ≡ Ok game.new)
        (λ e. limited (variable_written game.old 0 value) ≡ Err e) }
    ensures bounds { bounds_of game.new.frames ≡ bounds_of game.old.frames }
{
    game.frames.push(value)?;
    Ok(())
}

/// Gives a variable a value. Variable 0 pushes it on the evaluation stack.
#[tactic(auto, unfolding(crate::specs::Variables::variable_written))]
pub fn write_variable(game: &mut GameState, variable: u8, value: u16) -> Result<(), Refusal>
    ensures value { MatchResult result
        (λ _. limited (variable_written game.old variable value) ≡ Ok game.new)
        (λ e. limited (variable_written game.old variable value) ≡ Err e) }
    ensures bounds { bounds_of game.new.frames ≡ bounds_of game.old.frames }
{
    if variable == 0 {
        return push(game, value);
    }
    write_named(game, variable, value)?;
    game.is_bounded();
    Ok(())
}

/// The value of a variable that an operand names. Of the evaluation stack it is the newest word, which
/// stays there.
#[tactic(auto, unfolding(crate::specs::Variables::indirect_read))]
pub fn read_indirect(game: &GameState, variable: u16) -> Result<u16, Fault>
    ensures { result ≡ indirect_read game.now variable }
{
    if variable > 255 {
        Err(Fault::NoSuchLocal)
    } else if variable == 0 {
        game.frames.top()
    } else {
        read_named(game, variable as u8)
    }
}

/// Gives a variable that an operand names a value. On the evaluation stack it takes the place of the
/// newest word.
#[tactic(auto, unfolding(crate::specs::Variables::indirect_written), using(zk_state::proofs::BoundsKept::top_bounds))]
pub fn write_indirect(game: &mut GameState, variable: u16, value: u16) -> Result<(), Fault>
    ensures value { MatchResult result
        (λ _. indirect_written game.old variable value ≡ Ok game.new)
        (λ e. indirect_written game.old variable value ≡ Err e) }
    ensures bounds { bounds_of game.new.frames ≡ bounds_of game.old.frames }
{
    if variable > 255 {
        Err(Fault::NoSuchLocal)
    } else if variable == 0 {
        game.frames.set_top(value)?;
        Ok(())
    } else {
        write_named(game, variable as u8, value)
    }
}
