// The values of operands.

ghost use Rattle.zk_state.specs.Frames.{IsBounded, bounds_of, within_bounds};
ghost use Rattle.std.specs.Prelude.{◌≡◌, ◌<◌, ◌≤◌, [], ◌∷◌, ◌++◌, ◌==◌, Ok, Err, drop, take, length, slice_get};
ghost use Rattle.std.specs.Prelude.{slice_index, MatchResult};
ghost use Rattle.zk_step.specs.Halves.{HaveTaken, given_back};
ghost use Rattle.zk_step.specs.Values.{first, second, third, fourth, given_or};
ghost use Rattle.zk_step.specs.Variables.{operand_read, operands_read};

use crate::state::game_state::GameState;
use crate::state::variables::{push, read_variable};
use arrayvec::ArrayVec;
use std::marker::Model;
use zk_code::operands::{Operand, Operands};
use zk_mem::fault::Fault;

/// The values of an instruction's operands: at most eight words.
#[derive(Drop)]
pub struct Values {
    list: ArrayVec<u16, 8>,
}

impl Model for Values {
    ghost use Rattle.std.specs.Prelude.{List, ℕ};

    ghost Value = { List ℕ };

    ghost view = { λ v. v.list.items };
}

impl Values {
    pub fn new() -> Values
        ensures { result ≡ [] }
    {
        Values {
            list: ArrayVec::new(),
        }
    }

    fn push(&mut self, value: u16)
        requires { length self.old < 8 }
        ensures { self.new ≡ self.old ++ value ∷ [] }
    {
        self.list.push(value);
    }

    /// The value of the operand at an index, or 0 where there is none.
    fn get(&self, i: usize) -> u16
        ensures { result ≡ slice_index self.now i }
    {
        self.list.get(i).copied().unwrap_or(0)
    }

    /// Whether there is no operand.
    pub fn is_empty(&self) -> bool
        ensures { result ≡ (length self.now == 0) }
    {
        self.list.is_empty()
    }

    pub fn first(&self) -> u16
        ensures { result ≡ first self.now }
    {
        self.get(0)
    }

    pub fn second(&self) -> u16
        ensures { result ≡ second self.now }
    {
        self.get(1)
    }

    /// The value of the second operand, where there is one.
    pub fn given_second(&self) -> Option<u16>
        ensures { result ≡ slice_get self.now 1 }
    {
        self.list.get(1).copied()
    }

    pub fn third(&self) -> u16
        ensures { result ≡ third self.now }
    {
        self.get(2)
    }

    pub fn fourth(&self) -> u16
        ensures { result ≡ fourth self.now }
    {
        self.get(3)
    }

    /// The value of the operand at an index, or another where there is none.
    pub fn get_or(&self, i: usize, default: u16) -> u16
        ensures { result ≡ given_or default i self.now }
    {
        self.list.get(i).copied().unwrap_or(default)
    }

    /// The arguments of a call: the values after the first, so many at most.
    pub fn arguments(&self, most: u8) -> &[u16]
        ensures value { result.now ≡ take most (drop 1 self.now) }
        ensures few { length result.now ≤ 7 }
    {
        let rest = match self.list.as_slice() {
            [] => return &[],
            [_, rest @ ..] => rest,
        };
        &rest[..rest.len().min(most as usize)]
    }

    pub fn as_slice(&self) -> &[u16]
        ensures { result.now ≡ self.now }
    {
        self.list.as_slice()
    }
}

#[tactic(auto, unfolding(crate::specs::Variables::operand_read))]
fn read_operand(game: &mut GameState, operand: Operand) -> Result<u16, Fault>
    ensures value { MatchResult result (λ x. operand_read game.old operand ≡ Ok (game.new, x))
        (λ e. operand_read game.old operand ≡ Err e) }
    ensures bounds { bounds_of game.new.frames ≡ bounds_of game.old.frames }
{
    match operand {
        Operand::Large(value) => Ok(value),
        Operand::Small(value) => Ok(value as u16),
        Operand::Variable(variable) => read_variable(game, variable),
    }
}

/// The values of operands, first to last.
pub fn read_operands(game: &mut GameState, operands: &Operands) -> Result<Values, Fault>
    ensures value { MatchResult result (λ v. operands_read game.old operands.now ≡ Ok (game.new, v))
        (λ e. operands_read game.old operands.now ≡ Err e) }
    ensures bounds { bounds_of game.new.frames ≡ bounds_of game.old.frames }
{
    let _few = operands.len();
    let mut values = Values::new();
    for operand in operands.as_slice() {
        match read_operand(game, *operand) {
            Ok(value) => values.push(value),
            Err(fault) => return Err(fault),
        }
    }
    Ok(values)
}

/// Gives back the word of the evaluation stack that an operand has taken, if it has.
#[tactic(auto, unfolding(crate::specs::Variables::variable_written))]
fn give_back_one(game: &mut GameState, operand: Operand, value: u16)
    requires { within_bounds (given_back operand value game.old).frames
        ≡ Ok (given_back operand value game.old).frames }
    ensures value { game.new ≡ given_back operand value game.old }
    ensures bounds { bounds_of game.new.frames ≡ bounds_of game.old.frames }
{
    match operand {
        Operand::Variable(0) => match push(game, value) {
            Ok(()) => {}
            Err(_) => unreachable!(),
        },
        _ => {}
    }
}

/// Gives back the words of the evaluation stack that operands have taken, the last first: the game state is as it was
/// before.
pub fn give_back(game: &mut GameState, operands: &Operands, values: &Values)
    requires { HaveTaken operands.now game.old values.now }
    ensures value { (found : GameState) → IsBounded found.frames
        → operands_read found operands.now ≡ Ok (game.old, values.now) → game.new ≡ found }
    ensures bounds { bounds_of game.new.frames ≡ bounds_of game.old.frames }
{
    let count = operands.len();
    for k in 0..count {
        let place = count - 1 - k;
        give_back_one(game, operands.as_slice()[place], values.get(place));
    }
}
