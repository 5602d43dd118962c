// An instruction, from its operands to the next address.

ghost use Rattle.zk_state.specs.Frames.{IsBounded, bounds_of};
ghost use Rattle.std.specs.Prelude.{◌≡◌, ◌≤◌, ◌^◌, [], Bool, None, Ok, Err, IfOk, IfErr, IfSome, IsOk, OnOk};
ghost use Rattle.std.specs.Prelude.{MatchResult};
ghost use Rattle.zk_step.specs.declared.state.game_state.GameState.{GameState};
ghost use Rattle.zk_step.specs.Effects.{effect_of};
ghost use Rattle.zk_step.specs.Finish.{finished};
ghost use Rattle.zk_step.specs.Halves.{HaveTaken, IsCarriedOn, IsDone, IsHalf, IsQuietAs, IsUnderWay, ShowsSome};
ghost use Rattle.zk_step.specs.Halves.{rest_text, text_due, text_then};
ghost use Rattle.zk_step.specs.Instructions.{carried_out, HasBegun};
ghost use Rattle.zk_step.specs.Limited.{limited_next, limited_move, text_in};
ghost use Rattle.zk_step.specs.Printing.{IsLong, IsPlainEnd, IsPrintable};
ghost use Rattle.zk_step.specs.Routing.{Signals, with_line_start};
ghost use Rattle.zk_step.specs.Silence.{IsQuiet};
ghost use Rattle.zk_step.specs.Variables.{operands_read};

use crate::opcodes::effects::effect;
use crate::output::codes::Codes;
use crate::output::parts::{Half, Rest};
use crate::output::routing::{begin_half, route, route_part};
use crate::state::ending::{Effect, Next};
use crate::state::finish::{check_finish, finish as finish_ending};
use crate::state::game_state::GameState;
use crate::state::values::{Values, give_back, read_operands};
use zk_code::instr::Instr;
use zk_state::refusal::Refusal;
use zk_term::screen::Screen;
use zk_term::windows::Windows;

/// An instruction whose operands were taken and whose effect was made: what it prints is to be shown, and
/// how its effect ended is to be finished.
#[derive(Drop)]
pub struct Begun {
    pub values: Values,
    pub effect: Effect,
}

/// Takes an instruction's operands, first to last, and makes its effect. A refusal is that of the whole
/// instruction.
pub fn begin(game: &mut GameState, i: &Instr) -> Result<Begun, Refusal>
    ensures ok { IfOk result (λ b. HasBegun game.old i.now game.new b.values b.effect) }
    ensures err { IfErr result (λ e. limited_move (carried_out game.old i.now) ≡ Err e) }
    ensures ready { IfOk result
        (λ b. IsPrintable game.old.memory game.new.memory b.effect.output b.effect.ending) }
    ensures long { IfOk result (λ b. IsLong b.effect.output
        → (operands_read game.old i.now.operands ≡ Ok (game.new, b.values))
        × (effect_of game.new i.now b.values ≡ Ok (game.new, b.effect))) }
    ensures bounds { bounds_of game.new.frames ≡ bounds_of game.old.frames }
{
    let values = match read_operands(game, &i.operands) {
        Ok(values) => values,
        Err(fault) => return Err(Refusal::Fault(fault)),
    };
    match effect(game, i, &values) {
        Ok(effect) => Ok(Begun { values, effect }),
        Err(refusal) => Err(refusal),
    }
}

/// Whether an instruction that has begun, and prints, can be finished: the refusals are those of `finish`,
/// wherever the screen's last line then ends, and nothing changes.
pub(crate) fn check(game: &GameState, i: &Instr, begun: &Begun) -> Result<(), Refusal>
    requires { IsPlainEnd begun.now.effect.ending }
    ensures ok { OnOk result ((b : Bool) → IsOk (limited_next
        (finished (with_line_start b game.now) i.now begun.now.values
        begun.now.effect.ending))) }
    ensures err { IfErr result (λ e. (b : Bool) → limited_next
        (finished (with_line_start b game.now) i.now begun.now.values
        begun.now.effect.ending) ≡ Err e) }
{
    check_finish(game, i, &begun.values, begun.effect.ending)
}

/// Stores an instruction's result and finds where the machine goes on.
pub fn finish(game: &mut GameState, i: &Instr, begun: &Begun) -> Result<Next, Refusal>
    requires { i.now.next ≤ 2 ^ 20 }
    ensures value { MatchResult result (λ n. limited_next
        (finished game.old i.now begun.now.values begun.now.effect.ending)
        ≡ Ok (game.new, n)) (λ e. limited_next
        (finished game.old i.now begun.now.values begun.now.effect.ending) ≡ Err e) }
    ensures bounds { bounds_of game.new.frames ≡ bounds_of game.old.frames }
{
    finish_ending(game, i, &begun.values, begun.effect.ending)
}

/// Shows or stores what an instruction that has begun prints, and finishes it. Where it is refused nothing is shown.
fn complete<S: Screen>(
    game: &mut GameState,
    i: &Instr,
    begun: &Begun,
    codes: &mut Codes,
    screen: &mut S,
) -> Result<Next, Refusal>
    requires near { i.now.next ≤ 2 ^ 20 }
    requires ready { IsPrintable game.old.memory game.old.memory begun.now.effect.output
        begun.now.effect.ending }
    ensures value { (found : GameState) → HasBegun found i.now game.old begun.now.values begun.now.effect
        → IsPrintable found.memory game.old.memory begun.now.effect.output begun.now.effect.ending
        → MatchResult result (λ n. limited_move (carried_out found i.now)
        ≡ Ok (game.new, (n, text_in (limited_move (carried_out found i.now)))))
        (λ e. limited_move (carried_out found i.now) ≡ Err e) }
    ensures quiet { IfOk result (λ n. (found : GameState)
        → HasBegun found i.now game.old begun.now.values begun.now.effect
        → IsPrintable found.memory game.old.memory begun.now.effect.output begun.now.effect.ending
        → IsQuiet n (text_in (limited_move (carried_out found i.now)))) }
    ensures bounds { bounds_of game.new.frames ≡ bounds_of game.old.frames }
    ensures text { (found : GameState) → HasBegun found i.now game.old begun.now.values begun.now.effect
        → IsPrintable found.memory game.old.memory begun.now.effect.output begun.now.effect.ending
        → S.shows screen.old screen.new
        (text_in (limited_move (carried_out found i.now))) }
{
    match route(game, i, begun, codes, screen) {
        Ok(()) => {}
        Err(refusal) => return Err(refusal),
    }
    match finish(game, i, begun) {
        Ok(next) => Ok(next),
        Err(refusal) => Err(refusal),
    }
}

/// Carries out an instruction, shows or stores what it prints, and answers where the machine goes on. What is printed
/// is read from memory as the instruction finds it, before its result is stored; where the instruction is refused
/// nothing is shown. `codes` is room for what a table of stream 3 gets.
pub fn carry_out<S: Screen>(
    game: &mut GameState,
    i: &Instr,
    codes: &mut Codes,
    screen: &mut S,
) -> Result<Next, Refusal>
    requires { i.now.next ≤ 2 ^ 20 }
    ensures value { MatchResult result (λ n. limited_move (carried_out game.old i.now)
        ≡ Ok (game.new, (n, text_in (limited_move (carried_out game.old i.now)))))
        (λ e. limited_move (carried_out game.old i.now) ≡ Err e) }
    ensures quiet { IfOk result
        (λ n. IsQuiet n (text_in (limited_move (carried_out game.old i.now)))) }
    ensures bounds { bounds_of game.new.frames ≡ bounds_of game.old.frames }
    ensures text { S.shows screen.old screen.new
        (text_in (limited_move (carried_out game.old i.now))) }
{
    let begun = match begin(game, i) {
        Ok(begun) => begun,
        Err(refusal) => return Err(refusal),
    };
    complete(game, i, &begun, codes, screen)
}

/// How far an instruction has come: it was finished, and this is where the machine goes on; or it is in the middle of
/// what it prints.
#[derive(Clone, Copy, Drop)]
pub enum Progress {
    Done(Next),
    Part(Half),
}

/// Shows a part of what an instruction prints, and finishes it once all is there, or gives back what its operands have
/// taken.
fn go_on<S: Screen>(
    game: &mut GameState,
    i: &Instr,
    begun: &Begun,
    mut half: Half,
    codes: &mut Codes,
    draft: &mut Windows,
    screen: &mut S,
    words: Option<u32>,
) -> Result<Progress, Refusal>
    requires near { i.now.next ≤ 2 ^ 20 }
    requires way { IsUnderWay game.old i.now begun.now.values codes.old draft.old half }
    requires long { IsLong begun.now.effect.output }
    requires effect { half.effect ≡ begun.now.effect }
    requires taken { HaveTaken i.now.operands game.old begun.now.values }
    ensures value { (found : GameState) → IsBounded found.frames
        → operands_read found i.now.operands ≡ Ok (game.old, begun.now.values)
        → effect_of game.old i.now begun.now.values ≡ Ok (game.old, begun.now.effect)
        → MatchResult result (λ p. IsCarriedOn found game.new i.now codes.new draft.new p)
        (λ e. limited_move (carried_out found i.now) ≡ Err e) }
    ensures quiet { IfOk result (λ p. (text : Signals) → IsQuietAs p text) }
    ensures whole { words ≡ None → IfOk result IsDone }
    ensures text { MatchResult result (λ p. ShowsSome S.shows screen.old screen.new
        (rest_text game.old half.rest) (text_then game.old p))
        (λ _. S.shows screen.old screen.new []) }
    ensures bounds { bounds_of game.new.frames ≡ bounds_of game.old.frames }
{
    match route_part(game, i, begun, &mut half, codes, draft, screen, words) {
        Ok(true) => {
            give_back(game, &i.operands, &begun.values);
            Ok(Progress::Part(half))
        }
        Ok(false) => match finish(game, i, begun) {
            Ok(next) => Ok(Progress::Done(next)),
            Err(refusal) => Err(refusal),
        },
        Err(fault) => Err(Refusal::Fault(fault)),
    }
}

/// Begins an instruction, and shows a part of what it prints.
fn start_part<S: Screen>(
    game: &mut GameState,
    i: &Instr,
    codes: &mut Codes,
    draft: &mut Windows,
    screen: &mut S,
    words: Option<u32>,
) -> Result<Progress, Refusal>
    requires near { i.now.next ≤ 2 ^ 20 }
    requires bounded { IsBounded game.old.frames }
    ensures value { MatchResult result (λ p. IsCarriedOn game.old game.new i.now codes.new draft.new p)
        (λ e. limited_move (carried_out game.old i.now) ≡ Err e) }
    ensures quiet { IfOk result (λ p. IsQuietAs p (text_in (limited_move (carried_out game.old i.now)))) }
    ensures whole { words ≡ None → IfOk result IsDone }
    ensures text { MatchResult result (λ p. ShowsSome S.shows screen.old screen.new
        (text_in (limited_move (carried_out game.old i.now))) (text_then game.old p))
        (λ _. S.shows screen.old screen.new []) }
    ensures bounds { bounds_of game.new.frames ≡ bounds_of game.old.frames }
{
    let begun = match begin(game, i) {
        Ok(begun) => begun,
        Err(refusal) => return Err(refusal),
    };
    match Rest::of(begun.effect.output) {
        None => match complete(game, i, &begun, codes, screen) {
            Ok(next) => Ok(Progress::Done(next)),
            Err(refusal) => Err(refusal),
        },
        Some(rest) => match begin_half(game, i, &begun, rest, codes, draft) {
            Ok(half) => go_on(game, i, &begun, half, codes, draft, screen, words),
            Err(refusal) => Err(refusal),
        },
    }
}

/// Carries out an instruction as `carry_out` does, but shows a long text, or many rows, in parts: so many words of
/// text, or rows as long, at most; or all, where no number is given. Where more is to come then, the game state stands
/// as the instruction found it, and the next call goes on from the half that was answered. `draft` is room for an upper
/// window.
pub fn carry_out_part<S: Screen>(
    game: &mut GameState,
    i: &Instr,
    half: &Option<Half>,
    codes: &mut Codes,
    draft: &mut Windows,
    screen: &mut S,
    words: Option<u32>,
) -> Result<Progress, Refusal>
    requires near { i.now.next ≤ 2 ^ 20 }
    requires half { IfSome half.now (IsHalf game.old i.now codes.old draft.old) }
    ensures value { MatchResult result (λ p. IsCarriedOn game.old game.new i.now codes.new draft.new p)
        (λ e. limited_move (carried_out game.old i.now) ≡ Err e) }
    ensures quiet { IfOk result (λ p. IsQuietAs p (text_in (limited_move (carried_out game.old i.now)))) }
    ensures whole { words ≡ None → IfOk result IsDone }
    ensures text { MatchResult result (λ p. ShowsSome S.shows screen.old screen.new
        (text_due game.old i.now half.now) (text_then game.old p))
        (λ _. S.shows screen.old screen.new []) }
    ensures bounds { bounds_of game.new.frames ≡ bounds_of game.old.frames }
{
    game.frames.is_bounded();
    let Some(half) = half else {
        return start_part(game, i, codes, draft, screen, words);
    };
    match read_operands(game, &i.operands) {
        Ok(values) => {
            let begun = Begun {
                values,
                effect: half.effect,
            };
            go_on(game, i, &begun, *half, codes, draft, screen, words)
        }
        Err(_) => unreachable!(),
    }
}
