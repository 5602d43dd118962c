// Where an instruction leads.

ghost use Rattle.zk_state.specs.Frames.{bounds_of, within_bounds};
ghost use Rattle.std.specs.Prelude.{◌≡◌, ◌≤◌, ◌^◌, Bool, Ok, Err, IfErr, IsOk, OnOk, MatchResult, true, length};
ghost use Rattle.zk_step.specs.Finish.{continuation_of, continuation_after, led, gone, gone_on, finished, beside_stack};
ghost use Rattle.zk_step.specs.Finish.{leads_away};
ghost use Rattle.zk_step.specs.Limited.{limited_next, limited_pc, next_at};
ghost use Rattle.zk_step.specs.Printing.{IsPlainEnd};
ghost use Rattle.zk_step.specs.Routing.{with_line_start};
ghost use Rattle.zk_step.specs.Restarts.{begun_again};
ghost use Rattle.zk_step.specs.Routines.{stored};
ghost use Rattle.zk_code.specs.Targets.{jump_target};
ghost use Rattle.zk_mem.specs.Header.{header_of};

use crate::state::call::call_routine;
use crate::state::ending::{Ending, Next};
use crate::state::game_state::GameState;
use crate::state::returning::{check_return, return_value, store, throw_value};
use crate::state::values::Values;
use crate::state::variables::write_named;
use zk_code::branch::{Branch, BranchTarget, jump_target};
use zk_code::instr::Instr;
use zk_mem::fault::Fault;
use zk_state::refusal::Refusal;

/// The way on from an instruction.
#[derive(Clone, Copy, Drop)]
pub enum Continuation {
    /// To a byte address in the story.
    To(u32),
    /// Back to the caller, with a value.
    Back(u16),
    /// Out of the story.
    Out,
}

fn continuation_of(target: BranchTarget) -> Continuation
    ensures { result ≡ continuation_of target }
{
    match target {
        BranchTarget::At(a) => Continuation::To(a),
        BranchTarget::ReturnFalse => Continuation::Back(0),
        BranchTarget::ReturnTrue => Continuation::Back(1),
        BranchTarget::Below(_) | BranchTarget::Past(_) => Continuation::Out,
    }
}

/// The way on from an instruction, by its branch and the truth that it has tested.
#[tactic(auto, unfolding(crate::specs::Finish::continuation_after))]
pub(crate) fn continuation_after(
    branch: Option<Branch>,
    next: u32,
    truth: Option<bool>,
) -> Continuation
    ensures { result ≡ continuation_after branch next truth }
{
    match (branch, truth) {
        (Some(branch), Some(truth)) if branch.on == truth => continuation_of(branch.target),
        _ => Continuation::To(next),
    }
}

#[tactic(auto, unfolding(crate::specs::Finish::led))]
pub(crate) fn lead(game: &mut GameState, continuation: Continuation) -> Result<u32, Refusal>
    ensures value { MatchResult result
        (λ pc. limited_pc (led game.old continuation) ≡ Ok (game.new, pc))
        (λ e. limited_pc (led game.old continuation) ≡ Err e) }
    ensures bounds { bounds_of game.new.frames ≡ bounds_of game.old.frames }
{
    match continuation {
        Continuation::To(pc) => {
            game.is_bounded();
            Ok(pc)
        }
        Continuation::Back(value) => return_value(game, value),
        Continuation::Out => Err(Refusal::Fault(Fault::BadTarget)),
    }
}

/// Stores a result, but for one on the evaluation stack, which goes with its routine.
#[tactic(auto, unfolding(crate::specs::Routines::stored, crate::specs::Variables::variable_written))]
fn store_beside(game: &mut GameState, variable: Option<u8>, value: Option<u16>) -> Result<(), Fault>
    ensures value { MatchResult result
        (λ _. stored game.old (beside_stack variable) value ≡ Ok game.new)
        (λ e. stored game.old (beside_stack variable) value ≡ Err e) }
    ensures bounds { bounds_of game.new.frames ≡ bounds_of game.old.frames }
{
    match (variable, value) {
        (Some(variable), Some(value)) if variable != 0 => { write_named(game, variable, value) }
        _ => Ok(()),
    }
}

/// Stores a result, and goes on to an address in the story, which it tells.
#[tactic(auto, unfolding(crate::specs::Finish::gone, crate::specs::Finish::led), using(crate::proofs::Ways::of_go_to))]
pub(crate) fn go_to(
    game: &mut GameState,
    variable: Option<u8>,
    value: Option<u16>,
    pc: u32,
) -> Result<u32, Refusal>
    ensures value { MatchResult result (λ at. limited_pc
        (gone game.old variable value (Continuation.To pc)) ≡ Ok (game.new, at))
        (λ e. limited_pc (gone game.old variable value (Continuation.To pc)) ≡ Err e) }
    ensures bounds { bounds_of game.new.frames ≡ bounds_of game.old.frames }
{
    store(game, variable, value)?;
    game.is_bounded();
    Ok(pc)
}

/// Stores a result, and leaves the routine or the story: the address where its caller goes on.
#[tactic(auto, using(crate::proofs::Ways::away_stored, crate::proofs::Ways::away_faults))]
pub fn go_away(
    game: &mut GameState,
    variable: Option<u8>,
    value: Option<u16>,
    continuation: Continuation,
) -> Result<u32, Refusal>
    requires { leads_away continuation ≡ true }
    ensures value { MatchResult result
        (λ at. limited_pc (gone game.old variable value continuation) ≡ Ok (game.new, at))
        (λ e. limited_pc (gone game.old variable value continuation) ≡ Err e) }
    ensures bounds { bounds_of game.new.frames ≡ bounds_of game.old.frames }
{
    match store_beside(game, variable, value) {
        Ok(()) => lead(game, continuation),
        Err(fault) => Err(Refusal::Fault(fault)),
    }
}

/// Stores a result and takes a branch: where it leads.
#[tactic(auto, unfolding(crate::specs::Finish::gone_on))]
pub(crate) fn go_on(
    game: &mut GameState,
    i: &Instr,
    value: Option<u16>,
    truth: Option<bool>,
) -> Result<u32, Refusal>
    ensures value { MatchResult result
        (λ at. limited_pc (gone_on game.old i.now value truth) ≡ Ok (game.new, at))
        (λ e. limited_pc (gone_on game.old i.now value truth) ≡ Err e) }
    ensures bounds { bounds_of game.new.frames ≡ bounds_of game.old.frames }
{
    match continuation_after(i.branch, i.next, truth) {
        Continuation::To(pc) => go_to(game, i.store, value, pc),
        Continuation::Back(back) => go_away(game, i.store, value, Continuation::Back(back)),
        Continuation::Out => go_away(game, i.store, value, Continuation::Out),
    }
}

/// Jumps by an offset from an instruction: where to.
fn jump(game: &mut GameState, i: &Instr, offset: u16) -> Result<u32, Refusal>
    requires { i.now.next ≤ 2 ^ 20 }
    ensures value { MatchResult result (λ at. limited_pc (led game.old
        (continuation_of
        (jump_target (length game.old.memory.bytes) i.now.next offset)))
        ≡ Ok (game.new, at)) (λ e. limited_pc (led game.old
        (continuation_of
        (jump_target (length game.old.memory.bytes) i.now.next offset))) ≡ Err e) }
    ensures bounds { bounds_of game.new.frames ≡ bounds_of game.old.frames }
{
    let continuation = continuation_of(jump_target(game.memory.len(), i.next, offset));
    lead(game, continuation)
}

/// Begins the story again at its first instruction.
fn begin_again(game: &mut GameState) -> u32
    ensures next { result ≡ (header_of game.old.memory.file).first_instruction }
    ensures value { game.new ≡ begun_again game.old }
    ensures within { within_bounds game.new.frames ≡ Ok game.new.frames }
    ensures bounds { bounds_of game.new.frames ≡ bounds_of game.old.frames }
{
    let start = game.memory.header().first_instruction;
    game.restart();
    game.is_bounded();
    start as u32
}

/// The machine goes on at an address that was found, unless it was refused.
#[inline(always)]
fn next_at(pc: Result<u32, Refusal>) -> Result<Next, Refusal>
    ensures { result ≡ next_at pc }
{
    match pc {
        Ok(pc) => Ok(Next::At(pc)),
        Err(refusal) => Err(refusal),
    }
}

/// Stores an instruction's result and finds where the machine goes on.
#[tactic(auto, unfolding(crate::specs::Finish::finished), using(crate::proofs::WithinBounds::next_told))]
#[inline(always)]
pub fn finish(
    game: &mut GameState,
    i: &Instr,
    values: &Values,
    ending: Ending,
) -> Result<Next, Refusal>
    requires { i.now.next ≤ 2 ^ 20 }
    ensures value { MatchResult result
        (λ n. limited_next (finished game.old i.now values.now ending) ≡ Ok (game.new, n))
        (λ e. limited_next (finished game.old i.now values.now ending) ≡ Err e) }
    ensures bounds { bounds_of game.new.frames ≡ bounds_of game.old.frames }
{
    match ending {
        Ending::GoOn(value, truth) => next_at(go_on(game, i, value, truth)),
        Ending::Jump(offset) => next_at(jump(game, i, offset)),
        Ending::Call(routine, most) => {
            let arguments = values.arguments(most);
            next_at(call_routine(game, i, routine, arguments))
        }
        Ending::Return(value) => next_at(return_value(game, value)),
        Ending::Throw(value, frame) => next_at(throw_value(game, value, frame)),
        Ending::Restart => Ok(Next::At(begin_again(game))),
        Ending::Asks(request) => Ok(Next::Asks(request)),
    }
}

/// Whether an instruction that prints can be finished: the refusals are those of `finish`, and nothing
/// changes. What is printed is shown between the two, and the screen's last line may then end anywhere.
#[tactic(auto, unfolding(crate::specs::Finish::finished), using(crate::proofs::WithinBounds::pc_ok))]
pub fn check_finish(
    game: &GameState,
    i: &Instr,
    values: &Values,
    ending: Ending,
) -> Result<(), Refusal>
    requires { IsPlainEnd ending }
    ensures ok { OnOk result ((b : Bool)
        → IsOk (limited_next (finished (with_line_start b game.now) i.now values.now ending))) }
    ensures err { IfErr result (λ e. (b : Bool) → limited_next
        (finished (with_line_start b game.now) i.now values.now ending) ≡ Err e) }
{
    match ending {
        Ending::Return(_) => match check_return(game) {
            Ok(()) => Ok(()),
            Err(refusal) => Err(refusal),
        },
        _ => {
            game.is_bounded();
            Ok(())
        }
    }
}
