// A second machine that goes on from where one waits.

ghost use Rattle.std.specs.Prelude.{◌≡◌, IfOk, None};
ghost use Rattle.zk_fast.specs.Caches.{IsCacheOf};
ghost use Rattle.zk_step.specs.Laws.{fixed_parts};
ghost use Rattle.zk_vm.specs.Halts.{CanAnswer};
ghost use Rattle.zk_vm.specs.Plays.{AsksForLine};

use crate::machine::Machine;
use std::alloc::{AllocError, Global};
use zk_code::decode::decode;
use zk_fast::cache::Cache;
use zk_step::output::streams::Streams;
use zk_step::state::game_state::GameState;
use zk_term::windows::Windows;

/// A game state of its own, as another one stands.
fn state_of(alloc: Global, game: &GameState) -> Result<GameState, AllocError>
    ensures { IfOk result (λ g. g ≡ game.now) }
{
    let memory = game.memory.try_clone(alloc)?;
    let frames = game.frames.try_clone(alloc)?;
    let mut windows = Windows::new(alloc, game.windows.width())?;
    windows.copy_from(&game.windows);
    let tables = game.streams.tables();
    let streams = Streams::with_tables(game.streams.screen(), tables.as_slice());
    Ok(GameState {
        frames,
        memory,
        streams,
        windows,
        generators: game.generators,
        at_line_start: game.at_line_start,
        view: game.view,
    })
}

impl Machine {
    /// The game state, and the instructions that were decoded before, once more. The machine has no stop.
    fn game_again(&self, alloc: Global) -> Result<(GameState, Cache), AllocError>
        requires { self.now.stopped ≡ None }
        ensures game { IfOk result (λ p. p.0 ≡ self.now.state.game) }
        ensures cache { IfOk result (λ p. IsCacheOf (fixed_parts self.now.state.game.memory) p.1) }
    {
        let game = state_of(alloc, &self.game)?;
        let cache = self.cache.try_clone(alloc, &self.game.memory)?;
        Ok((game, cache))
    }

    /// A second machine, which waits for a line or a character as this one does, with the same states to go back to: it
    /// is the same in all that contracts see, and neither changes with the other. They share the story's file.
    pub fn try_clone(&self, alloc: Global) -> Result<Machine, AllocError>
        requires { AsksForLine self.now }
        ensures { IfOk result (λ m. m ≡ self.now) }
    {
        self.is_whole();
        self.is_answerable();
        let Some(asking) = self.asking() else {
            unreachable!();
        };
        let place = self.place();
        let Ok(instruction) = decode(&self.game.memory, place.pc) else {
            unreachable!();
        };
        let undo = self.undo.try_clone()?;
        let (game, cache) = self.game_again(alloc)?;
        Machine::with_cache(
            alloc,
            game,
            place,
            self.limits,
            asking.event,
            instruction,
            undo,
            cache,
        )
    }
}
