// What a host changes in the memory of a story that waits.

ghost use Rattle.std.specs.Prelude.{◌≡◌, ◌≤◌, Ok, Err, MatchResult};
ghost use Rattle.zk_vm.specs.Changes.{changed_by, IsChanged};

use crate::machine::Machine;
use zk_mem::fault::Fault;
use zk_mem::memory::Memory;
use zk_tables::links::WalkCount;
use zk_tables::tree::{insert, remove};

/// A change of memory that an instruction of the story could make.
#[derive(Clone, Copy, Drop)]
pub enum Change {
    /// The word at a byte address gets a value (Z-Machine Standards Document 1.1, section 15, `storew`).
    Word(u32, u16),
    /// An object goes into another, as its first child (section 15, `insert_obj`).
    Insertion(u16, u16),
    /// An object goes out of its parent (section 15, `remove_obj`).
    Removal(u16),
}

/// Changes memory, or says why the story could not.
fn change_memory(memory: &mut Memory, change: Change) -> Result<(), Fault>
    ensures { MatchResult result (λ _. changed_by change memory.old ≡ Ok memory.new)
        (λ e. (changed_by change memory.old ≡ Err e) × (memory.new ≡ memory.old)) }
{
    match change {
        Change::Word(address, value) => memory.set_word(address, value),
        Change::Insertion(object, destination) => {
            insert(memory, object, destination, &mut WalkCount::new())
        }
        Change::Removal(object) => remove(memory, object, &mut WalkCount::new()),
    }
}

impl Machine {
    /// Changes memory where the instruction at the program counter does not lie in dynamic memory. Where the story
    /// could not make the change, nothing changes.
    pub fn change(&mut self, change: Change) -> Result<(), Fault>
        requires above { self.old.state.game.memory.static_base ≤ self.old.state.pc }
        ensures { MatchResult result (λ _. IsChanged change self.old self.new)
            (λ e. (changed_by change self.old.state.game.memory ≡ Err e) × (self.new ≡ self.old)) }
    {
        self.game.memory.is_of_file();
        let changed = change_memory(&mut self.game.memory, change);
        self.game.memory.is_of_file();
        changed
    }
}
