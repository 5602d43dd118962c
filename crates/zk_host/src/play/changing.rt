// Changes that a host makes in the memory of a story.

ghost use Rattle.std.specs.Prelude.{◌≡◌, ◌<◌, ◌≤◌, IsTrue, IsFalse};
ghost use Rattle.zk_host.specs.Changing.{move_of, word_of, IsChangedBy};

use crate::play::{Play, Refusal};
use zk_snapshot::snapshot::has_snapshot;
use zk_vm::machine::Machine;
use zk_vm::machine::changing::Change;

/// The change that gives the word at a byte address a value, if that is a word.
pub fn word_of(address: u32, value: u32) -> Option<Change>
    ensures { result ≡ word_of address value }
{
    if value > 65_535 {
        return None;
    }
    Some(Change::Word(address, value as u16))
}

/// The change that puts an object into another, or for 0 into none, if these are numbers of objects.
pub fn move_of(object: u32, parent: u32) -> Option<Change>
    ensures { result ≡ move_of object parent }
{
    if object > 65_535 || parent > 65_535 {
        return None;
    }
    if parent == 0 {
        return Some(Change::Removal(object as u16));
    }
    Some(Change::Insertion(object as u16, parent as u16))
}

/// Whether the instruction at a machine's program counter lies in dynamic memory.
fn is_low(machine: &Machine) -> bool
    ensures low { IsTrue result → machine.now.state.pc < machine.now.state.game.memory.static_base }
    ensures high { IsFalse result → machine.now.state.game.memory.static_base ≤ machine.now.state.pc }
{
    (machine.place().pc as usize) < machine.memory().dynamic().len()
}

impl Play {
    /// Changes memory while a line or a character is waited for. That is refused where the story could not make the
    /// change, and where the instruction that waits lies in dynamic memory.
    pub fn change(&mut self, change: Option<Change>) -> Result<(), Refusal>
        ensures { IsChangedBy change self.old self.new result }
    {
        if !has_snapshot(self.machine.machine()) {
            return Err(Refusal::NotAwaited);
        }
        let Some(change) = change else {
            return Err(Refusal::NotChanged);
        };
        if is_low(self.machine.machine()) {
            return Err(Refusal::NotChanged);
        }
        match self.machine.change(change) {
            Ok(()) => Ok(()),
            Err(_) => Err(Refusal::NotChanged),
        }
    }
}
