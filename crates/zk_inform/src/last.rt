// How many objects a story has.

ghost use Rattle.std.specs.Prelude.{◌≡◌, ◌∷◌, [], IfOk};
ghost use Rattle.zk_inspect.specs.ObjectTests.{IsCounted};
ghost use Rattle.zk_inform.specs.Last.{last_object};

use std::alloc::{AllocError, Global};
use zk_inspect::fact::{Fact, FactWriter};
use zk_inspect::listing::list_section;
use zk_inspect::section::Section;
use zk_mem::memory::Memory;

/// The object that a fact is, or else one that was told before.
fn object_or(fact: Fact, before: u16) -> u16
    ensures { result ≡ last_object before (fact ∷ []) }
{
    match fact {
        Fact::Object(object) => object,
        _ => before,
    }
}

/// The last object that facts tell, by its number, or 0.
#[derive(Drop)]
struct Last {
    object: u16,
}

impl FactWriter for Last {
    ghost use Rattle.std.specs.Prelude.{◌≡◌, false, refl};
    ghost use Rattle.zk_inform.specs.Last.{last_object, last_of_two, never_late};

    ghost wrote = { λ a b fs. b.object ≡ last_object a.object fs };

    ghost ended = { λ a. false };

    fn has_ended(&self) -> bool {
        false
    }

    fn write(&mut self, fact: Fact) {
        self.object = object_or(fact, self.object);
    }

    ghost nothing = { λ a. refl };

    ghost twice = { λ a b c fs gs h k. last_of_two a.object b.object c.object fs gs h k };

    ghost late = { λ a fs is. never_late a.object fs is };
}

/// How many objects are listed of a story, from 1 on. Refused for lack of memory alone.
pub(crate) fn count_objects(alloc: Global, memory: &Memory) -> Result<u16, AllocError>
    ensures { IfOk result (IsCounted memory.now) }
{
    let mut last = Last { object: 0 };
    match list_section(alloc, memory, Section::Objects, &mut last) {
        Ok(()) => Ok(last.object),
        Err(error) => Err(error),
    }
}
