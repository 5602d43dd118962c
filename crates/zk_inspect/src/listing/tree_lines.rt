// The lines of the tree of objects.

ghost use Rattle.std.specs.Prelude.{◌≡◌, ◌<◌, ◌≤◌, ◌==◌, [], length, OnOk};
ghost use Rattle.zk_tables.specs.Links.{link_at, parent_of};
ghost use Rattle.zk_inspect.specs.ObjectLines.{number_or_none};
ghost use Rattle.zk_inspect.specs.Facts.{GaveSome};
ghost use Rattle.zk_inspect.specs.TreeLines.{AreRows, AreSomeRows, AreTreeRows, HasNoParent, IsUpTo, again_text};
ghost use Rattle.zk_inspect.specs.TreeLines.{indent, row_line, row_text};

use crate::fact::{Fact, FactWriter, Node};
use crate::listing::object_lines::{number_or_none, write_label};
use crate::objects::count_objects;
use crate::reach::address_set::AddressSet;
use itoa::Buffer;
use std::alloc::{AllocError, Global};
use zk_mem::memory::Memory;
use zk_tables::tree::{child, parent, sibling};
use zk_term::line_writer::LineWriter;
use zk_term::writing::write_texts;

/// Writes two spaces for each level.
fn write_indent<P: LineWriter>(writer: &mut P, level: usize)
    ensures { P.wrote writer.old writer.new (indent level) }
{
    for _level in 0..level {
        writer.write(b"  ");
    }
}

/// Writes an object as it stands in the tree, without the spaces before it.
#[tactic(auto, unfolding(crate::specs::TreeLines::row_text))]
fn write_object<P: LineWriter>(writer: &mut P, memory: &Memory, row: Node)
    ensures { P.wrote writer.old writer.new (row_text memory.now row) }
{
    if row.again {
        write_number_again(writer, row.object)
    } else {
        write_label(writer, memory, row.object)
    }
}

/// Writes the number of an object that was listed before.
#[tactic(auto, unfolding(crate::specs::TreeLines::again_text))]
fn write_number_again<P: LineWriter>(writer: &mut P, object: u16)
    ensures { P.wrote writer.old writer.new (again_text object) }
{
    let mut buffer = Buffer::new();
    write_texts(writer, &[buffer.format(object).as_bytes(), b" *"]);
}

/// Writes a line of the tree.
pub(crate) fn write_row<P: LineWriter>(writer: &mut P, memory: &Memory, row: Node)
    ensures { P.wrote writer.old writer.new (row_line memory.now row) }
{
    write_indent(writer, row.level);
    write_object(writer, memory, row);
}

/// Where a walk over the tree stands.
#[derive(Drop)]
struct Walk {
    /// How many objects there are.
    count: u16,
    /// Which of them were listed.
    listed: AddressSet,
    /// The objects above the next one, from a root on.
    above: Vec<u16>,
}

impl Walk {
    /// Goes from the last object above to its sibling. That of a root is no part of the tree below the root.
    fn go_beside(&mut self, memory: &Memory) -> Option<u16>
        ensures listed { self.new.listed ≡ self.old.listed }
        ensures count { self.new.count ≡ self.old.count }
    {
        let Some(object) = self.above.pop() else {
            return None;
        };
        if self.above.is_empty() {
            return None;
        }
        Some(number_or_none(sibling(memory, object)))
    }

    /// Goes from an object, which is listed now, to its child.
    fn go_below(&mut self, memory: &Memory, object: u16) -> Result<u16, AllocError>
        requires { object < length self.old.listed }
        ensures listed { OnOk result (length self.new.listed ≡ length self.old.listed) }
        ensures count { OnOk result (self.new.count ≡ self.old.count) }
    {
        self.listed.mark(object as u32);
        self.above.push(object)?;
        Ok(number_or_none(child(memory, object)))
    }

    /// Lists an object, if there is one of its number, and goes on: to its child where it is listed for the first time,
    /// and else to where its chain of siblings goes on above.
    fn step<F: FactWriter>(
        &mut self,
        facts: &mut F,
        memory: &Memory,
        object: u16,
    ) -> Result<Option<u16>, AllocError>
        requires { self.old.count < length self.old.listed }
        ensures kept { OnOk result (self.new.count < length self.new.listed) }
        ensures count { OnOk result (self.new.count ≡ self.old.count) }
        ensures rows { GaveSome (AreRows (IsUpTo self.old.count) (λ o. ⊥)) F.wrote facts.old
            facts.new }
        ensures top { self.old.above.items ≡ [] → IsUpTo self.old.count object →
            GaveSome (AreRows (IsUpTo self.old.count) (λ o. o ≡ object)) F.wrote facts.old
            facts.new }
    {
        if object == 0 || object > self.count {
            return Ok(self.go_beside(memory));
        }
        let again = self.listed.has(object as u32);
        let level = self.above.len();
        facts.write(Fact::Node(Node {
            level,
            object,
            again,
        }));
        if again {
            return Ok(self.go_beside(memory));
        }
        Ok(Some(self.go_below(memory, object)?))
    }

    /// Lists a root, and the tree below it.
    fn list_below<F: FactWriter>(
        &mut self,
        facts: &mut F,
        memory: &Memory,
        root: u16,
    ) -> Result<(), AllocError>
        requires { self.old.count < length self.old.listed }
        ensures kept { OnOk result (self.new.count < length self.new.listed) }
        ensures count { OnOk result (self.new.count ≡ self.old.count) }
        ensures rows { GaveSome (AreRows (IsUpTo self.old.count) (λ o. ⊥)) F.wrote facts.old
            facts.new }
        ensures top { IsUpTo self.old.count root → OnOk result
            (GaveSome (AreRows (IsUpTo self.old.count) (λ o. o ≡ root)) F.wrote facts.old
            facts.new) }
    {
        self.above.clear();
        let mut next = self.step(facts, memory, root)?;
        // each turn lists an object, or ends a chain of siblings that one has begun
        for _turn in 0..2 * self.count as u32 {
            let Some(object) = next else {
                return Ok(());
            };
            next = self.step(facts, memory, object)?;
        }
        Ok(())
    }
}

/// Whether an object is a root: it has no parent.
fn is_root(memory: &Memory, object: u16) -> bool
    ensures { result ≡ (number_or_none (link_at memory.now (parent_of object)) == 0) }
{
    number_or_none(parent(memory, object)) == 0
}

/// Lists an object with the tree below it, if it is a root.
fn list_root<F: FactWriter>(
    walk: &mut Walk,
    memory: &Memory,
    object: u16,
    facts: &mut F,
) -> Result<(), AllocError>
    requires { walk.old.count < length walk.old.listed }
    ensures kept { OnOk result (walk.new.count < length walk.new.listed) }
    ensures count { OnOk result (walk.new.count ≡ walk.old.count) }
    ensures rows { GaveSome (AreRows (IsUpTo walk.old.count) (λ o. ⊥)) F.wrote facts.old
        facts.new }
    ensures top { IsUpTo walk.old.count object → HasNoParent memory.now object → OnOk result
        (GaveSome (AreRows (IsUpTo walk.old.count) (λ o. o ≡ object)) F.wrote facts.old
        facts.new) }
{
    if !is_root(memory, object) {
        return Ok(());
    }
    walk.list_below(facts, memory, object)
}

/// Lists the trees of all objects.
fn list_trees<F: FactWriter>(
    walk: &mut Walk,
    memory: &Memory,
    facts: &mut F,
) -> Result<(), AllocError>
    requires { walk.old.count < length walk.old.listed }
    ensures rows { GaveSome (AreRows (IsUpTo walk.old.count) (λ o. ⊥)) F.wrote facts.old
        facts.new }
    ensures top { OnOk result (GaveSome (AreRows (IsUpTo walk.old.count)
        (λ o. IsUpTo walk.old.count o × HasNoParent memory.now o)) F.wrote facts.old facts.new) }
{
    for before in 0..walk.count {
        list_root(walk, memory, before + 1, facts)?;
    }
    Ok(())
}

/// Gives the tree.
pub(crate) fn list_tree<F: FactWriter>(
    alloc: Global,
    memory: &Memory,
    facts: &mut F,
) -> Result<(), AllocError>
    ensures rows { GaveSome (AreSomeRows memory.now) F.wrote facts.old facts.new }
    ensures roots { OnOk result (GaveSome (AreTreeRows memory.now) F.wrote facts.old facts.new) }
{
    let count = count_objects(memory);
    let listed = AddressSet::none(alloc, count as usize + 1)?;
    let mut walk = Walk {
        count,
        listed,
        above: Vec::new(alloc),
    };
    list_trees(&mut walk, memory, facts)
}
