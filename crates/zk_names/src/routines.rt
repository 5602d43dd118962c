// The routines in a debugging file, with their sequence points and local variables.

ghost use Rattle.std.specs.Prelude.{◌≡◌, Some, codes, map, IfOk, OnOk};
ghost use Rattle.zk_names.specs.Documents.{element_of};
ghost use Rattle.zk_names.specs.Nodes.{as_node, children};
ghost use Rattle.zk_names.specs.Said.{GoesOn, IsTaken, SayEach, SaysHead, SaysLocal, SaysPoint, SaysRoutine};
ghost use Rattle.zk_names.specs.Said.{routine_nodes};

use crate::damage::{ReadError, Wrong, damaged, put};
use crate::document::Element;
use crate::names::{Local, Point, Routine};
use crate::section::{Section, section_at};
use crate::taking::place_in;
use std::alloc::Global;

/// The routines, and the sequence points and the local variables of all of them, one routine after another.
#[derive(Drop)]
pub(crate) struct Routines<'a> {
    pub routines: Vec<Routine<'a>>,
    pub points: Vec<Point>,
    pub locals: Vec<Local<'a>>,
}

/// The sequence point that an element is.
fn point_in(section: &Section<'_, '_>) -> Result<Point, ReadError>
    ensures { IfOk result (SaysPoint (as_node section.now)) }
{
    let Some(address) = section.number(b"address") else {
        return Err(damaged(section.element.at, Wrong::Point));
    };
    match place_in(section) {
        Ok(Some(place)) => Ok(Point { address, place }),
        Ok(None) => Err(damaged(section.element.at, Wrong::Point)),
        Err(error) => Err(error),
    }
}

/// The local variable that an element is.
fn local_in<'a>(section: &Section<'_, 'a>) -> Result<Local<'a>, ReadError>
    ensures { IfOk result (SaysLocal (as_node section.now)) }
{
    let Some(number) = section.number(b"index") else {
        return Err(damaged(section.element.at, Wrong::Local));
    };
    let Some(name) = section.text(b"identifier") else {
        return Err(damaged(section.element.at, Wrong::Local));
    };
    Ok(Local { number, name })
}

/// The routine that an element is, without its sequence points and its local variables.
fn head_in<'a>(section: &Section<'_, 'a>) -> Result<Routine<'a>, ReadError>
    ensures { IfOk result (SaysHead (as_node section.now)) }
{
    let wrong = damaged(section.element.at, Wrong::Routine);
    let Some(name) = section.text(b"identifier") else {
        return Err(wrong);
    };
    let Some(address) = section.number(b"address") else {
        return Err(wrong);
    };
    let Some(length) = section.number(b"byte-count") else {
        return Err(wrong);
    };
    let place = place_in(section)?;
    Ok(Routine {
        name,
        address,
        length,
        place,
        first_point: 0,
        points: 0,
        first_local: 0,
        locals: 0,
    })
}

/// Whether a sequence point comes behind others, in a routine.
fn is_next(points: &[Point], point: &Point, routine: &Routine<'_>) -> bool {
    match points.last() {
        Some(last) => last.address <= point.address && routine.has(point.address),
        None => routine.has(point.address),
    }
}

/// Puts the sequence points of a routine behind others.
fn put_points(
    points: &mut Vec<Point>,
    section: &Section<'_, '_>,
    routine: &Routine<'_>,
) -> Result<(), ReadError>
    ensures { OnOk result (GoesOn SaysPoint (children (codes "sequence-point") (as_node section.now))
        points.old.items points.new.items) }
{
    for at in 0..section.inside.len() {
        if section.inside[at].is_child(section.element.depth, b"sequence-point") {
            let part = section_at(section.inside, at);
            let point = point_in(&part)?;
            if !is_next(points.as_slice(), &point, routine) {
                return Err(damaged(part.element.at, Wrong::Order));
            }
            put(points, point)?;
        }
    }
    Ok(())
}

/// Puts the local variables of a routine behind others.
fn put_locals<'a>(locals: &mut Vec<Local<'a>>, section: &Section<'_, 'a>) -> Result<(), ReadError>
    ensures { OnOk result (GoesOn SaysLocal (children (codes "local-variable") (as_node section.now))
        locals.old.items locals.new.items) }
{
    for at in 0..section.inside.len() {
        if section.inside[at].is_child(section.element.depth, b"local-variable") {
            let part = section_at(section.inside, at);
            put(locals, local_in(&part)?)?;
        }
    }
    Ok(())
}

impl<'a> Routines<'a> {
    /// Whether the last routine ends before an address.
    fn ends_before(&self, address: u32) -> bool {
        match self.routines.last() {
            Some(last) => last.address <= address && address - last.address >= last.length,
            None => true,
        }
    }

    /// Takes a routine.
    fn take(&mut self, section: &Section<'_, 'a>, head: Routine<'a>) -> Result<(), ReadError>
        requires { SaysHead (as_node section.now) head }
        ensures { OnOk result (IsTaken (as_node section.now) self.old self.new) }
    {
        if !self.ends_before(head.address) {
            return Err(damaged(section.element.at, Wrong::Order));
        }
        let (first_point, first_local) = (self.points.len(), self.locals.len());
        put_points(&mut self.points, section, &head)?;
        put_locals(&mut self.locals, section)?;
        let routine = Routine {
            first_point,
            points: self.points.len().saturating_sub(first_point),
            first_local,
            locals: self.locals.len().saturating_sub(first_local),
            ..head
        };
        put(&mut self.routines, routine)?;
        Ok(())
    }
}

/// The routines, but for those that the compiler left out of the story.
pub(crate) fn routines_in<'a>(
    alloc: Global,
    elements: &[Element<'a>],
) -> Result<Routines<'a>, ReadError>
    ensures { IfOk result (λ r. SayEach (SaysRoutine r.points.items r.locals.items)
        (routine_nodes (map element_of elements.now)) r.routines.items) }
{
    let mut routines = Routines {
        routines: Vec::new(alloc),
        points: Vec::new(alloc),
        locals: Vec::new(alloc),
    };
    for at in 0..elements.len() {
        if elements[at].is_child(0, b"routine") {
            let section = section_at(elements, at);
            let head = head_in(&section)?;
            // routines that are left out have the address 0
            if head.address != 0 {
                routines.take(&section, head)?;
            }
        }
    }
    Ok(routines)
}
