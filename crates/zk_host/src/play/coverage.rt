// Which instructions of a play were carried out.

ghost use Rattle.std.specs.Prelude.{◌≡◌, map};
ghost use Rattle.zk_host.specs.Calls.{IsNoting, mark_byte, marks_from};
ghost use Rattle.zk_host.specs.Texts.{IsPutInFront};

use crate::play::{Play, Refusal};
use std::alloc::Global;
use zk_fast::places::Cover;

/// A mark, as a byte.
fn mark_byte(mark: bool) -> u8
    ensures { result ≡ mark_byte mark }
{
    if mark { 1 } else { 0 }
}

/// Puts as many marks as bytes at the front of a buffer as it has room for, and says how many.
fn put_marks(marks: &[bool], buffer: &mut [u8]) -> usize
    ensures { IsPutInFront (map mark_byte marks.now) buffer.old buffer.new result }
{
    let count = marks.len().min(buffer.len());
    for k in 0..count {
        buffer[k] = mark_byte(marks[k]);
    }
    count
}

impl Play {
    /// Notes from now on which instructions are carried out. What was noted before is forgotten.
    pub fn keep_coverage(&mut self, alloc: Global) -> Result<(), Refusal>
        ensures { IsNoting self.old self.new result }
    {
        let length = self.machine.machine().memory().len() as usize;
        let Ok(cover) = Cover::new(alloc, length) else {
            return Err(Refusal::Memory);
        };
        self.cover = Some(cover);
        Ok(())
    }

    /// Puts the marks of addresses, from one on, at the front of a buffer, as many as it has room for: 1 where an
    /// instruction begins that was carried out. Where nothing is noted there are none.
    pub fn coverage(&self, address: u32, buffer: &mut [u8]) -> usize
        ensures { IsPutInFront (marks_from self.now.cover address) buffer.old buffer.new result }
    {
        let Some(cover) = &self.cover else {
            return put_marks(&[], buffer);
        };
        let marks = cover.marks();
        put_marks(&marks[(address as usize).min(marks.len())..], buffer)
    }
}
