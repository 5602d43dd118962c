// The records of frames.

ghost use Rattle.std.specs.Prelude.{◌≡◌, ◌≤◌, ◌<◌, ◌+◌, ◌++◌, ◌∷◌, [], length, take, replicate, slice_index_or, IfOk};
ghost use Rattle.zk_state.specs.Records.{RecordList, first_record};

use std::alloc::{AllocError, Global};
use std::marker::Model;

/// A frame: its local variables are the words from `base` to `base of the stack`, and its evaluation stack is all that
/// lies between them and the next frame. Its routine's first instruction stands at the byte address `start`, which is 0
/// where that is not known.
#[derive(Clone, Copy, Drop)]
pub(crate) struct FrameRecord {
    pub(crate) base: u32,
    pub(crate) stack_base: u32,
    pub(crate) pc: u32,
    pub(crate) start: u32,
    pub(crate) result: Option<u8>,
    pub(crate) supplied: u8,
}

/// The record of the first frame (Standard, section 5.5).
pub(crate) const FIRST: FrameRecord = FrameRecord {
    base: 0,
    stack_base: 0,
    pc: 0,
    start: 0,
    result: None,
    supplied: 0,
};

/// The record of the current frame, after those of its callers with the newest last, at most so many together. All
/// room is taken once, so that a call stores its own record and copies none.
#[derive(Drop)]
pub(crate) struct Records {
    // what the current record has, where instructions find it at once
    base: usize,
    stack_base: usize,
    depth: usize,
    all: Vec<FrameRecord>,
}

impl Model for Records {
    ghost use Rattle.zk_state.specs.Records.{RecordList, records_of, AreRecords};

    ghost Value = { RecordList };

    ghost view = { records_of };

    ghost invariant = { AreRecords };
}

/// So many records.
fn room_for(alloc: Global, most: usize) -> Result<Vec<FrameRecord>, AllocError>
    ensures { IfOk result (λ v. v.items ≡ replicate most first_record) }
{
    let all = vec![in alloc; FIRST; most]?;
    Ok(all)
}

/// Puts records over the first ones of a list.
fn copy_records(all: &mut Vec<FrameRecord>, from: &[FrameRecord])
    requires { length from.now ≤ length all.old.items }
    ensures front { take (length from.now) all.new.items ≡ from.now }
    ensures len { length all.new.items ≡ length all.old.items }
{
    for k in 0..from.len() {
        all[k] = from[k];
    }
}

impl Records {
    /// The record of the first frame alone.
    pub(crate) fn new(alloc: Global, most: usize) -> Result<Records, AllocError>
        requires { 1 ≤ most }
        ensures { IfOk result
            (λ r. r ≡ record { callers = []; current = first_record; most = most }) }
    {
        let all = room_for(alloc, most)?;
        Ok(Records {
            all,
            depth: 0,
            base: 0,
            stack_base: 0,
        })
    }

    /// The same records, in a list of their own.
    pub(crate) fn try_clone(&self, alloc: Global) -> Result<Records, AllocError>
        ensures { IfOk result (λ r. r ≡ self.now) }
    {
        let all = Vec::from_slice(alloc, self.all.as_slice())?;
        Ok(Records {
            all,
            depth: self.depth,
            base: self.base,
            stack_base: self.stack_base,
        })
    }

    /// How many callers there are.
    #[inline(always)]
    pub(crate) fn depth(&self) -> usize
        ensures { result ≡ length self.now.callers }
    {
        self.depth
    }

    /// Where the current frame's words begin.
    #[inline(always)]
    pub(crate) fn base(&self) -> usize
        ensures { result ≡ self.now.current.base }
    {
        self.base
    }

    /// Where the current frame's evaluation stack begins.
    #[inline(always)]
    pub(crate) fn stack_base(&self) -> usize
        ensures { result ≡ self.now.current.stack_base }
    {
        self.stack_base
    }

    /// The current one.
    #[inline(always)]
    pub(crate) fn current(&self) -> FrameRecord
        ensures { result ≡ self.now.current }
    {
        self.all[self.depth]
    }

    /// The caller of an index. There is one.
    pub(crate) fn caller(&self, index: usize) -> FrameRecord
        requires { index < length self.now.callers }
        ensures { result ≡ slice_index_or self.now.callers index result }
    {
        self.callers()[index]
    }

    /// Those of all callers.
    pub(crate) fn callers(&self) -> &[FrameRecord]
        ensures { result.now ≡ self.now.callers }
    {
        &self.all.as_slice()[..self.depth]
    }

    /// One more, which the current one calls. There may be one.
    #[inline(always)]
    pub(crate) fn begin(&mut self, frame: FrameRecord)
        requires { length self.old.callers + 1 < self.old.most }
        ensures { self.new ≡ record self.old
            { callers = self.old.callers ++ self.old.current ∷ []; current = frame } }
    {
        self.depth += 1;
        self.all[self.depth] = frame;
        self.base = frame.base as usize;
        self.stack_base = frame.stack_base as usize;
    }

    /// Takes the current one away, for its caller. There is one.
    #[inline(always)]
    pub(crate) fn end(&mut self)
        requires { 0 < length self.old.callers }
        ensures callers { self.old.callers ≡ self.new.callers ++ self.new.current ∷ [] }
        ensures most { self.new.most ≡ self.old.most }
    {
        self.depth -= 1;
        let caller = self.all[self.depth];
        self.base = caller.base as usize;
        self.stack_base = caller.stack_base as usize;
    }

    /// Puts others in the place of all. There may be as many.
    pub(crate) fn put(&mut self, callers: &[FrameRecord], current: FrameRecord)
        requires { length callers.now < self.old.most }
        ensures { self.new
            ≡ record { callers = callers.now; current = current; most = self.old.most } }
    {
        copy_records(&mut self.all, callers);
        self.depth = callers.len();
        self.all[self.depth] = current;
        self.base = current.base as usize;
        self.stack_base = current.stack_base as usize;
    }
}
