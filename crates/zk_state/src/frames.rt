// Frames: one list of all words, and a record for each frame that says which of them are its own.

ghost use Rattle.std.specs.Prelude.{ℕ, ◌≡◌, ◌+◌, ◌<◌, ◌≤◌, ◌^◌, ◌++◌, ◌∷◌, [], ◌==◌, if◌then◌else◌, nat_le, ◌&&◌};
ghost use Rattle.std.specs.Prelude.{length, take, reverse, slice_get, slice_index_or, Some, MatchResult, IfOk};
ghost use Rattle.zk_state.specs.Flat.{frame_of};
ghost use Rattle.zk_state.specs.Frames.{frames_of, first_frames, with_frames, sizes_of, BeginsFirst, IsFrame, total_of};
ghost use Rattle.zk_state.specs.Frames.{pushed, popped, top_of, with_top, local_of, with_local, called, filled, left};
ghost use Rattle.zk_state.specs.Frames.{unwound, IsBounded, GivesBack, RefusesBack};

use crate::records::{FIRST, FrameRecord, Records};
use crate::refusal::{Limit, Refusal};
use std::alloc::{AllocError, Global};
use std::marker::Model;
use zk_mem::fault::Fault;

/// Where a routine returns to: the byte address, and the variable that takes its result, if any.
#[derive(Clone, Copy, PartialEq, Eq, Drop)]
pub struct Return {
    pub pc: u32,
    pub result: Option<u8>,
}

/// The frames of the routines that have called one another (Standard, section 6.1), within bounds
/// on their number and on the words that they hold together: local variables and evaluation
/// stacks. All room is taken at the start, so no other call can fail for lack of memory.
#[derive(Drop)]
pub struct Frames {
    records: Records,
    top: usize,
    words: Vec<u16>,
    most_frames: usize,
    most_words: usize,
}

impl Model for Frames {
    ghost use Rattle.zk_state.specs.Frames.{FrameList};

    ghost Value = { FrameList };

    ghost use Rattle.zk_state.specs.Flat.{seen, IsKept};

    ghost view = { seen };

    ghost invariant = { IsKept };
}

/// A copy of all frames, which takes as much memory as they fill.
#[derive(Drop)]
pub struct FramesCopy {
    current: FrameRecord,
    callers: Vec<FrameRecord>,
    words: Vec<u16>,
}

impl Model for FramesCopy {
    ghost use Rattle.std.specs.Prelude.{List};
    ghost use Rattle.zk_state.specs.Frames.{Frame};

    ghost Value = { List Frame };

    ghost use Rattle.zk_state.specs.Flat.{copied, IsCopied};

    ghost view = { copied };

    ghost invariant = { IsCopied };
}

/// A frame as it stands: its local variables, its evaluation stack with the newest word last, the byte
/// address that it returns to, the variable that takes its result, and how many arguments it was given.
/// `start` is the byte address of its routine's first instruction, and 0 where that is not known.
#[derive(Clone, Copy, Drop)]
pub struct FrameView<'a> {
    pub locals: &'a [u16],
    pub words: &'a [u16],
    pub pc: u32,
    pub start: u32,
    pub result: Option<u8>,
    pub supplied: u8,
}

/// The record of a number, where the current one comes after those of its callers.
fn record_at(callers: &[FrameRecord], current: FrameRecord, at: usize) -> FrameRecord
    requires { at ≤ length callers.now }
    ensures { result ≡ slice_index_or (callers.now ++ current ∷ []) at current }
{
    if at == callers.len() {
        current
    } else {
        callers[at]
    }
}

/// Where the words of a frame end: where those of the next one begin, and at the top for the current one.
fn end_of(callers: &[FrameRecord], current: FrameRecord, top: usize, at: usize) -> usize
    requires { at ≤ length callers.now }
    ensures { result ≡ (if at == length callers.now then top
        else (slice_index_or (callers.now ++ current ∷ []) (at + 1) current).base) }
{
    if at == callers.len() {
        top
    } else {
        record_at(callers, current, at + 1).base as usize
    }
}

/// The frame of a record, whose words end at an index.
#[tactic(auto, using(crate::proofs::Views::locals_are, crate::proofs::Views::words_are))]
fn view_of<'a>(words: &'a [u16], own: FrameRecord, end: usize) -> FrameView<'a>
    requires base { own.base ≤ own.stack_base }
    requires stack_base { own.stack_base ≤ end }
    requires end { end ≤ length words.now }
    ensures words { length result.words.now ≤ end }
    ensures value { frame_of own (take end words.now) ≡ record {
      locals = result.locals.now;
      words = result.words.now;
      pc = result.pc;
      result = result.result;
      supplied = result.supplied;
    } }
{
    FrameView {
        locals: &words[own.base as usize..own.stack_base as usize],
        words: &words[own.stack_base as usize..end],
        pc: own.pc,
        start: own.start,
        result: own.result,
        supplied: own.supplied,
    }
}

/// Copies words over others, from an index on.
#[inline(always)]
fn copy_words(words: &mut Vec<u16>, at: usize, from: &[u16])
    requires { at + length from.now ≤ length words.old.items }
    ensures front { take (at + length from.now) words.new.items
        ≡ take at words.old.items ++ from.now }
    ensures len { length words.new.items ≡ length words.old.items }
{
    for k in 0..from.len() {
        words[at + k] = from[k];
    }
}

/// Fills so many words from an index on: with arguments, and past their last with 0.
#[inline(always)]
#[tactic(auto, using(crate::proofs::Calls::of_fill_words))]
fn fill_words(words: &mut Vec<u16>, at: usize, count: usize, from: &[u16])
    requires { at + count ≤ length words.old.items }
    ensures front { take (at + count) words.new.items
        ≡ take at words.old.items ++ filled count from.now }
    ensures len { length words.new.items ≡ length words.old.items }
{
    for k in 0..count {
        words[at + k] = from.get(k).copied().unwrap_or(0);
    }
}

impl FramesCopy {
    /// The same frames, in a copy of their own.
    pub fn try_clone(&self, alloc: Global) -> Result<FramesCopy, AllocError>
        ensures { IfOk result (λ c. c ≡ self.now) }
    {
        let callers = Vec::from_slice(alloc, self.callers.as_slice())?;
        let words = Vec::from_slice(alloc, self.words.as_slice())?;
        Ok(FramesCopy {
            current: self.current,
            callers,
            words,
        })
    }
}

impl Frames {
    /// The first frame alone, without local variables and words (Standard, section 5.5). There may
    /// be at most `most_frames` frames, the first among them, and `most_words` words.
    pub fn new(alloc: Global, most_frames: u16, most_words: u16) -> Result<Frames, AllocError>
        requires { 1 ≤ most_frames }
        ensures { IfOk result (λ s. s ≡ first_frames most_frames most_words) }
    {
        let records = Records::new(alloc, most_frames as usize)?;
        let words = vec![in alloc; 0; most_words as usize]?;
        Ok(Frames {
            records,
            words,
            top: 0,
            most_frames: most_frames as usize,
            most_words: most_words as usize,
        })
    }

    /// The number of the current frame, which is how many lie above the first (Standard, section
    /// 15, catch).
    pub fn depth(&self) -> u16
        ensures value { result ≡ length self.now.callers }
        ensures bounded { IsBounded self.now }
        ensures few { self.now.most_frames ≤ 65535 }
    {
        self.records.depth() as u16
    }

    /// There are no more frames and words than there may be.
    #[inline(always)]
    pub fn is_bounded(&self)
        ensures { IsBounded self.now }
    {
        let _ = self.depth();
    }

    /// The oldest frame is the first one, which has no local variables and returns nowhere.
    pub fn begins_first(&self)
        ensures { BeginsFirst self.now }
    {
        let _ = &self.records;
    }

    /// The frame of a number, where the first has number 0.
    pub fn frame(&self, number: u16) -> FrameView<'_>
        requires { number ≤ length self.now.callers }
        ensures value { slice_get (reverse (frames_of self.now)) number
            ≡ Some (record {
              locals = result.locals.now;
              words = result.words.now;
              pc = result.pc;
              result = result.result;
              supplied = result.supplied;
            }) }
        ensures is_frame { IsFrame (record {
          locals = result.locals.now;
          words = result.words.now;
          pc = result.pc;
          result = result.result;
          supplied = result.supplied;
        }) }
        ensures words { length result.words.now ≤ 65535 }
    {
        let at = number as usize;
        let callers = self.records.callers();
        let current = self.records.current();
        let own = record_at(callers, current, at);
        let end = end_of(callers, current, self.top, at);
        view_of(self.words.as_slice(), own, end)
    }

    /// Leaves a first frame alone, without words, as at the start (Standard, section 6.1.3).
    pub fn restart(&mut self)
        ensures { self.new ≡ first_frames self.old.most_frames self.old.most_words }
    {
        self.records.put(&[], FIRST);
        self.top = 0;
    }

    /// A copy of all frames.
    pub fn copy(&self, alloc: Global) -> Result<FramesCopy, AllocError>
        ensures { IfOk result (λ c. c ≡ frames_of self.now) }
    {
        let callers = Vec::from_slice(alloc, self.records.callers())?;
        let words = Vec::from_slice(alloc, &self.words.as_slice()[..self.top])?;
        Ok(FramesCopy {
            current: self.records.current(),
            callers,
            words,
        })
    }

    /// Frames of their own, as these stand.
    pub fn try_clone(&self, alloc: Global) -> Result<Frames, AllocError>
        ensures { IfOk result (λ s. s ≡ self.now) }
    {
        let records = self.records.try_clone(alloc)?;
        let words = Vec::from_slice(alloc, self.words.as_slice())?;
        Ok(Frames {
            records,
            words,
            top: self.top,
            most_frames: self.most_frames,
            most_words: self.most_words,
        })
    }

    /// Whether there may be as many frames and words as a copy has.
    pub fn can_hold(&self, copy: &FramesCopy) -> bool
        ensures { result ≡ (nat_le (length copy.now) self.now.most_frames && nat_le
            (sizes_of copy.now) self.now.most_words) }
    {
        copy.callers.len() < self.most_frames && copy.words.len() <= self.most_words
    }

    /// Puts the frames of a copy in the place of all. There may be as many of them, and of their words.
    pub fn put_back(&mut self, copy: &FramesCopy)
        requires frames { length copy.now ≤ self.old.most_frames }
        requires words { sizes_of copy.now ≤ self.old.most_words }
        ensures { self.new ≡ with_frames self.old copy.now }
    {
        self.records.put(copy.callers.as_slice(), copy.current);
        copy_words(&mut self.words, 0, copy.words.as_slice());
        self.top = copy.words.len();
    }

    /// How many frames there may be, the first among them.
    pub fn most_frames(&self) -> u16
        ensures { result ≡ self.now.most_frames }
    {
        self.most_frames as u16
    }

    /// How many words all frames may hold together, local variables included.
    pub fn most_words(&self) -> u16
        ensures { result ≡ self.now.most_words }
    {
        self.most_words as u16
    }

    /// How many words all frames hold together, local variables included.
    pub fn words(&self) -> u32
        ensures value { result ≡ total_of self.now }
        ensures few { result ≤ 65535 }
    {
        self.top as u32
    }

    /// How many arguments the current routine was given (Standard, section 15, check_arg_count).
    pub fn supplied(&self) -> u8
        ensures { result ≡ self.now.current.supplied }
    {
        self.records.current().supplied
    }

    /// Pushes a word on the evaluation stack (Standard, section 6.3). Where there is no room for
    /// it, this is `Limit::Words`.
    #[tactic(auto, unfolding(crate::specs::Frames::pushed, crate::specs::Frames::within_bounds))]
    pub fn push(&mut self, value: u16) -> Result<(), Refusal>
        ensures { MatchResult result
            (λ _. pushed self.old value ≡ Ok self.new)
            (λ e. (pushed self.old value ≡ Err e) × (self.new ≡ self.old)) }
    {
        if self.top >= self.most_words {
            return Err(Refusal::Limit(Limit::Words));
        }
        self.words[self.top] = value;
        self.top += 1;
        Ok(())
    }

    /// Pulls the newest word off the evaluation stack (Standard, section 6.3). Where the current
    /// routine has none there, this is `Fault::StackEmpty`.
    #[tactic(auto, unfolding(crate::specs::Frames::popped))]
    pub fn pop(&mut self) -> Result<u16, Fault>
        ensures { MatchResult result
            (λ value. popped self.old ≡ Ok (self.new, value))
            (λ e. (popped self.old ≡ Err e) × (self.new ≡ self.old)) }
    {
        if self.top <= self.records.stack_base() {
            return Err(Fault::StackEmpty);
        }
        self.top -= 1;
        Ok(self.words[self.top])
    }

    /// The newest word of the evaluation stack, which stays there (Standard, section 6.3.4). Where
    /// the current routine has none there, this is `Fault::StackEmpty`.
    #[tactic(auto, unfolding(crate::specs::Frames::top_of))]
    pub fn top(&self) -> Result<u16, Fault>
        ensures { result ≡ top_of self.now }
    {
        if self.top <= self.records.stack_base() {
            return Err(Fault::StackEmpty);
        }
        Ok(self.words[self.top - 1])
    }

    /// Puts a word in the place of the newest one of the evaluation stack (Standard, section
    /// 6.3.4). Where the current routine has none there, this is `Fault::StackEmpty`.
    #[tactic(auto, unfolding(crate::specs::Frames::with_top))]
    pub fn set_top(&mut self, value: u16) -> Result<(), Fault>
        ensures { MatchResult result
            (λ _. with_top self.old value ≡ Ok self.new)
            (λ e. (with_top self.old value ≡ Err e) × (self.new ≡ self.old)) }
    {
        if self.top <= self.records.stack_base() {
            return Err(Fault::StackEmpty);
        }
        self.words[self.top - 1] = value;
        Ok(())
    }

    /// A local variable of the current routine, by its number from 1 on (Standard, section 4.2.2).
    /// Where it has no such one, this is `Fault::NoSuchLocal`.
    #[tactic(auto, unfolding(crate::specs::Frames::local_of))]
    pub fn local(&self, number: u8) -> Result<u16, Fault>
        ensures { result ≡ local_of self.now number }
    {
        let end = self.records.base() + number as usize;
        if number == 0 || end > self.records.stack_base() {
            return Err(Fault::NoSuchLocal);
        }
        Ok(self.words[end - 1])
    }

    /// Writes a local variable of the current routine, by its number from 1 on (Standard, section
    /// 4.2.2). Where it has no such one, this is `Fault::NoSuchLocal`.
    #[tactic(auto, unfolding(crate::specs::Frames::with_local))]
    pub fn set_local(&mut self, number: u8, value: u16) -> Result<(), Fault>
        ensures { MatchResult result
            (λ _. with_local self.old number value ≡ Ok self.new)
            (λ e. (with_local self.old number value ≡ Err e) × (self.new ≡ self.old)) }
    {
        let end = self.records.base() + number as usize;
        if number == 0 || end > self.records.stack_base() {
            return Err(Fault::NoSuchLocal);
        }
        self.words[end - 1] = value;
        Ok(())
    }

    /// A local variable of the current routine, by its index from 0 on, which is one less than its number.
    #[inline(always)]
    #[tactic(auto, unfolding(crate::specs::Frames::local_of))]
    pub fn local_at(&self, index: u8) -> Result<u16, Fault>
        ensures { result ≡ local_of self.now (index + 1) }
    {
        let at = self.records.base() + index as usize;
        if at >= self.records.stack_base() {
            return Err(Fault::NoSuchLocal);
        }
        Ok(self.words[at])
    }

    /// Writes a local variable of the current routine, by its index from 0 on.
    #[inline(always)]
    #[tactic(auto, unfolding(crate::specs::Frames::with_local))]
    pub fn set_local_at(&mut self, index: u8, value: u16) -> Result<(), Fault>
        ensures { MatchResult result
            (λ _. with_local self.old (index + 1) value ≡ Ok self.new)
            (λ e. (with_local self.old (index + 1) value ≡ Err e) × (self.new ≡ self.old)) }
    {
        let at = self.records.base() + index as usize;
        if at >= self.records.stack_base() {
            return Err(Fault::NoSuchLocal);
        }
        self.words[at] = value;
        Ok(())
    }

    /// Begins a routine with these local variables. It will return to the byte address `pc`,
    /// its first instruction stands at the byte address `start`, or `start` is 0 where that is not
    /// known, its result goes to the variable `store`, and it was given `supplied` arguments
    /// (Standard, section 6.4). With a frame too many this is `Limit::Frames`, else with words too
    /// many `Limit::Words`.
    #[tactic(auto, using(crate::proofs::Calls::filled_all))]
    pub fn call(
        &mut self,
        locals: &[u16],
        pc: u32,
        start: u32,
        store: Option<u8>,
        supplied: u8,
    ) -> Result<(), Refusal>
        requires locals { length locals.now ≤ 15 }
        requires pc { pc < 2 ^ 24 }
        requires supplied { supplied ≤ 7 }
        ensures { MatchResult result
            (λ _. called self.old locals.now pc store supplied ≡ Ok self.new)
            (λ e. (called self.old locals.now pc store supplied ≡ Err e)
            × (self.new ≡ self.old)) }
    {
        let count = locals.len() as u8;
        self.call_with(count, locals, pc, start, store, supplied)
    }

    /// Begins a routine with so many local variables, of which the first take the arguments and the others 0,
    /// as `call` does.
    #[inline(always)]
    #[tactic(auto, unfolding(crate::specs::Frames::called, crate::specs::Frames::within_bounds))]
    pub fn call_with(
        &mut self,
        count: u8,
        arguments: &[u16],
        pc: u32,
        start: u32,
        store: Option<u8>,
        supplied: u8,
    ) -> Result<(), Refusal>
        requires locals { count ≤ 15 }
        requires pc { pc < 2 ^ 24 }
        requires supplied { supplied ≤ 7 }
        ensures { MatchResult result
            (λ _. called self.old (filled count arguments.now) pc store supplied ≡ Ok self.new)
            (λ e. (called self.old (filled count arguments.now) pc store supplied ≡ Err e)
            × (self.new ≡ self.old)) }
    {
        if self.records.depth() + 1 >= self.most_frames {
            return Err(Refusal::Limit(Limit::Frames));
        }
        let stack_base = self.top + count as usize;
        if stack_base > self.most_words {
            return Err(Refusal::Limit(Limit::Words));
        }
        fill_words(&mut self.words, self.top, count as usize, arguments);
        self.records.begin(FrameRecord {
            base: self.top as u32,
            stack_base: stack_base as u32,
            pc,
            start,
            result: store,
            supplied,
        });
        self.top = stack_base;
        Ok(())
    }

    /// Leaves the current routine, with its words, for the one that called it, and tells where
    /// that goes on (Standard, section 6.3.2). In the first frame this is `Fault::ReturnFromMain`.
    #[tactic(auto, unfolding(crate::specs::Frames::left))]
    pub fn leave(&mut self) -> Result<Return, Fault>
        ensures { MatchResult result
            (λ back. left self.old ≡ Ok (self.new, back))
            (λ e. (left self.old ≡ Err e) × (self.new ≡ self.old)) }
    {
        if self.records.depth() == 0 {
            return Err(Fault::ReturnFromMain);
        }
        let own = self.records.current();
        self.top = self.records.base();
        self.records.end();
        Ok(Return {
            pc: own.pc,
            result: own.result,
        })
    }

    /// Whether the current routine can return a value to its caller, and the variable that takes it, if
    /// any. In the first frame this is `Fault::ReturnFromMain`. Where the variable is a local one that the
    /// caller has not, it is `Fault::NoSuchLocal`; where it is the evaluation stack and has no room,
    /// `Limit::Words`. Of a global variable nothing is asked.
    pub fn check_return(&self) -> Result<Option<u8>, Refusal>
        ensures { MatchResult result
            (λ v. (value : ℕ) → GivesBack self.now value v)
            (λ e. (value : ℕ) → RefusesBack self.now value e) }
    {
        let depth = self.records.depth();
        if depth == 0 {
            return Err(Refusal::Fault(Fault::ReturnFromMain));
        }
        let caller = self.records.caller(depth - 1);
        let Some(variable) = self.records.current().result else {
            return Ok(None);
        };
        if variable >= 16 {
            return Ok(Some(variable));
        }
        if variable == 0 {
            if self.records.base() >= self.most_words {
                return Err(Refusal::Limit(Limit::Words));
            }
            return Ok(Some(variable));
        }
        if caller.base + variable as u32 > caller.stack_base {
            return Err(Refusal::Fault(Fault::NoSuchLocal));
        }
        Ok(Some(variable))
    }

    /// Drops the frames above the one of a number, where the first has number 0 (Standard, section
    /// 15, throw). Where there is no such frame, this is `Fault::BadFrame`.
    #[tactic(auto, unfolding(crate::specs::Frames::unwound))]
    pub fn unwind(&mut self, number: u16) -> Result<(), Fault>
        ensures { MatchResult result
            (λ _. unwound self.old number ≡ Ok self.new)
            (λ e. (unwound self.old number ≡ Err e) × (self.new ≡ self.old)) }
    {
        let depth = self.depth();
        if number > depth {
            return Err(Fault::BadFrame);
        }
        for _i in number..depth {
            let _ = self.leave();
        }
        Ok(())
    }
}
