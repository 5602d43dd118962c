// Lines of input in text buffers, and their words in parse buffers.

ghost use Rattle.std.specs.Prelude.{◌≡◌, ◌≤◌, ◌<◌, ◌+◌, ◌-◌, Bool, Ok, Err, MatchResult, length, take, map};
ghost use Rattle.zk_text.specs.Extra.{own_characters, lower_code};
ghost use Rattle.zk_step.specs.Laws.{fixed_parts};
ghost use Rattle.zk_step.specs.StoryWords.{AreWordsOf};
ghost use Rattle.zk_step.specs.TextBuffers.{taken_letters, ended_by_zero, early_line_put, counted_letters};
ghost use Rattle.zk_step.specs.TextBuffers.{later_line_put, divided_into_words, own_dictionary, line_put, is_filled};
ghost use Rattle.zk_step.specs.TextBuffers.{later_kept};
ghost use Rattle.zk_step.specs.TextBuffers.{kept_of};

use crate::input::story_words::StoryWords;
use arrayvec::ArrayVec;
use zk_mem::fault::Fault;
use zk_mem::memory::Memory;
use zk_tables::arrays::runs::put_bytes;
use zk_tables::parsing::tokenise;
use zk_text::extra::Extra;

/// The letters of a line that there is room for, in lower case.
#[tactic(auto, using(crate::proofs::Lines::taken_on, crate::proofs::Lines::taken_end))]
fn take_letters(memory: &Memory, room: u8, line: &[u8]) -> ArrayVec<u8, 255>
    ensures value { result.items ≡ taken_letters memory.now room line.now }
    ensures few { length result.items ≤ room }
{
    let extra = Extra::of(memory);
    let mut letters = ArrayVec::new();
    for i in 0..line.len().min(room as usize) {
        letters.push(extra.lower(line[i]));
    }
    letters
}

/// Stores a line up to version 4: letters from byte 1 on, and a zero after them.
#[tactic(auto, unfolding(crate::specs::TextBuffers::early_line_put))]
fn put_early_line(memory: &mut Memory, text: u16, line: &[u8]) -> Result<(), Fault>
    ensures { MatchResult result (λ _. early_line_put memory.old text line.now ≡ Ok memory.new)
        (λ e. early_line_put memory.old text line.now ≡ Err e) }
{
    let text = text as u32;
    let size = memory.byte(text)?;
    let letters = take_letters(memory, size.saturating_sub(1), line);
    put_bytes(memory, text + 1, letters.as_slice())?;
    memory.set_byte(text + 1 + letters.len() as u32, 0)
}

/// Whether a text buffer is filled by the letters that it has.
fn is_filled(size: u8, count: u8) -> bool
    ensures { result ≡ is_filled size count }
{
    count > 0 && size <= count
}

/// Stores a line from version 5 on: letters after those that are there, and in byte 1 how many they are.
#[tactic(auto, unfolding(crate::specs::TextBuffers::later_line_put))]
fn put_later_line(memory: &mut Memory, text: u16, line: &[u8]) -> Result<(), Fault>
    ensures { MatchResult result (λ _. later_line_put memory.old text line.now ≡ Ok memory.new)
        (λ e. later_line_put memory.old text line.now ≡ Err e) }
{
    let text = text as u32;
    let size = memory.byte(text)?;
    let count = memory.byte(text + 1)?;
    if is_filled(size, count) {
        return Ok(());
    }
    let letters = take_letters(memory, size.saturating_sub(count), line);
    put_bytes(memory, text + 2 + count as u32, letters.as_slice())?;
    memory.set_byte(text + 1, count + letters.len() as u8)
}

/// Divides the text in a text buffer into words, by the dictionary at an address. `words` is what is known of the
/// story's own.
#[tactic(auto, unfolding(crate::specs::TextBuffers::divided_into_words))]
pub fn divide(
    memory: &mut Memory,
    words: &StoryWords,
    text: u16,
    parse: u16,
    dictionary: u16,
    leaves_unknown: bool,
) -> Result<(), Fault>
    requires words { AreWordsOf (fixed_parts memory.old) words.now }
    ensures { MatchResult result
        (λ _. divided_into_words memory.old text parse dictionary leaves_unknown ≡ Ok memory.new)
        (λ e. divided_into_words memory.old text parse dictionary leaves_unknown ≡ Err e) }
{
    let dictionary = words.dictionary_at(memory, dictionary)?;
    tokenise(
        memory,
        text as u32,
        parse as u32,
        &dictionary,
        leaves_unknown,
    )
}

/// Stores a line in a text buffer and its words in a parse buffer.
#[tactic(auto, unfolding(crate::specs::TextBuffers::line_put), using(crate::proofs::SameStory::of_put_line))]
pub fn put_line(
    memory: &mut Memory,
    words: &StoryWords,
    text: u16,
    parse: u16,
    line: &[u8],
) -> Result<(), Fault>
    requires words { AreWordsOf (fixed_parts memory.old) words.now }
    ensures { MatchResult result (λ _. line_put memory.old text parse line.now ≡ Ok memory.new)
        (λ e. line_put memory.old text parse line.now ≡ Err e) }
{
    if memory.version() < 5 {
        put_early_line(memory, text, line)?;
        let dictionary = memory.header().dictionary;
        return divide(memory, words, text, parse, dictionary, false);
    }
    put_later_line(memory, text, line)?;
    if parse == 0 {
        return Ok(());
    }
    let dictionary = memory.header().dictionary;
    divide(memory, words, text, parse, dictionary, false)
}

/// The first letters of a line.
fn first_letters(line: &[u8], most: u8) -> &[u8]
    ensures { result.now ≡ take most line.now }
{
    &line[..line.len().min(most as usize)]
}

/// The letters that are kept of a line from version 5 on.
fn later_letters(line: &[u8], size: u8, count: u8) -> &[u8]
    ensures { result.now ≡ later_kept size count line.now }
{
    if is_filled(size, count) {
        return &[];
    }
    first_letters(line, size.saturating_sub(count))
}

/// The letters of a line that the text buffer at a byte address takes, as they were typed. It is `BadAddress` where
/// the buffer's first bytes can't be read.
#[tactic(auto, unfolding(crate::specs::TextBuffers::kept_of))]
pub fn kept_letters<'a>(memory: &Memory, text: u16, line: &'a [u8]) -> Result<&'a [u8], Fault>
    ensures value { MatchResult result (λ kept. kept_of memory.now text line.now ≡ Ok kept.now)
        (λ f. kept_of memory.now text line.now ≡ Err f) }
{
    let text = text as u32;
    let size = memory.byte(text)?;
    if memory.version() < 5 {
        return Ok(first_letters(line, size.saturating_sub(1)));
    }
    let count = memory.byte(text + 1)?;
    Ok(later_letters(line, size, count))
}
