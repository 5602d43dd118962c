// Words on demand.

ghost use Rattle.std.specs.Prelude.{◌≡◌, ◌<◌, ℕ, List, Ok, Err, MatchResult, take};
ghost use Rattle.zk_tables.specs.Parsing.{letters_counted};
ghost use Rattle.zk_step.specs.TextBuffers.{own_dictionary};
ghost use Rattle.zk_step.specs.Words.{dictionary_or_own, words_changed};

use crate::input::story_words::StoryWords;
use crate::input::text_buffers::divide;
use crate::state::values::Values;
use arrayvec::ArrayVec;
use zk_code::opcode::Words;
use zk_mem::fault::Fault;
use zk_mem::memory::Memory;
use zk_tables::arrays::runs::put_bytes;
use zk_text::key::key;

/// The first nine of so many letters from an address on, all of which can be read. No more matter to a key.
#[tactic(auto, using(crate::proofs::Keys::seen_none, crate::proofs::Keys::seen_first, crate::proofs::Keys::seen_past))]
fn read_letters(memory: &Memory, address: u32, count: u16) -> Result<ArrayVec<u8, 9>, Fault>
    requires { address < 132000 }
    ensures { MatchResult result (λ v. (letters : List ℕ)
        × (letters_counted memory.now address count ≡ Ok letters) × (v.items ≡ take 9 letters))
        (λ e. letters_counted memory.now address count ≡ Err e) }
{
    let mut letters = ArrayVec::new();
    for i in 0..count as u32 {
        let code = memory.byte(address + i)?;
        if letters.len() < 9 {
            letters.push(code);
        }
    }
    Ok(letters)
}

/// The address of a dictionary, and of the story's own where it is 0.
fn dictionary_or_own(memory: &Memory, dictionary: u16) -> u16
    ensures { result ≡ dictionary_or_own memory.now dictionary }
{
    if dictionary == 0 {
        memory.header().dictionary
    } else {
        dictionary
    }
}

/// Divides a text into words, or stores the key of some letters.
#[tactic(auto, unfolding(crate::specs::Words::words_changed))]
pub fn change_words(operation: Words, memory: &mut Memory, values: &Values) -> Result<(), Fault>
    ensures { MatchResult result
        (λ _. words_changed operation memory.old values.now ≡ Ok memory.new)
        (λ f. words_changed operation memory.old values.now ≡ Err f) }
{
    match operation {
        Words::Tokenise => {
            let dictionary = dictionary_or_own(memory, values.third());
            let leaves_unknown = values.fourth() != 0;
            divide(
                memory,
                &StoryWords::unknown(),
                values.first(),
                values.second(),
                dictionary,
                leaves_unknown,
            )
        }
        Words::EncodeText => {
            let address = values.first() as u32 + values.third() as u32;
            let letters = read_letters(memory, address, values.second())?;
            let spelled = key(memory, letters.as_slice());
            put_bytes(memory, values.fourth() as u32, spelled.as_slice())
        }
    }
}
