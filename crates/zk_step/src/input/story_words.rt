// The dictionary of a story, where it always stands as it was found.

ghost use Rattle.std.specs.Prelude.{◌≡◌, IfOk};
ghost use Rattle.zk_tables.specs.Dictionaries.{dictionary_at, IsDictionaryOf};
ghost use Rattle.zk_step.specs.Laws.{fixed_parts};
ghost use Rattle.zk_step.specs.StoryWords.{AreWordsOf};

use zk_mem::fault::Fault;
use zk_mem::memory::Memory;
use zk_tables::dictionary::Dictionary;

/// What is known of a story's own dictionary from its start on: the dictionary, where it lies whole at or above the
/// static base, so that nothing can write to it.
#[derive(Clone, Copy, Drop)]
pub struct StoryWords {
    pub(crate) dictionary: Option<Dictionary>,
}

impl StoryWords {
    /// Nothing is known: dictionaries are looked at each time.
    #[tactic(auto, unfolding(crate::specs::StoryWords::AreWordsOf))]
    pub fn unknown() -> StoryWords
        ensures { (parts : _) → AreWordsOf parts result }
    {
        StoryWords { dictionary: None }
    }

    /// What is known of the dictionary that a story's header names.
    #[tactic(auto, unfolding(crate::specs::StoryWords::AreWordsOf))]
    pub fn of(memory: &Memory) -> StoryWords
        ensures { AreWordsOf (fixed_parts memory.now) result }
    {
        memory.is_of_file();
        let header = memory.header();
        if header.dictionary < header.static_base {
            return StoryWords { dictionary: None };
        }
        match Dictionary::at(memory, header.dictionary as u32) {
            Ok(dictionary) => StoryWords {
                dictionary: Some(dictionary),
            },
            Err(_) => StoryWords { dictionary: None },
        }
    }

    /// The dictionary at a byte address. `BadDictionary` as `Dictionary::at` has it.
    #[tactic(auto, unfolding(crate::specs::StoryWords::AreWordsOf), using(zk_tables::proofs::Finding::read_stands))]
    pub(crate) fn dictionary_at(&self, memory: &Memory, address: u16) -> Result<Dictionary, Fault>
        requires { AreWordsOf (fixed_parts memory.now) self.now }
        ensures value { result ≡ dictionary_at memory.now address }
        ensures stands { IfOk result (λ d. IsDictionaryOf memory.now d) }
    {
        memory.is_of_file();
        if let Some(dictionary) = self.dictionary {
            if dictionary.address == address as u32 {
                return Ok(dictionary);
            }
        }
        Dictionary::at(memory, address as u32)
    }
}
