// Laws of memory.

ghost use Rattle.zk_mem.specs.Laws.{ByteIsWritten, WordIsWritten, SetAgainStays, FreshAgainStays, PutsBack};
ghost use Rattle.zk_mem.specs.Laws.{RestartsOnce, SettlesOnce, TextLiesInside};

/// A write changes what it writes, and nothing else: no other byte, no length, and nothing of the file.
pub fn writes_change_alone()
    ensures byte { ByteIsWritten }
    ensures word { WordIsWritten }
{}

/// The header's fields that an interpreter sets stay where they are set again, so memory that is made fresh
/// twice is made fresh.
pub fn fresh_stays_fresh()
    ensures set_again { SetAgainStays }
    ensures fresh_again { FreshAgainStays }
{}

/// A text lies whole inside the story, two bytes to a word, so a walk over it takes at most half as many
/// words as the story has bytes.
pub fn texts_lie_inside()
    ensures { TextLiesInside }
{}

/// Bytes that are put back change bytes alone, and leave bits 0 and 1 of Flags 2. A second restart changes
/// nothing, and memory that is settled stays where it is settled again (Standard, section 6.1).
pub fn restarts_stay()
    ensures puts_back { PutsBack }
    ensures restarts_once { RestartsOnce }
    ensures settles_once { SettlesOnce }
{}
