// Files that a host has before it opens a story.

ghost use Rattle.std.specs.Prelude.{◌≡◌, unwrap_or, []};
ghost use Rattle.zk_blorb.specs.Blorb.{story_of};
ghost use Rattle.zk_blorb.specs.Looks.{looks_of, looks_text};
ghost use Rattle.zk_host.specs.Files.{IsStoryPut, blorb_number};

use crate::text::put_file;
use zk_blorb::looks::Looks;
use zk_blorb::story::{BlorbError, story_in};

/// Why no story is taken out of a file.
fn blorb_number(error: BlorbError) -> u32
    ensures { result ≡ blorb_number error }
{
    match error {
        BlorbError::NoBlorb => 8,
        _ => 9,
    }
}

/// Puts the story of a Blorb file at the front of a buffer and tells its length: `story_in` of `zk_blorb`. Answers 0; 3
/// where there is no room for it; 8 where the file is no Blorb file, or 9 where that has no story, and then buffer and
/// length stay.
pub fn put_story(file: &[u8], buffer: &mut [u8], length: &mut usize) -> u32
    ensures { IsStoryPut (story_of file.now) buffer.old buffer.new length.old length.new result }
{
    match story_in(file) {
        Ok(story) => put_file(story, buffer, length),
        Err(error) => blorb_number(error),
    }
}

/// What a file is by its first bytes, in words; none where they tell nothing.
pub fn words_on_file(file: &[u8]) -> &'static str
    ensures { result.now ≡ unwrap_or (looks_text (looks_of file.now)) [] }
{
    match Looks::of(file).text() {
        Some(text) => text,
        None => "",
    }
}
