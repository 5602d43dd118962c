// Chunks of a form.

ghost use Rattle.std.specs.Prelude.{◌≡◌, ◌^◌, ◌<◌, ◌≤◌, length, option_map};
ghost use Rattle.zk_blorb.specs.Blorb.{chunk_at, number_of};
ghost use Rattle.zk_blorb.specs.Seen.{chunk_seen};

/// The number that four bytes spell, high byte first.
pub(crate) fn number(bytes: &[u8]) -> usize
    requires { 4 ≤ length bytes.now }
    ensures value { result ≡ number_of bytes.now }
    ensures small { result < 2 ^ 32 }
{
    let high = 16777216 * bytes[0] as usize + 65536 * bytes[1] as usize;
    high + 256 * bytes[2] as usize + bytes[3] as usize
}

/// A chunk: its type, which is four letters, and what it holds.
#[derive(Clone, Copy, Drop)]
pub(crate) struct Chunk<'a> {
    pub kind: &'a [u8],
    pub content: &'a [u8],
}

/// The chunk at an offset of a form; none where it goes past the form's end.
#[tactic(auto, unfolding(crate::specs::Blorb::chunk_at))]
pub(crate) fn chunk_at(form: &[u8], start: usize) -> Option<Chunk<'_>>
    requires { start < 2 ^ 32 }
    ensures { option_map chunk_seen result ≡ chunk_at form.now start }
{
    if form.len() < start + 8 {
        return None;
    }
    let end = start + 8 + number(&form[start + 4..start + 8]);
    if form.len() < end {
        return None;
    }
    Some(Chunk {
        kind: &form[start..start + 4],
        content: &form[start + 8..end],
    })
}
