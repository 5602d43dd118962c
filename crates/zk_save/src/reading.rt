// The bytes of a saved game, cut into chunks and frames.

ghost use Rattle.std.specs.Prelude.{◌≡◌, ◌^◌, ◌<◌, ◌≤◌, ◌+◌, length, option_map, IfSome};
ghost use Rattle.zk_save.specs.Reading.{number_of, first_chunk, first_of_frames, arguments_in, result_in};
ghost use Rattle.zk_save.specs.Counted.{chunk_cut, frame_cut};

/// The number that bytes spell, high byte first.
#[tactic(auto, using(crate::proofs::Numbers::number_end))]
pub(crate) fn number(bytes: &[u8]) -> u32
    requires { length bytes.now ≤ 4 }
    ensures value { result ≡ number_of bytes.now }
    ensures small { result < 256 ^ length bytes.now }
{
    let mut number: u32 = 0;
    for byte in bytes {
        number = 256 * number + *byte as u32;
    }
    number
}

/// A chunk, and what stands after it.
#[derive(Clone, Copy, Drop)]
pub(crate) struct ChunkView<'a> {
    pub name: &'a [u8],
    pub content: &'a [u8],
    pub rest: &'a [u8],
}

/// The chunk that bytes begin with; none where they end before it does. The byte that makes an odd length
/// even may be missing at the end.
pub(crate) fn chunk_at_front(bytes: &[u8]) -> Option<ChunkView<'_>>
    ensures { option_map (λ c. (chunk_cut c, c.rest.now)) result ≡ first_chunk bytes.now }
{
    if bytes.len() < 8 {
        return None;
    }
    let size = number(&bytes[4..8]) as usize;
    let end = 8 + size;
    if bytes.len() < end {
        return None;
    }
    let next = (end + size % 2).min(bytes.len());
    Some(ChunkView {
        name: &bytes[..4],
        content: &bytes[8..end],
        rest: &bytes[next..],
    })
}

/// A frame as it is written, and what stands after it.
#[derive(Clone, Copy, Drop)]
pub(crate) struct FrameBytes<'a> {
    pub locals: &'a [u8],
    pub words: &'a [u8],
    pub pc: u32,
    pub result: Option<u8>,
    pub supplied: u8,
    pub rest: &'a [u8],
}

/// How many arguments a byte has bits for, below the first that is clear.
#[tactic(auto, using(crate::proofs::Numbers::arguments_are))]
fn arguments(bits: u8) -> u8
    requires { bits < 128 }
    ensures value { result ≡ arguments_in 7 bits }
    ensures few { result ≤ 7 }
{
    bits.trailing_ones() as u8
}

/// The variable of a frame's result; none where it is dropped.
fn result_variable(flags: u8, variable: u8) -> Option<u8>
    ensures { result ≡ result_in flags variable }
{
    if flags / 16 % 2 == 0 {
        Some(variable)
    } else {
        None
    }
}

/// The frame that bytes begin with; none where they end before it does, or where bits are set that have no
/// meaning.
pub(crate) fn frame_at_front(bytes: &[u8]) -> Option<FrameBytes<'_>>
    ensures value { option_map frame_cut result ≡ first_of_frames bytes.now }
    ensures len { IfSome result
        (λ f. length f.locals.now + length f.words.now + length f.rest.now + 8 ≡ length bytes.now) }
    ensures locals { IfSome result (λ f. length f.locals.now ≤ 30) }
    ensures pc { IfSome result (λ f. f.pc < 2 ^ 24) }
    ensures supplied { IfSome result (λ f. f.supplied ≤ 7) }
{
    if bytes.len() < 8 {
        return None;
    }
    if bytes[3] > 31 || bytes[5] > 127 {
        return None;
    }
    let words = 8 + 2 * (bytes[3] % 16) as usize;
    let end = words + 2 * number(&bytes[6..8]) as usize;
    if bytes.len() < end {
        return None;
    }
    Some(FrameBytes {
        locals: &bytes[8..words],
        words: &bytes[words..end],
        pc: number(&bytes[..3]),
        result: result_variable(bytes[3], bytes[4]),
        supplied: arguments(bytes[5]),
        rest: &bytes[end..],
    })
}
