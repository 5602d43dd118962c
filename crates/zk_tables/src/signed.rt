// Signed words.

ghost use Rattle.std.specs.Prelude.{◌≡◌, ◌≤◌};
ghost use Rattle.zk_tables.specs.Signed.{magnitude};

/// A signed word without its sign.
pub(crate) fn magnitude(word: u16) -> u16
    ensures value { result ≡ magnitude word }
    ensures bound { result ≤ 32768 }
{
    if word < 0x8000 {
        word
    } else {
        (65_536 - word as u32) as u16
    }
}
