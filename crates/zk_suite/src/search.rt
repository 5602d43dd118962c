// Texts that occur in others.

ghost use Rattle.std.specs.Prelude.{◌↔◌, IsTrue};
ghost use Rattle.zk_suite.specs.Texts.{Occurs};

/// Whether a text occurs in bytes, one byte after another; one of no bytes does so in all.
pub fn contains(bytes: &[u8], text: &[u8]) -> bool
    ensures { IsTrue result ↔ (Occurs text.now bytes.now) }
{
    for at in 0..bytes.len() + 1 {
        if bytes[at..].starts_with(text) {
            return true;
        }
    }
    false
}
