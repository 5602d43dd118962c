// What stands on the evaluation stack.

ghost use Rattle.std.specs.Prelude.{◌≡◌};
ghost use Rattle.zk_strict.specs.Stack.{word_under};

use zk_state::frames::Frames;

/// The word under the newest one of the evaluation stack (Z-Machine Standards Document 1.1, section 6.3). `None` where
/// there is none.
#[tactic(auto, unfolding(crate::specs::Stack::word_under), using(crate::proofs::Stacks::words_are))]
pub(crate) fn word_under(frames: &Frames) -> Option<u16>
    ensures { result ≡ word_under frames.now }
{
    let words = frames.frame(frames.depth()).words;
    if words.len() > 1 {
        Some(words[words.len() - 2])
    } else {
        None
    }
}
