// How the bytes of a text are marked that waits for a host.

ghost use Rattle.std.specs.Prelude.{◌≡◌, ◌≤◌, if◌then◌else◌};
ghost use Rattle.zk_host.specs.Marks.{bleep_mark, style_mark};

use zk_term::style::{Bleep, Style};

/// The lower window was erased before a byte.
pub(crate) const ERASED: u8 = 16;

/// The first bytes of a text that wait: how many they are, their style as the sum of the numbers that set it, and what
/// came before them, as the sum of 16 for an erasure of the lower window, 32 for a high bleep and 64 for a low one.
#[repr(C)]
#[derive(Drop)]
pub struct Run {
    pub length: usize,
    pub style: u32,
    pub before: u32,
}

/// A number, or nothing.
fn part(is_set: bool, mark: u8) -> u8
    requires { mark ≤ 8 }
    ensures within { result ≤ mark }
    ensures set { result ≡ (if is_set then mark else 0) }
{
    if is_set { mark } else { 0 }
}

/// A style's mark.
#[tactic(auto, unfolding(crate::specs::Marks::style_mark))]
pub(crate) fn style_mark(style: Style) -> u8
    ensures { result ≡ style_mark style }
{
    part(style.reverse, 1) + part(style.bold, 2) + part(style.italic, 4) + part(style.fixed, 8)
}

/// A bleep's mark.
pub(crate) fn bleep_mark(bleep: Bleep) -> u8
    ensures { result ≡ bleep_mark bleep }
{
    match bleep {
        Bleep::High => 32,
        Bleep::Low => 64,
    }
}
