// What numbers say of how a story is opened.

ghost use Rattle.std.specs.Prelude.{◌≡◌, ◌↔◌, None, IfSome, IsTrue};
ghost use Rattle.zk_host.specs.Exports.{AreLimits, limits_said, view_if};
ghost use Rattle.zk_host.specs.Within.{AreWithin};

use zk_mem::memory::ScreenSetup;
use zk_step::state::game_state::View;
use zk_vm::limits::Limits;

/// The limits that numbers say, where each lies in its range: frames, words, states to go back to, steps, the columns
/// of the screen, and whether it has styles.
pub fn limits_said(
    frames: u32,
    words: u32,
    undo: u32,
    steps: u32,
    columns: u32,
    styles: u32,
) -> Option<Limits>
    ensures said { IfSome result
        (λ l. (l ≡ limits_said frames words undo steps columns styles) × AreLimits l) }
    ensures none { result ≡ None → AreLimits (limits_said frames words undo steps columns styles) → ⊥ }
{
    if frames > 65_535 || words > 65_535 || undo > 64 || columns > 255 {
        return None;
    }
    let limits = Limits {
        frames: frames as u16,
        words: words as u16,
        undo: undo as u8,
        steps,
        screen: ScreenSetup {
            columns: columns as u8,
            styles: styles != 0,
        },
    };
    if limits.check() { Some(limits) } else { None }
}

/// Whether limits lie within others.
pub fn are_within(limits: Limits, most: Limits) -> bool
    ensures { IsTrue result ↔ AreWithin limits most }
{
    limits.frames <= most.frames
        && limits.words <= most.words
        && limits.undo <= most.undo
        && limits.steps <= most.steps
}

/// What is shown of the upper window.
pub fn view_if(upper: u32) -> View
    ensures { result ≡ view_if upper }
{
    if upper == 0 { View::Plain } else { View::Upper }
}
