// Arithmetic and logic.

ghost use Rattle.std.specs.Prelude.{◌≡◌, ◌≤◌};
ghost use Rattle.std.specs.Int.{int_wrapping_div, w16};
ghost use Rattle.zk_step.specs.Arithmetic.{arithmetic, divided, signed, shifted_left, shifted_right, sign_shifted};
ghost use Rattle.zk_step.specs.Arithmetic.{shifted};
ghost use Rattle.std.specs.Prelude.{int_rem};

use zk_code::opcode::Arithmetic;
use zk_mem::fault::Fault;

/// The quotient of signed words, cut toward zero.
fn quotient(x: u16, y: u16) -> Result<u16, Fault>
    ensures { result ≡ divided y (int_wrapping_div w16 (signed x) (signed y)) }
{
    if y == 0 {
        return Err(Fault::DivisionByZero);
    }
    let quotient = x.cast_signed().wrapping_div(y.cast_signed());
    Ok(quotient.cast_unsigned())
}

/// The remainder of signed words, with the sign of the dividend.
fn remainder(x: u16, y: u16) -> Result<u16, Fault>
    ensures { result ≡ divided y (int_rem (signed x) (signed y)) }
{
    if y == 0 {
        return Err(Fault::DivisionByZero);
    }
    let remainder = x.cast_signed().wrapping_rem(y.cast_signed());
    Ok(remainder.cast_unsigned())
}

#[tactic(auto, unfolding(crate::specs::Arithmetic::shifted_left))]
fn shift_left(x: u16, places: u16) -> u16
    ensures { result ≡ shifted_left x places }
{
    if places > 15 {
        0
    } else {
        x.wrapping_shl(places as u32)
    }
}

#[tactic(auto, unfolding(crate::specs::Arithmetic::shifted_right))]
fn shift_right(x: u16, places: u16) -> u16
    ensures value { result ≡ shifted_right x places }
    ensures bound { result ≤ x }
{
    if places > 15 { 0 } else { x >> places }
}

#[tactic(auto, unfolding(crate::specs::Arithmetic::sign_shifted))]
fn shift_signed(x: u16, places: u16) -> u16
    ensures { result ≡ sign_shifted x places }
{
    if x < 0x8000 {
        shift_right(x, places)
    } else {
        !shift_right(!x, places)
    }
}

fn log_shift(x: u16, places: u16) -> u16
    ensures { result ≡ shifted shifted_right x places }
{
    if places < 0x8000 {
        shift_left(x, places)
    } else {
        shift_right(x, places.wrapping_neg())
    }
}

fn art_shift(x: u16, places: u16) -> u16
    ensures { result ≡ shifted sign_shifted x places }
{
    if places < 0x8000 {
        shift_left(x, places)
    } else {
        shift_signed(x, places.wrapping_neg())
    }
}

/// A word made of two; `not` takes the first alone. A zero divisor is `DivisionByZero`.
#[inline(always)]
#[tactic(auto, unfolding(crate::specs::Arithmetic::arithmetic))]
pub fn arithmetic(operation: Arithmetic, x: u16, y: u16) -> Result<u16, Fault>
    ensures { result ≡ arithmetic operation x y }
{
    match operation {
        Arithmetic::Or => Ok(x | y),
        Arithmetic::And => Ok(x & y),
        Arithmetic::Not => Ok(!x),
        Arithmetic::Add => Ok(x.wrapping_add(y)),
        Arithmetic::Sub => Ok(x.wrapping_sub(y)),
        Arithmetic::Mul => Ok(x.wrapping_mul(y)),
        Arithmetic::Div => quotient(x, y),
        Arithmetic::Mod => remainder(x, y),
        Arithmetic::LogShift => Ok(log_shift(x, y)),
        Arithmetic::ArtShift => Ok(art_shift(x, y)),
    }
}
