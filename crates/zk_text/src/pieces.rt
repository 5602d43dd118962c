// From Z-characters to the pieces of a text, one at a time.

ghost use Rattle.std.specs.Prelude.{◌≡◌, ◌∷◌, ◌++◌, ◌/◌, ◌%◌, List, ℕ, IfSome, IsTrue, OnSome};
ghost use Rattle.zk_text.specs.declared.alphabet.Row.TheVariants.{A0};
ghost use Rattle.zk_text.specs.declared.pieces.Piece.TheVariants.{Letter};
ghost use Rattle.zk_text.specs.declared.pieces.Pending.TheVariants as Pending;
ghost use Rattle.zk_text.specs.Pieces.{pieces, piece_before};
ghost use Rattle.zk_text.specs.Reading.{held_back};

use crate::alphabet::Row;

/// A part of a text that stands for something (Z-Machine Standards Document 1.1, sections 3.2 to
/// 3.5).
#[derive(Clone, Copy, Drop)]
pub enum Piece {
    /// A letter: its alphabet, and its Z-character from 6 to 31.
    Letter(Row, u8),
    /// A ZSCII code of ten bits, or a space.
    Code(u16),
    /// An abbreviation, by its number from 0 to 95.
    Abbreviation(u16),
}

/// What a reader holds back of a piece that is not yet whole.
#[derive(Clone, Copy, Drop)]
pub(crate) enum Pending {
    Nothing,
    /// A 1, 2 or 3.
    First,
    Second,
    Third,
    /// A 4 or a 5.
    ShiftToA1,
    ShiftToA2,
    /// A 5 and a 6.
    Escape,
    /// These, and the upper half of a code.
    UpperHalf(u8),
}

/// The next Z-character, where nothing is held back.
#[tactic(auto, unfolding(crate::specs::Pieces::pieces_past))]
#[inline(always)]
fn begin(character: u8) -> (Pending, Option<Piece>)
    ensures pieces { (zs : List ℕ) →
        pieces (character ∷ zs) ≡ piece_before result.1 (pieces (held_back result.0 ++ zs)) }
    ensures ends { OnSome result.1 (result.0 ≡ Pending.Nothing) }
{
    match character {
        0 => (Pending::Nothing, Some(Piece::Code(32))),
        1 => (Pending::First, None),
        2 => (Pending::Second, None),
        3 => (Pending::Third, None),
        4 => (Pending::ShiftToA1, None),
        5 => (Pending::ShiftToA2, None),
        _ => (Pending::Nothing, Some(Piece::Letter(Row::A0, character))),
    }
}

/// The piece that a Z-character is by itself: a letter of A0 or a space, where nothing is held back. Most are, so that
/// this is asked first.
#[tactic(auto, unfolding(crate::specs::Pieces::pieces_past))]
#[inline(always)]
pub(crate) fn alone(held: Pending, character: u8) -> Option<Piece>
    ensures { IfSome result (λ piece. (zs : List ℕ) → pieces (held_back held ++ character ∷ zs)
        ≡ piece ∷ pieces (held_back Pending.Nothing ++ zs)) }
{
    if !matches!(held, Pending::Nothing) {
        return None;
    }
    if character > 5 {
        return Some(Piece::Letter(Row::A0, character));
    }
    if character == 0 {
        return Some(Piece::Code(32));
    }
    None
}

/// Whether a Z-character is a letter of A0 by itself.
#[tactic(auto, unfolding(crate::specs::Pieces::pieces_past))]
#[inline(always)]
pub(crate) fn is_letter(held: Pending, character: u8) -> bool
    ensures { IsTrue result → (zs : List ℕ) → pieces (held_back held ++ character ∷ zs)
        ≡ Letter A0 character ∷ pieces (held_back Pending.Nothing ++ zs) }
{
    character > 5 && matches!(held, Pending::Nothing)
}

/// Whether the three Z-characters of a word are letters of A0 by themselves.
#[tactic(auto, unfolding(crate::specs::Pieces::pieces_past))]
#[inline(always)]
pub(crate) fn are_letters(held: Pending, word: u16) -> bool
    ensures { IsTrue result → (zs : List ℕ) →
        pieces (held_back held ++ word / 1024 % 32 ∷ word / 32 % 32 ∷ word % 32 ∷ zs)
        ≡ Letter A0 (word / 1024 % 32) ∷ Letter A0 (word / 32 % 32) ∷ Letter A0 (word % 32)
        ∷ pieces (held_back Pending.Nothing ++ zs) }
{
    is_letter(held, (word / 1024 % 32) as u8) && word / 32 % 32 > 5 && word % 32 > 5
}

/// The next Z-character: what is held back then, and the piece that it ends.
#[tactic(auto, unfolding(crate::specs::Pieces::pieces_past))]
#[inline(always)]
pub(crate) fn advance(held: Pending, character: u8) -> (Pending, Option<Piece>)
    ensures pieces { (zs : List ℕ) → pieces (held_back held ++ character ∷ zs)
        ≡ piece_before result.1 (pieces (held_back result.0 ++ zs)) }
    ensures ends { OnSome result.1 (result.0 ≡ Pending.Nothing) }
{
    match held {
        Pending::Nothing => begin(character),
        Pending::First => (
            Pending::Nothing,
            Some(Piece::Abbreviation(character as u16)),
        ),
        Pending::Second => (
            Pending::Nothing,
            Some(Piece::Abbreviation(32 + character as u16)),
        ),
        Pending::Third => (
            Pending::Nothing,
            Some(Piece::Abbreviation(64 + character as u16)),
        ),
        Pending::ShiftToA1 => {
            if character < 6 {
                begin(character)
            } else {
                (Pending::Nothing, Some(Piece::Letter(Row::A1, character)))
            }
        }
        Pending::ShiftToA2 => {
            if character < 6 {
                begin(character)
            } else if character == 6 {
                (Pending::Escape, None)
            } else {
                (Pending::Nothing, Some(Piece::Letter(Row::A2, character)))
            }
        }
        Pending::Escape => (Pending::UpperHalf(character), None),
        Pending::UpperHalf(high) => (
            Pending::Nothing,
            Some(Piece::Code(32 * high as u16 + character as u16)),
        ),
    }
}
