// The index of resources.

ghost use Rattle.std.specs.Prelude.{◌≡◌, ◌^◌, ◌<◌, Ok, Err, IfOk, MatchResult};
ghost use Rattle.zk_blorb.specs.Blorb.{counts_rows, executable_in, index_in};

use crate::chunk::{chunk_at, number};
use crate::story::BlorbError;

/// Whether the content of an index has 12 bytes for each row that it counts.
fn counts_rows(content: &[u8]) -> bool
    ensures { result ≡ counts_rows content.now }
{
    content.len() >= 4 && content.len() == 4 + 12 * number(&content[..4])
}

/// The bytes of the rows of a form's index.
#[tactic(auto, unfolding(crate::specs::Blorb::index_in))]
pub(crate) fn index_in(form: &[u8]) -> Result<&[u8], BlorbError>
    ensures { MatchResult result (λ rows. index_in form.now ≡ Ok rows.now)
        (λ e. index_in form.now ≡ Err e) }
{
    let Some(index) = chunk_at(form, 12) else {
        return Err(BlorbError::CutOff);
    };
    if index.kind == b"RIdx".as_slice() && counts_rows(index.content) {
        Ok(&index.content[4..])
    } else {
        Err(BlorbError::NoIndex)
    }
}

/// Where the first executable starts, counted from the file's beginning.
#[tactic(auto, unfolding(crate::specs::Blorb::executable_in))]
pub(crate) fn executable_in(rows: &[u8]) -> Result<usize, BlorbError>
    ensures value { result ≡ executable_in rows.now }
    ensures small { IfOk result (λ start. start < 2 ^ 32) }
{
    for k in 0..rows.len() / 12 {
        let row = &rows[12 * k..12 * k + 12];
        if row.starts_with(b"Exec") {
            return Ok(number(&row[8..12]));
        }
    }
    Err(BlorbError::NoStory)
}
