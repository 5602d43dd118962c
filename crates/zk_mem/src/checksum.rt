// The checksum of a story file.

ghost use Rattle.std.specs.Prelude.{◌≡◌, ◌%◌, ◌≤◌, length, sum};
ghost use Rattle.zk_mem.specs.Checksum.{stated_length, summed_end, summed_bytes, file_sum, has_right_sum};
ghost use Rattle.zk_mem.specs.Header.{header_of};

use crate::header::{Header, unpack};

/// The sum of bytes, modulo 65,536.
#[tactic(auto, using(crate::proofs::Sums::sum_start, crate::proofs::Sums::sum_step, crate::proofs::Sums::sum_end))]
fn sum_bytes(bytes: &[u8]) -> u16
    ensures { result ≡ sum bytes.now % 65536 }
{
    let mut total: u16 = 0;
    for byte in bytes {
        total = total.wrapping_add(*byte as u16);
    }
    total
}

/// Where the bytes end that are summed: at the length that the header states, and at the file's end where
/// none is stated, or more than there is.
fn end_of(file: &[u8], header: &Header) -> usize
    requires { header.now ≡ header_of file.now }
    ensures value { result ≡ summed_end file.now }
    ensures within { result ≤ length file.now }
{
    let stated = unpack(header.version, header.file_length) as usize;
    if stated == 0 {
        return file.len();
    }
    stated.min(file.len())
}

/// The sum of a file's bytes after the header, up to the length that its header states, modulo 65,536
/// (Standard, section 15, `verify`). It goes up to the file's end where no length is stated, or more
/// than there is.
#[tactic(auto, using(crate::proofs::Sums::sum_none, crate::proofs::Sums::sum_is))]
pub(crate) fn sum_of(file: &[u8], header: &Header) -> u16
    requires header { header.now ≡ header_of file.now }
    requires long { 64 ≤ length file.now }
    ensures { result ≡ file_sum file.now }
{
    let end = end_of(file, header);
    if end < 64 {
        return 0;
    }
    sum_bytes(&file[64..end])
}

/// Whether a file's stated length lies in it and its sum is the one that its header states (Standard,
/// section 15, `verify`).
#[tactic(auto, unfolding(crate::specs::Checksum::has_right_sum))]
pub(crate) fn is_right(file: &[u8], header: &Header) -> bool
    requires header { header.now ≡ header_of file.now }
    requires long { 64 ≤ length file.now }
    ensures { result ≡ has_right_sum file.now }
{
    unpack(header.version, header.file_length) as usize <= file.len()
        && sum_of(file, header) == header.checksum
}
