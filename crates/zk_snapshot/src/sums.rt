// A sum of bytes.

ghost use Rattle.std.specs.Prelude.{◌≡◌};
ghost use Rattle.zk_snapshot.specs.Sums.{sum_of};

/// The two sums are reduced where one of them has come so far: that is rare, and neither outgrows its 64 bits.
const FAR: u64 = 0x100_0000_0000;

/// The sum of bytes: Adler-32 (RFC 1950, section 8.2).
#[tactic(auto, using(crate::proofs::Summing::ended, crate::proofs::Summing::more, crate::proofs::Summing::reduced))]
pub(crate) fn sum_of(bytes: &[u8]) -> u32
    ensures { result ≡ sum_of bytes.now }
{
    let mut first: u64 = 1;
    let mut second: u64 = 0;
    for byte in bytes {
        first += *byte as u64;
        second += first;
        if second >= FAR {
            first %= 65521;
            second %= 65521;
        }
    }
    (second % 65521 * 65536 + first % 65521) as u32
}
