// The lines of findings.

ghost use Rattle.std.specs.Prelude.{map};
ghost use Rattle.zk_inspect.specs.FindingLines.{finding_line};

use crate::check::finding::Finding;
use crate::fact::{Fact, FactWriter};
use itoa::Buffer;
use zk_term::line_writer::LineWriter;
use zk_term::writing::{hex_digits_of, write_texts, zeros_before};

/// Writes the line of a finding: its number after a `C`, its byte address of five hexadecimal digits at least, and what
/// is wrong in words.
#[tactic(auto, unfolding(crate::specs::FindingLines::finding_line, zk_term::specs::Numbers::address_digits))]
pub(crate) fn write_finding<P: LineWriter>(writer: &mut P, finding: Finding)
    ensures { P.wrote writer.old writer.new (finding_line finding) }
{
    let mut buffer = Buffer::new();
    let digits = hex_digits_of(finding.address);
    let number = buffer.format(finding.number.number()).as_bytes();
    let shown = &digits[zeros_before(finding.address)..];
    write_texts(
        writer,
        &[
            b"C",
            number,
            b" ",
            shown,
            b" ",
            finding.number.words().as_bytes(),
        ],
    );
}

/// Gives findings.
pub fn list_findings<F: FactWriter>(facts: &mut F, findings: &[Finding])
    ensures { F.wrote facts.old facts.new (map Fact.Finding findings.now) }
{
    for finding in findings {
        facts.write(Fact::Finding(*finding));
    }
}
