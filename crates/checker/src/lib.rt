// Check: docs/SPECIFICATION.md, 'Check'. Whether numbers are a certificate, whoever made it.
#![tactic(auto)]

ghost use Rattle.std.specs.Prelude.{◌≡◌, length};
ghost use Rattle.refusal.specs.Verdict.{verdict};
ghost use Rattle.cube.specs.Mask.{points};
ghost use Rattle.order.specs.BuiltIn.{graded};
ghost use Rattle.filter.specs.Part.{part as part_of};
ghost use Rattle.immunity.specs.CertificateTest.{certifies};
ghost use Rattle.checker.specs.Check.{check_inputs, CheckContract};

use crate::checked_rows::{columns_row, others_row, rows_right};
use cube::POINTS;
use filter::checks::{check_at_degree, check_filter_lengths, check_length, check_taps};
use filter::part::part_mask;
use immunity::CERTIFICATE;
use packed::ROW_WORDS;
use refusal::Refusal;

mod checked_rows; // checked_rows.rt: the rows of a certificate, checked

// Whether the numbers are a certificate of `side` at degree `d`: for each point of `set` outside the side's part they name
// points of the part whose rows sum to its row, and nothing else.
pub fn check(
    set: &[u8],
    table: &[u8],
    n: usize,
    side: u8,
    d: usize,
    certificate: &[u64],
) -> Result<bool, Refusal>
    ensures { CheckContract graded set.now table.now n side d certificate.now result }
{
    check_inputs(set, table, n, side, d, certificate.len())?;
    Ok(is_certificate(set, table, n, side, d, certificate))
}

// The checks: lengths, the taps, the bytes of the set and of the table, the degree, the side.
fn check_inputs(
    set: &[u8],
    table: &[u8],
    n: usize,
    side: u8,
    d: usize,
    certificate: usize,
) -> Result<(), Refusal>
    ensures { result ≡ verdict (check_inputs set.now table.now n side d certificate) }
{
    check_filter_lengths(set, table)?;
    check_length(certificate, CERTIFICATE)?;
    check_taps(n)?;
    check_at_degree(set, table, n, side, d)
}

// Whether the numbers are a certificate, of inputs that passed the checks.
fn is_certificate(
    set: &[u8],
    table: &[u8],
    n: usize,
    side: u8,
    d: usize,
    certificate: &[u64],
) -> bool
    requires { verdict (check_inputs set.now table.now n side d (length certificate.now)) ≡ Ok tt }
    ensures { result ≡ certifies graded n d (points set.now) (part_of side set.now table.now) certificate.now }
{
    let set = set.as_array::<POINTS>().unwrap();
    let table = table.as_array::<POINTS>().unwrap();
    let part = part_mask(set, table, side);
    let others = others_row(&part);
    let columns = columns_row(n, d as u16);
    let (rows, _) = certificate.as_chunks::<ROW_WORDS>();
    let rows = rows.as_array::<POINTS>().unwrap();
    rows_right(rows, set, &part, others, columns)
}
