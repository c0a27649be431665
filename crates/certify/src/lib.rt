// Certify: docs/SPECIFICATION.md, 'Certify'. For each point of the set outside a side's part, points of the part whose
// rows sum to its row. Check, of certificates that anybody made, is the crate `checker`.
#![tactic(auto)]

ghost use Rattle.std.specs.Prelude.{◌≡◌, ◌≤◌, length, drop};
ghost use Rattle.cube.specs.NumberLists.{Inside};
ghost use Rattle.cube.specs.Cube.{size};
ghost use Rattle.cube.specs.Mask.{points};
ghost use Rattle.refusal.specs.Verdict.{verdict};
ghost use Rattle.order.specs.BuiltIn.{graded};
ghost use Rattle.packed.specs.Packed.{unpacked};
ghost use Rattle.point_rows.specs.Workspace.{exponents, RowsFrom};
ghost use Rattle.certify.specs.Certify.{certify_inputs, certify_outcome, CertifyContract, PartKept};

use crate::sums::{combine_kept, write_certificate};
use cube::POINTS;
use cube::mask::Mask;
use filter::checks::{check_at_degree, check_filter_lengths, check_length, check_taps};
use filter::part::part_mask;
use immunity::CERTIFICATE;
use matrix::rank::keep_points;
use order::{Order, graded_order};
use packed::workspace::rows;
use packed::{Rows, WORKSPACE};
use point_rows::fill_rows;
use refusal::Refusal;

mod sums; // sums.rt: the sums of the points outside a part

// The certificate of `side` at degree `d`: for each point of `set` outside the side's part the kept points of the part
// whose rows sum to its row.
pub fn certify(
    set: &[u8],
    table: &[u8],
    n: usize,
    side: u8,
    d: usize,
    workspace: &mut [u64],
    certificate: &mut [u64],
) -> Result<(), Refusal>
    ensures { CertifyContract (certify_outcome graded set.now table.now n side d (length workspace.old) (length certificate.old))
        workspace.old workspace.new certificate.old certificate.new result }
{
    certify_checks(set, table, n, side, d, workspace.len(), certificate.len())?;
    let order = graded_order();
    certify_points(set, table, n, side, d, &order, workspace, certificate)
}

// The checks of the inputs: lengths, the taps, the bytes of the set and of the table, the degree, the side.
fn certify_checks(
    set: &[u8],
    table: &[u8],
    n: usize,
    side: u8,
    d: usize,
    workspace: usize,
    certificate: usize,
) -> Result<(), Refusal>
    ensures { result ≡ verdict (certify_inputs set.now table.now n side d workspace certificate) }
{
    check_filter_lengths(set, table)?;
    check_length(workspace, WORKSPACE)?;
    check_length(certificate, CERTIFICATE)?;
    check_taps(n)?;
    check_at_degree(set, table, n, side, d)
}

// The same where only the ranks of the set and the part are left to compare, the columns in the order lent; the workspace
// is then zero.
fn certify_points(
    set: &[u8],
    table: &[u8],
    n: usize,
    side: u8,
    d: usize,
    order: &Order,
    workspace: &mut [u64],
    certificate: &mut [u64],
) -> Result<(), Refusal>
    requires { verdict (certify_inputs set.now table.now n side d (length workspace.old) (length certificate.old)) ≡ Ok tt }
    ensures { CertifyContract (certify_outcome order.now.list set.now table.now n side d (length workspace.old) (length certificate.old))
        workspace.old workspace.new certificate.old certificate.new result }
{
    let set = set.as_array::<POINTS>().unwrap();
    let table = table.as_array::<POINTS>().unwrap();
    let part = part_mask(set, table, side);
    let ws = rows(workspace);
    fill_rows(ws, order, n);
    let kept = part_kept(ws, order, &part, n, d);
    if !combine_kept(ws, order, set, &part, &kept, n, d) {
        workspace.fill(0);
        return Err(Refusal::RanksDiffer);
    }
    let certificate = certificate.as_mut_array::<CERTIFICATE>().unwrap();
    write_certificate(ws, set, &part, certificate);
    workspace.fill(0);
    Ok(())
}

// The kept points of a part at degree `d` as a mask, filled by the function that fills Rank's. The first 512 rows of the
// workspace are scratch, and the others, the rows of points, stay.
fn part_kept(ws: &mut Rows, order: &Order, part: &Mask, n: usize, d: usize) -> Mask
    requires { (n ≤ 9) × (d ≤ n)
        × Inside (size n) (points part.now) × RowsFrom (exponents order.now.list n) n (unpacked ws.old) 0 }
    ensures marks_kept { PartKept order.now.list n d part.now result }
    ensures point_rows_stay { drop 512 (unpacked ws.new) ≡ drop 512 (unpacked ws.old) }
{
    let mut kept = [0u8; POINTS];
    keep_points(ws, order, part, n, d, &mut kept);
    kept
}
