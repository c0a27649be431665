// Rank: docs/SPECIFICATION.md, 'Rank'. The rank of the points of a mask at a degree, the additions that finding it takes,
// and the points that were kept.
ghost use Rattle.std.specs.Prelude.{◌≡◌, true, ◌≤◌, length, drop};
ghost use Rattle.cube.specs.NumberLists.{Inside};
ghost use Rattle.cube.specs.Cube.{size};
ghost use Rattle.cube.specs.Mask.{well_formed, points as points_of};
ghost use Rattle.order.specs.BuiltIn.{graded};
ghost use Rattle.packed.specs.Packed.{unpacked, zeros};
ghost use Rattle.point_rows.specs.Workspace.{exponents, RowsFrom};
ghost use Rattle.refusal.specs.Verdict.{verdict};
ghost use Rattle.matrix.specs.Kept.{kept_mask};
ghost use Rattle.matrix.specs.Rank.{ranked, rank_outcome, RankContract, rank_checks};

use crate::elimination::eliminate;
use crate::kept::mark_below;
use cube::POINTS;
use cube::mask::Mask;
use filter::checks::{check_degree, check_length, check_mask, check_taps};
use order::columns::column_count;
use order::{Order, graded_order};
use packed::workspace::rows;
use packed::{COLUMNS, Rows, WORKSPACE};
use point_rows::fill_rows;
use refusal::Refusal;

// A rank and the additions of its elimination.
#[derive(Clone, Copy)]
pub struct Ranked {
    pub rank: usize,
    pub additions: u32,
}

// The rank of the rows of the points of `mask` at degree `d`, and the number of additions; `kept` then marks the kept
// points.
pub fn rank(
    mask: &[u8],
    n: usize,
    d: usize,
    workspace: &mut [u64],
    kept: &mut [u8],
) -> Result<Ranked, Refusal>
    ensures { RankContract (rank_outcome graded mask.now n d (length workspace.old) (length kept.old))
        workspace.old workspace.new kept.old kept.new result }
{
    rank_checks(mask, n, d, workspace.len(), kept.len())?;
    let order = graded_order();
    Ok(rank_points(mask, n, d, &order, workspace, kept))
}

// The checks: lengths, the taps, the mask's bytes, the degree.
fn rank_checks(
    mask: &[u8],
    n: usize,
    d: usize,
    workspace: usize,
    kept: usize,
) -> Result<(), Refusal>
    ensures { result ≡ verdict (rank_checks mask.now n d workspace kept) }
{
    check_length(mask.len(), POINTS)?;
    check_length(workspace, WORKSPACE)?;
    check_length(kept, POINTS)?;
    check_taps(n)?;
    check_mask(mask, n)?;
    check_degree(d, n)
}

// The same of a mask that is well formed, the columns in the order lent; the workspace is then zero.
fn rank_points(
    mask: &[u8],
    n: usize,
    d: usize,
    order: &Order,
    workspace: &mut [u64],
    kept: &mut [u8],
) -> Ranked
    requires { (length mask.now ≡ 512) × (length workspace.old ≡ 8192) × (length kept.old ≡ 512) × (n ≤ 9) × (d ≤ n) × (well_formed n mask.now ≡ true) }
    ensures ranked { result ≡ ranked order.now.list n d (points_of mask.now) }
    ensures workspace_cleared { workspace.new ≡ zeros (length workspace.old) }
    ensures kept_marked { kept.new ≡ kept_mask order.now.list n d (points_of mask.now) }
{
    let mask = mask.as_array::<POINTS>().unwrap();
    let kept = kept.as_mut_array::<POINTS>().unwrap();
    let ws = rows(workspace);
    fill_rows(ws, order, n);
    let ranked = keep_points(ws, order, mask, n, d, kept);
    workspace.fill(0);
    ranked
}

// The points of `mask` are taken at degree `d`, where the rows of all points of `n` taps are in their places: `kept`,
// whatever it held, then marks the kept ones. The result is their rank, and the number of additions. A kernel for Rank and
// for the crates above: the first 512 rows of the workspace are scratch, and the others stay.
pub fn keep_points(
    ws: &mut Rows,
    order: &Order,
    mask: &Mask,
    n: usize,
    d: usize,
    kept: &mut Mask,
) -> Ranked
    requires { (n ≤ 9) × (d ≤ n)
        × Inside (size n) (points_of mask.now) × RowsFrom (exponents order.now.list n) n (unpacked ws.old) 0 }
    ensures ranked { result ≡ ranked order.now.list n d (points_of mask.now) }
    ensures kept_marked { kept.new ≡ kept_mask order.now.list n d (points_of mask.now) }
    ensures point_rows_stay { drop 512 (unpacked ws.new) ≡ drop 512 (unpacked ws.old) }
{
    let mut pivots = [0u16; COLUMNS];
    let mut points = [0u16; COLUMNS];
    let columns = column_count(order, n, d as u16);
    let t = eliminate(ws, &mut pivots, &mut points, mask, columns);
    mark_below(&pivots, &points, t.kept, COLUMNS, kept);
    Ranked {
        rank: t.kept,
        additions: t.additions,
    }
}
