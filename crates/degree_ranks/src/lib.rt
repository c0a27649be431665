// The ranks of a set and of its two parts at each degree, the degrees at which they differ first, and the mark:
// docs/SPECIFICATION.md, 'Judge'.
#![tactic(auto)]

ghost use Rattle.std.specs.Prelude.{◌≡◌, map, ℕ, ◌+◌, ◌≤◌, ◌<◌, get_or, take, drop, unwrap_or};
ghost use Rattle.std.specs.List.{find};
ghost use Rattle.cube.specs.NumberLists.{below};
ghost use Rattle.cube.specs.Mask.{points as points_of, byte};
ghost use Rattle.packed.specs.Packed.{unpacked};
ghost use Rattle.gf2.specs.Elimination.{eliminate};
ghost use Rattle.gf2.specs.Prefix.{AtMost, points_below};
ghost use Rattle.point_rows.specs.Workspace.{stored};
ghost use Rattle.matrix.specs.Kept.{kept_points};
ghost use Rattle.filter.specs.Sides.{pair, both_sides};
ghost use Rattle.immunity.specs.Mark.{twice_exceeds, mark_in};
ghost use Rattle.immunity.specs.Judgement.{summed};
ghost use Rattle.immunity.specs.Ranks.{no_ranks, ranks_in, ranks_up_to, additions_of, part_differs, differ};
ghost use Rattle.degree_ranks.specs.Cut.{up_to, column_count, column_counts, rank_cut, additions_cut};
ghost use Rattle.degree_ranks.specs.Ready.{Ready, Marks};

use cube::mask::Mask;
use immunity::Ranks;
use matrix::tally::eliminate_tallied;
use order::Order;
use order::columns::column_count;
use packed::basis::{count_below, sum_below};
use packed::{COLUMNS, Rows};
use std::array;

// The number of degrees of nine taps.
pub const DEGREES: usize = 10;

// The ranks of one mask at each degree, the additions of the eliminations that find them, and the number of rows kept of
// all columns.
#[derive(Clone, Copy)]
struct MaskRanks {
    ranks: [u16; DEGREES],
    additions: u32,
    kept: usize,
}

// The ranks at each degree, all additions, and the number of rows of the set kept of all columns.
#[derive(Clone, Copy)]
pub struct FoundRanks {
    pub ranks: [Ranks; DEGREES],
    pub additions: u32,
    pub kept: usize,
}

// The reported degree, the mark, and each side's own degree.
#[derive(Clone, Copy)]
pub struct FoundDegrees {
    pub reported: usize,
    pub mark: usize,
    pub one: Option<usize>,
    pub zero: Option<usize>,
}

// The number of columns of `n` taps at each degree up to `n`, and 0 past it.
fn column_counts(order: &Order, n: usize) -> [u16; DEGREES]
    requires { n ≤ 9 }
    ensures { result ≡ column_counts order.now.list n }
{
    let mut columns = [0u16; DEGREES];
    for d in 0..=n {
        columns[d] = column_count(order, n, d as u16) as u16;
    }
    columns
}

// The ranks of the points of one mask at each degree up to `n`, and 0 past it, where `columns` has the number of columns
// of each: one elimination finds them all. `pivots` and `points` then have the pivot and the point of each kept row: those
// with pivots below a column are the points kept of the columns before it. The first 512 rows of the workspace are
// scratch, and the others stay.
#[inline(never)] // its tally is on the stack only while it runs
fn mask_ranks(
    ws: &mut Rows,
    mask: &Mask,
    columns: [u16; DEGREES],
    n: usize,
    pivots: &mut [u16; COLUMNS],
    points: &mut [u16; COLUMNS],
) -> MaskRanks
    requires { AtMost 512 columns × (n ≤ 9) }
    ensures ranks { result.ranks ≡ map (up_to n (rank_cut (unpacked ws.old) (points_of mask.now) columns)) (below 10) }
    ensures additions { result.additions ≡ summed (additions_cut (unpacked ws.old) (points_of mask.now) columns) (below (n + 1)) }
    ensures additions_bound_and_point_rows { (result.additions ≤ 1342177280) × (drop 512 (unpacked ws.new) ≡ drop 512 (unpacked ws.old)) }
    ensures kept_below { (result.kept ≤ 512) × ((j : ℕ) → j < result.kept → get_or points.new j 0 < 512) }
    ensures kept_of_each_width { (c : ℕ) → points_below c (take result.kept pivots.new) (take result.kept points.new) ≡ (eliminate (stored (unpacked ws.old) c) (points_of mask.now)).points }
{
    let mut tally = [0u32; COLUMNS];
    let kept = eliminate_tallied(ws, pivots, points, &mut tally, mask);
    let mut ranks = [0u16; DEGREES];
    let mut additions: u32 = 0;
    for d in 0..=n {
        let count = columns[d] as usize;
        ranks[d] = count_below(pivots, kept, count) as u16;
        additions += sum_below(&tally, count);
    }
    MaskRanks {
        ranks,
        additions,
        kept,
    }
}

// The ranks of three masks at each degree, side by side.
fn by_degree(set: [u16; DEGREES], one: [u16; DEGREES], zero: [u16; DEGREES]) -> [Ranks; DEGREES]
    ensures { result ≡ map (ranks_in set (pair one zero)) (below 10) }
{
    array::from_fn(|d| Ranks {
        set: set[d],
        one: one[d],
        zero: zero[d],
    })
}

// The ranks of the points of three masks at each degree up to `n`, and all 0 past it; public for Judge alone. `pivots` and
// `points` then have the pivot and the point of each row kept of the set: those with pivots in the columns of a degree are
// the kept points of that degree. The set is therefore taken last. The first 512 rows of the workspace are scratch, and
// the others, the rows of points, stay.
pub fn all_ranks(
    ws: &mut Rows,
    order: &Order,
    set: &Mask,
    one: &Mask,
    zero: &Mask,
    n: usize,
    pivots: &mut [u16; COLUMNS],
    points: &mut [u16; COLUMNS],
) -> FoundRanks
    requires { Ready order.now.list n ws.old × Marks n set.now × Marks n one.now × Marks n zero.now }
    ensures ranks { result.ranks ≡ map (ranks_up_to order.now.list n (points_of set.now) (pair (points_of one.now) (points_of zero.now))) (below 10) }
    ensures additions { result.additions ≡ summed (λ d. additions_of order.now.list n d (points_of set.now) (pair (points_of one.now) (points_of zero.now))) (below (n + 1)) }
    ensures point_rows_stay { drop 512 (unpacked ws.new) ≡ drop 512 (unpacked ws.old) }
    ensures kept_below { (result.kept ≤ 512) × ((j : ℕ) → j < result.kept → get_or points.new j 0 < 512) }
    ensures kept_of_each_degree { (d : ℕ) → d ≤ n → points_below (column_count order.now.list n d) (take result.kept pivots.new) (take result.kept points.new) ≡ kept_points order.now.list n d (points_of set.now) }
{
    let columns = column_counts(order, n);
    let p = mask_ranks(ws, one, columns, n, pivots, points);
    let q = mask_ranks(ws, zero, columns, n, pivots, points);
    let s = mask_ranks(ws, set, columns, n, pivots, points);
    FoundRanks {
        ranks: by_degree(s.ranks, p.ranks, q.ranks),
        additions: s.additions + p.additions + q.additions,
        kept: s.kept,
    }
}

// Whether the rank of a side's part is not that of the set; public for Judge alone.
pub fn part_differs(r: Ranks, side: u8) -> bool
    ensures { result ≡ part_differs r side }
{
    let part = if side == 1 { r.one } else { r.zero };
    r.set != part
}

// A side's own degree: the first up to `n` at which the rank of its part is not that of the set, or none.
fn side_degree(ranks: [Ranks; 10], n: usize, side: u8) -> Option<usize>
    requires { n ≤ 9 }
    ensures { result ≡ find (λ d. part_differs (get_or ranks d no_ranks) side) (below (n + 1)) }
{
    ranks[..=n].iter().position(|r| part_differs(*r, side))
}

// Whether twice the rank exceeds the number of points.
fn twice_exceeds(rank: u16, points: u16) -> bool
    ensures { result ≡ twice_exceeds rank points }
{
    2 * u32::from(rank) > u32::from(points)
}

// The mark, where the rank of the set at `n` is its number of points: the first degree at which twice the rank of the set
// exceeds that number. Where no degree up to `n` is the mark, `n` is answered.
fn mark(ranks: [Ranks; 10], n: usize) -> usize
    requires { n ≤ 9 }
    ensures { result ≡ unwrap_or (mark_in ranks n) n }
{
    let points = ranks[n].set;
    ranks[..=n]
        .iter()
        .position(|r| twice_exceeds(r.set, points))
        .unwrap_or(n)
}

// The degrees and the mark that the ranks show; public for Judge alone. The reported one is the first at which the rank of a part is
// not that of the set, where there is one.
pub fn found_degrees(ranks: [Ranks; 10], n: usize) -> FoundDegrees
    requires { n ≤ 9 }
    ensures own_degrees { pair result.one result.zero ≡ both_sides (λ side. find (λ d. part_differs (get_or ranks d no_ranks) side) (below (n + 1))) }
    ensures reported_first { (k : ℕ) → find (λ d. differ (get_or ranks d no_ranks)) (below (n + 1)) ≡ Some k → result.reported ≡ k }
    ensures reported_at_most_n { result.reported ≤ n }
    ensures mark { result.mark ≡ unwrap_or (mark_in ranks n) n }
{
    let one = side_degree(ranks, n, 1);
    let zero = side_degree(ranks, n, 0);
    FoundDegrees {
        reported: one.unwrap_or(n).min(zero.unwrap_or(n)),
        mark: mark(ranks, n),
        one,
        zero,
    }
}

// The side of the reported degree, 1 if the rank of part 1 is not that of the set, else 0; public for Judge alone.
pub fn side_of(here: Ranks) -> u8
    ensures { result ≡ byte (part_differs here 1) }
{
    u8::from(part_differs(here, 1))
}
