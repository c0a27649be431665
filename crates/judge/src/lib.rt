// Judge: docs/SPECIFICATION.md, 'Judge'. The ranks of a set and of its two parts at each degree, the mark, the reported
// degree, each side's own, the witnesses, and the kept points of the set.
#![tactic(auto)]

ghost use Rattle.std.specs.Prelude.{◌≡◌, false, ◌≤◌, length, replicate};
ghost use Rattle.cube.specs.NumberLists.{is_empty};
ghost use Rattle.cube.specs.Mask.{points, byte, mask};
ghost use Rattle.refusal.specs.Verdict.{verdict};
ghost use Rattle.order.specs.BuiltIn.{graded};
ghost use Rattle.packed.specs.Packed.{zeros};
ghost use Rattle.filter.specs.Sides.{pair};
ghost use Rattle.immunity.specs.Ranks.{no_ranks, part_differs};
ghost use Rattle.immunity.specs.Witness.{new_point, witness_at};
ghost use Rattle.degree_ranks.specs.Ready.{Ready, Marks};
ghost use Rattle.judge.specs.Judge.{judge_checks, judge_outcome, JudgeContract};

use cube::POINTS;
use cube::mask::{Mask, is_empty};
use degree_ranks::{DEGREES, FoundDegrees, all_ranks, found_degrees, part_differs, side_of};
use filter::checks::{check_filter_lengths, check_filter_masks, check_length, check_taps};
use filter::part::part_mask;
use immunity::Ranks;
use matrix::kept::mark_below;
use order::columns::column_count;
use order::{Order, graded_order};
use packed::workspace::rows;
use packed::{COLUMNS, Rows, WORKSPACE};
use point_rows::fill_rows;
use refusal::Refusal;
use witness::write_side;

// What Judge reports of a set with a point, beside the ranks; `one` is side 1's own degree, `zero` side 0's.
#[derive(Clone, Copy)]
pub struct Report {
    pub mark: usize,
    pub degree: usize,
    pub side: u8,
    pub one: Option<usize>,
    pub zero: Option<usize>,
    pub additions: u32,
}

// What Judge answers of a set and a table that pass its checks: the report, and the ranks at each degree, all 0 past n. A
// set without a point has no report: no mark, no degree, no side, no degree of either side, and 0 additions; its ranks are
// all 0.
#[derive(Clone, Copy)]
pub struct JudgeAnswer {
    pub report: Option<Report>,
    pub ranks: [Ranks; 10],
}

// The ranks of the set and its parts at each degree, the mark, the first degree at which a part's rank differs from the
// set's, each side's own such degree, and the witness of each side that differs at the first; for a set and a table of
// `n` taps. `kept` then marks the kept points of the set at the first degree of all, the reported one. Without a point
// there is no degree, and the witnesses and `kept` are zeros.
pub fn judge(
    set: &[u8],
    table: &[u8],
    n: usize,
    workspace: &mut [u64],
    one: &mut [u8],
    zero: &mut [u8],
    kept: &mut [u8],
) -> Result<JudgeAnswer, Refusal>
    ensures { JudgeContract (judge_outcome graded set.now table.now n (length workspace.old) (length one.old) (length zero.old) (length kept.old))
        workspace.old workspace.new (pair one.old zero.old) (pair one.new zero.new) kept.old kept.new result }
{
    judge_checks(
        set,
        table,
        n,
        workspace.len(),
        one.len(),
        zero.len(),
        kept.len(),
    )?;
    if is_empty(set) {
        return Ok(judge_no_point(workspace, one, zero, kept));
    }
    let order = graded_order();
    Ok(judge_points(set, table, n, &order, workspace, one, zero, kept))
}

// The checks: lengths, the taps, the bytes of the set and of the table.
fn judge_checks(
    set: &[u8],
    table: &[u8],
    n: usize,
    workspace: usize,
    one: usize,
    zero: usize,
    kept: usize,
) -> Result<(), Refusal>
    ensures { result ≡ verdict (judge_checks set.now table.now n workspace one zero kept) }
{
    check_filter_lengths(set, table)?;
    check_length(workspace, WORKSPACE)?;
    check_length(one, POINTS)?;
    check_length(zero, POINTS)?;
    check_length(kept, POINTS)?;
    check_taps(n)?;
    check_filter_masks(set, table, n)
}

// Judge of a set without a point: the workspace, the witness buffers and `kept` become zero.
#[tactic(auto, unfolding(packed::specs::Packed::zeros))]
fn judge_no_point(ws: &mut [u64], one: &mut [u8], zero: &mut [u8], kept: &mut [u8]) -> JudgeAnswer
    ensures no_point_found { (result.report ≡ None) × (result.ranks ≡ replicate 10 no_ranks) }
    ensures ws_cleared { ws.new ≡ zeros (length ws.old) }
    ensures one_cleared { one.new ≡ zeros (length one.old) }
    ensures zero_cleared { zero.new ≡ zeros (length zero.old) }
    ensures kept_cleared { kept.new ≡ zeros (length kept.old) }
{
    ws.fill(0);
    one.fill(0);
    zero.fill(0);
    kept.fill(0);
    JudgeAnswer {
        report: None,
        ranks: [Ranks {
            set: 0,
            one: 0,
            zero: 0,
        }; DEGREES],
    }
}

// Judge of a set with a point and a table that passed the checks, the columns in the order lent; the workspace is then
// zero.
fn judge_points(
    set: &[u8],
    table: &[u8],
    n: usize,
    order: &Order,
    workspace: &mut [u64],
    one: &mut [u8],
    zero: &mut [u8],
    kept: &mut [u8],
) -> JudgeAnswer
    requires { (verdict (judge_checks set.now table.now n (length workspace.old) (length one.old) (length zero.old) (length kept.old)) ≡ Ok tt) × (is_empty (points set.now) ≡ false) }
    ensures { JudgeContract (judge_outcome order.now.list set.now table.now n (length workspace.old) (length one.old) (length zero.old) (length kept.old))
        workspace.old workspace.new (pair one.old zero.old) (pair one.new zero.new) kept.old kept.new (Ok result) }
{
    let set = set.as_array::<POINTS>().unwrap();
    let table = table.as_array::<POINTS>().unwrap();
    let one = one.as_mut_array::<POINTS>().unwrap();
    let zero = zero.as_mut_array::<POINTS>().unwrap();
    let kept = kept.as_mut_array::<POINTS>().unwrap();
    let part_one = part_mask(set, table, 1);
    let part_zero = part_mask(set, table, 0);
    let mut pivots = [0u16; COLUMNS];
    let mut points = [0u16; COLUMNS];
    let ws = rows(workspace);
    fill_rows(ws, order, n);
    let found = all_ranks(
        ws,
        order,
        set,
        &part_one,
        &part_zero,
        n,
        &mut pivots,
        &mut points,
    );
    let ranks = found.ranks;
    let degrees = found_degrees(ranks, n);
    let k = degrees.reported;
    let here = ranks[k];
    let columns = column_count(order, n, k as u16);
    mark_below(&pivots, &points, found.kept, columns, kept);
    write_witnesses(ws, order, set, &part_one, &part_zero, n, k, here, one, zero);
    workspace.fill(0);
    JudgeAnswer {
        report: Some(report_found(degrees, here, found.additions)),
        ranks,
    }
}

// The report: the mark and the degrees found, the side by the ranks `here` at the reported one, and the additions.
fn report_found(degrees: FoundDegrees, here: Ranks, additions: u32) -> Report
    ensures { result ≡ record { mark = degrees.mark; degree = degrees.reported; side = byte (part_differs here 1); one = degrees.one; zero = degrees.zero; additions = additions } }
{
    Report {
        mark: degrees.mark,
        degree: degrees.reported,
        side: side_of(here),
        one: degrees.one,
        zero: degrees.zero,
        additions,
    }
}

// The witnesses against the parts `p` and `q` of the set at degree `d`, where `r` are the ranks, are written. The
// workspace is scratch then.
fn write_witnesses(
    ws: &mut Rows,
    order: &Order,
    set: &Mask,
    p: &Mask,
    q: &Mask,
    n: usize,
    d: usize,
    r: Ranks,
    one: &mut Mask,
    zero: &mut Mask,
)
    requires { Ready order.now.list n ws.old × Marks n set.now × Marks n p.now × Marks n q.now × (d ≤ n)
        × (r.set ≡ r.one → new_point order.now.list n d (points set.now) (points p.now) ≡ None)
        × (r.set ≡ r.zero → new_point order.now.list n d (points set.now) (points q.now) ≡ None) }
    ensures witness_of_one { one.new ≡ mask (witness_at order.now.list n d (points set.now) (points p.now)) }
    ensures witness_of_zero { zero.new ≡ mask (witness_at order.now.list n d (points set.now) (points q.now)) }
{
    write_side(ws, order, set, p, n, d, part_differs(r, 1), one);
    write_side(ws, order, set, q, n, d, part_differs(r, 0), zero);
}
