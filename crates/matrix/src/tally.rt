// The eliminations at every number of columns at once: the rows are taken whole, and additions are counted by pivot.
ghost use Rattle.std.specs.Prelude.{◌≡◌, ◌+◌, ◌≤◌, ◌<◌};
ghost use Rattle.cube.specs.Mask.{points as points_of};
ghost use Rattle.gf2.specs.Steps.{row_of, Pivots};
ghost use Rattle.packed.specs.Packed.{unpacked, zeros};
ghost use Rattle.gf2.specs.Prefix.{AtMost};
ghost use Rattle.matrix.specs.Workspace.{TakesAll, EliminatesAll};
ghost use Rattle.matrix.specs.Kept.{KeptAt};

use cube::Point;
use cube::mask::Mask;
use packed::basis::{keep, reduce_tallied};
use packed::workspace::copy_columns;
use packed::{COLUMNS, Rows};
use point_rows::row_of;

// The point `a` is taken: what is left of the row in its place is kept if it is not zero. The result is the number of kept
// rows.
fn take_tallied(
    ws: &mut Rows,
    pivots: &mut [u16; COLUMNS],
    tally: &mut [u32; COLUMNS],
    kept: usize,
    a: Point,
) -> usize
    requires { (kept < 512) × (a.0 < 512) × Pivots pivots.old (unpacked ws.old) kept × AtMost 262144 tally.old }
    ensures takes_all { TakesAll (unpacked ws.old) (unpacked ws.new) kept result (row_of (unpacked ws.old) (512 + a.0)) tally.old tally.new }
    ensures pivots { Pivots pivots.new (unpacked ws.new) result }
{
    copy_columns(ws, kept, row_of(a), COLUMNS);
    reduce_tallied(ws, pivots, tally, kept, kept);
    keep(ws, pivots, kept)
}

// The points of `mask` are taken, each with the row in its place. The result is the number of kept rows; `pivots` has the
// pivot of each, `points` its point, and `tally`, which holds zeros at entry, the additions by pivot. A kernel for the
// crates above: the rows from the kept ones to 512, and the pivots and points past the kept ones, are scratch.
pub fn eliminate_tallied(
    ws: &mut Rows,
    pivots: &mut [u16; COLUMNS],
    points: &mut [u16; COLUMNS],
    tally: &mut [u32; COLUMNS],
    mask: &Mask,
) -> usize
    requires { tally.old ≡ zeros 512 }
    ensures eliminates_all { EliminatesAll (unpacked ws.old) (unpacked ws.new) (points_of mask.now) result tally.new }
    ensures bounds { (result ≤ 512) × AtMost 262144 tally.new }
    ensures pivots { Pivots pivots.new (unpacked ws.new) result }
    ensures kept_at { KeptAt (unpacked ws.old) 512 (points_of mask.now) result points.new }
{
    let mut kept: usize = 0;
    for (a, &byte) in mask.iter().enumerate() {
        if byte == 1 {
            let point = Point(a as u16);
            points[kept] = point.0;
            kept = take_tallied(ws, pivots, tally, kept, point);
        }
    }
    kept
}
