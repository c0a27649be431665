// The elimination of docs/SPECIFICATION.md, 'Elimination': the points of a mask are taken in rising number.
// Its loop stands in tally.rt and combination.rt too: one over any way to take a point would need a struct of borrowed
// buffers with a law for each way, and is no plainer.
ghost use Rattle.std.specs.Prelude.{◌≤◌, ◌<◌};
ghost use Rattle.cube.specs.Mask.{points as points_of};
ghost use Rattle.gf2.specs.Cut.{cut};
ghost use Rattle.gf2.specs.Steps.{row_of, Pivots};
ghost use Rattle.packed.specs.Packed.{unpacked};
ghost use Rattle.matrix.specs.Workspace.{Takes, Eliminates};
ghost use Rattle.matrix.specs.Kept.{KeptAt};

use cube::Point;
use cube::mask::Mask;
use packed::basis::{keep, reduce};
use packed::workspace::copy_columns;
use packed::{COLUMNS, Rows};
use point_rows::row_of;

// The number of rows kept, and of additions made.
#[derive(Clone, Copy)]
pub struct Taken {
    pub kept: usize,
    pub additions: u32,
}

// The first `columns` columns of row `from` are taken: what is left of them is kept if it is not zero. A kernel for the
// crates above: the rows from the kept ones to 512, and the pivots past the kept ones, are scratch.
pub fn take_row(
    ws: &mut Rows,
    pivots: &mut [u16; COLUMNS],
    kept: usize,
    from: usize,
    columns: usize,
) -> Taken
    requires { (kept < 512) × (from < 1024) × Pivots pivots.old (unpacked ws.old) kept }
    ensures takes { Takes (unpacked ws.old) (unpacked ws.new) kept result.kept (cut columns (row_of (unpacked ws.old) from)) result.additions }
    ensures pivots { Pivots pivots.new (unpacked ws.new) result.kept }
{
    copy_columns(ws, kept, from, columns);
    let additions = reduce(ws, pivots, kept, kept);
    Taken {
        kept: keep(ws, pivots, kept),
        additions,
    }
}

// The points of `mask` are taken, each with the first `columns` columns of the row in its place. The kept rows are then
// the first rows of the workspace; `pivots` has the pivot of each, and `points` its point. A kernel for the crates above,
// with the scratch of `take_row`; the points past the kept ones are scratch too.
pub fn eliminate(
    ws: &mut Rows,
    pivots: &mut [u16; COLUMNS],
    points: &mut [u16; COLUMNS],
    mask: &Mask,
    columns: usize,
) -> Taken
    ensures eliminates { Eliminates (unpacked ws.old) (unpacked ws.new) columns (points_of mask.now) result.kept result.additions }
    ensures bounds { (result.kept ≤ 512) × (result.additions ≤ 262144) }
    ensures pivots { Pivots pivots.new (unpacked ws.new) result.kept }
    ensures kept_at { KeptAt (unpacked ws.old) columns (points_of mask.now) result.kept points.new }
{
    let mut kept: usize = 0;
    let mut additions: u32 = 0;
    for (a, &byte) in mask.iter().enumerate() {
        if byte == 1 {
            let point = Point(a as u16);
            points[kept] = point.0;
            let t = take_row(ws, pivots, kept, row_of(point), columns);
            kept = t.kept;
            additions += t.additions;
        }
    }
    Taken { kept, additions }
}
