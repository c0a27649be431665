// Combinations: the points whose rows sum to a row, as rows over points in the workspace. A point's place holds its row
// until the point is taken, then such a row.
ghost use Rattle.std.specs.Prelude.{◌≡◌, ◌+◌, ◌≤◌, ◌<◌, length, set};
ghost use Rattle.cube.specs.Mask.{points};
ghost use Rattle.gf2.specs.Vector.{unit};
ghost use Rattle.gf2.specs.Elimination.{is_zero};
ghost use Rattle.gf2.specs.Cut.{zero_row, padded};
ghost use Rattle.gf2.specs.Steps.{row_of, Pivots, Places, one_more_unless};
ghost use Rattle.packed.specs.Packed.{unpacked};
ghost use Rattle.point_rows.specs.Workspace.{stored};
ghost use Rattle.matrix.specs.Combination.{followed, Combines, OutsidePlaces};

use cube::Point;
use cube::mask::Mask;
use packed::basis::{keep, reduce_both};
use packed::row::set_entry;
use packed::workspace::{clear_row, copy_columns};
use packed::{COLUMNS, Rows};
use point_rows::row_of;

// The first `columns` columns of the row of the point `a` are put behind the `kept` rows, and its place is cleared. A
// kernel for the crates above: no other row changes.
pub fn move_row(ws: &mut Rows, kept: usize, a: Point, columns: usize)
    requires { (kept < 512) × (a.0 < 512) }
    ensures { unpacked ws.new ≡ set (set (unpacked ws.old) kept (stored (unpacked ws.old) columns a.0)) (512 + a.0) zero_row }
{
    let place = row_of(a);
    copy_columns(ws, kept, place, columns);
    clear_row(ws, place);
}

// The point `q` is taken: what is left of the first `columns` columns of its row is kept if it is not zero, and its
// combination stands in the place of the point. The result is the number of kept rows.
fn take_combining(
    ws: &mut Rows,
    pivots: &mut [u16; COLUMNS],
    places: &mut [u16; COLUMNS],
    kept: usize,
    q: Point,
    columns: usize,
) -> usize
    requires { (kept < 512) × (q.0 < 512) × Pivots pivots.old (unpacked ws.old) kept × Places places.old kept (512 + q.0) }
    ensures row_followed { unpacked ws.new ≡ followed columns kept q.0 (padded 512 (unit q.0)) places.old (unpacked ws.old) }
    ensures place_taken { places.new ≡ set places.old kept (512 + q.0) }
    ensures number_kept { (result ≡ one_more_unless (is_zero (row_of (unpacked ws.new) kept)) kept) × (result ≤ kept + 1) }
    ensures pivots { Pivots pivots.new (unpacked ws.new) result }
{
    let place = row_of(q);
    move_row(ws, kept, q, columns);
    set_entry(&mut ws[place], q.0 as usize);
    reduce_both(ws, pivots, places, kept, kept, place);
    places[kept] = place as u16;
    keep(ws, pivots, kept)
}

// The points of `mask` are taken as in an elimination. The combination of each kept row stands at its place, which is
// that of its point. The result is the number of kept rows. A kernel for the crates above: the rows from the kept ones to
// 512, those in the places of points of `mask` that are not kept, and the pivots and places past the kept ones are scratch.
pub fn eliminate_combining(
    ws: &mut Rows,
    pivots: &mut [u16; COLUMNS],
    places: &mut [u16; COLUMNS],
    mask: &Mask,
    columns: usize,
) -> usize
    ensures combines { Combines (unpacked ws.old) (unpacked ws.new) columns (points mask.now) result places.new }
    ensures kept_at_most_points { result ≤ length (points mask.now) }
    ensures pivots { Pivots pivots.new (unpacked ws.new) result × OutsidePlaces places.new result mask.now }
{
    let mut kept: usize = 0;
    for (q, &byte) in mask.iter().enumerate() {
        if byte == 1 {
            kept = take_combining(ws, pivots, places, kept, Point(q as u16), columns);
        }
    }
    kept
}
