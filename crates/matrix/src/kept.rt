// The kept points of an elimination as a mask: docs/SPECIFICATION.md, 'Elimination'.
ghost use Rattle.std.specs.Prelude.{◌≡◌, ℕ, ◌≤◌, ◌<◌, get_or, take};
ghost use Rattle.cube.specs.NumberLists.{lists};
ghost use Rattle.cube.specs.Mask.{mask};
ghost use Rattle.gf2.specs.Prefix.{points_below};

use cube::mask::Mask;
use cube::{POINTS, Point};
use packed::COLUMNS;

// The points of the first `kept` rows, those with pivots below `columns`, are marked, whatever `marks` held. A kernel for
// the crates above.
pub fn mark_below(
    pivots: &[u16; COLUMNS],
    points: &[u16; COLUMNS],
    kept: usize,
    columns: usize,
    marks: &mut Mask,
)
    requires { (kept ≤ 512) × ((j : ℕ) → j < kept → get_or points.now j 0 < 512) }
    ensures { marks.new ≡ mask (lists (points_below columns (take kept pivots.now) (take kept points.now))) }
{
    *marks = [0; POINTS];
    for j in 0..kept {
        if (pivots[j] as usize) < columns {
            let a = Point(points[j]);
            marks[a.0 as usize] = 1;
        }
    }
}
