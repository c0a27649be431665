// Back substitution on packed rows: a row with given parities against the kept rows. The function that is public is a
// kernel for the crates above and changes no lent buffer.
ghost use Rattle.std.specs.Prelude.{◌+◌, ◌<◌, take};
ghost use Rattle.gf2.specs.Vector.{Same};
ghost use Rattle.gf2.specs.Solve.{solve_last};
ghost use Rattle.gf2.specs.Steps.{row_of, Pivots};
ghost use Rattle.packed.specs.Packed.{unpack, unpacked};

use crate::row::{dot, flip_column};
use crate::{COLUMNS, ROW_WORDS, Row, Rows};

// Back substitution on the first `kept` rows and row `kept`, with ones at their pivots only: of rows in echelon form the
// result is even with each of the first and odd with the last.
pub fn solve_last(ws: &Rows, pivots: &[u16; COLUMNS], kept: usize) -> Row
    requires { (kept < 512) × Pivots pivots.now (unpacked ws.now) (kept + 1) }
    ensures { Same (unpack result) (solve_last (take kept (unpacked ws.now)) (row_of (unpacked ws.now) kept)) }
{
    let mut x = [0u64; ROW_WORDS];
    flip_column(&mut x, pivots[kept] as usize);
    for j in (0..kept).rev() {
        if dot(&x, &ws[j]) {
            flip_column(&mut x, pivots[j] as usize);
        }
    }
    x
}
