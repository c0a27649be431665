// The rows of the lent workspace. Kernels for the crates above: each contract covers the whole workspace.
ghost use Rattle.std.specs.Prelude.{◌≡◌, ◌<◌, length, set};
ghost use Rattle.std.specs.Simd.{first_chunks};
ghost use Rattle.gf2.specs.Vector.{add as add_of};
ghost use Rattle.gf2.specs.Cut.{zero_row, cut as cut_of, common as common_of};
ghost use Rattle.gf2.specs.Steps.{row_of};
ghost use Rattle.packed.specs.Packed.{unpacked};

use crate::row::{add, common, cut};
use crate::{ROW_WORDS, ROWS, Rows};

// The lent numbers, row by row. What they end as is then for the borrower to say.
pub fn rows(workspace: &mut [u64]) -> &mut Rows
    requires { length workspace.old ≡ 8192 }
    ensures long { length result.now ≡ 1024 }
    ensures rows { result.now ≡ first_chunks 8 1024 workspace.old }
{
    let (rows, _) = workspace.as_chunks_mut::<ROW_WORDS>();
    rows.as_mut_array::<ROWS>().unwrap()
}

// Row `from` is added to row `to`.
pub fn add_row(ws: &mut Rows, to: usize, from: usize)
    requires { (to < 1024) × (from < 1024) }
    ensures { unpacked ws.new ≡ set (unpacked ws.old) to (add_of (row_of (unpacked ws.old) to) (row_of (unpacked ws.old) from)) }
{
    ws[to] = add(&ws[to], &ws[from]);
}

// Row `to` becomes the common ones of rows `p` and `q`.
pub fn common_row(ws: &mut Rows, to: usize, p: usize, q: usize)
    requires { (to < 1024) × (p < 1024) × (q < 1024) }
    ensures { unpacked ws.new ≡ set (unpacked ws.old) to (common_of (row_of (unpacked ws.old) p) (row_of (unpacked ws.old) q)) }
{
    ws[to] = common(&ws[p], &ws[q]);
}

// Row `to` becomes row `from` with zeros from column `columns` on.
pub fn copy_columns(ws: &mut Rows, to: usize, from: usize, columns: usize)
    requires { (to < 1024) × (from < 1024) }
    ensures { unpacked ws.new ≡ set (unpacked ws.old) to (cut_of columns (row_of (unpacked ws.old) from)) }
{
    ws[to] = cut(&ws[from], columns);
}

// Every entry of row `row` becomes zero.
pub fn clear_row(ws: &mut Rows, row: usize)
    requires { row < 1024 }
    ensures { unpacked ws.new ≡ set (unpacked ws.old) row zero_row }
{
    ws[row] = [0; ROW_WORDS];
}
