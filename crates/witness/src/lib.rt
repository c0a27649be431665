// The witness of docs/SPECIFICATION.md, 'Witness': the polynomial that is zero on a part of the set, and not on all
// of the set.
#![tactic(auto)]

ghost use Rattle.std.specs.Prelude.{◌≡◌, false, ◌≤◌, ◌<◌, drop};
ghost use Rattle.cube.specs.Mask.{points, mask, with_ones};
ghost use Rattle.cube.specs.NumberLists.{Inside};
ghost use Rattle.cube.specs.Cube.{size as size_of};
ghost use Rattle.order.specs.Order.{columns as columns_of};
ghost use Rattle.gf2.specs.Vector.{chosen};
ghost use Rattle.gf2.specs.Steps.{Pivots};
ghost use Rattle.packed.specs.Packed.{unpack, unpacked};
ghost use Rattle.point_rows.specs.Workspace.{exponents, RowsFrom};
ghost use Rattle.immunity.specs.Witness.{new_point, witness_at};
ghost use Rattle.witness.specs.NewRow.{FindsNew};

use cube::mask::Mask;
use cube::{POINTS, Point, size};
use matrix::elimination::{eliminate, take_row};
use order::columns::{column_count, is_column};
use order::{Order, exponent_at};
use packed::row::entry;
use packed::solve::solve_last;
use packed::{COLUMNS, Row, Rows};
use point_rows::row_of;

// The exponents of the columns where `x` is one are marked.
fn mark_columns(order: &Order, n: usize, d: u16, x: &Row, bytes: &mut Mask)
    requires { n ≤ 9 }
    ensures { bytes.new ≡ with_ones (chosen (unpack x.now) (columns_of order.now.list n d)) bytes.old }
{
    let points = size(n);
    let mut column: usize = 0;
    for i in 0..POINTS {
        let u = exponent_at(&order.list, i);
        if is_column(u, points, d) {
            if entry(x, column) {
                bytes[u.0 as usize] = 1;
            }
            column += 1;
        }
    }
}

// The points of `set` are tried in rising number: the row of the first one of which the `kept` rows leave something is
// kept. The result is the number of kept rows.
fn keep_new(
    ws: &mut Rows,
    pivots: &mut [u16; COLUMNS],
    set: &Mask,
    kept: usize,
    columns: usize,
) -> usize
    requires { (kept < 512) × Pivots pivots.old (unpacked ws.old) kept }
    ensures finds_new { FindsNew (unpacked ws.old) (unpacked ws.new) kept result columns (points set.now) }
    ensures pivots { Pivots pivots.new (unpacked ws.new) result }
{
    for (a, &byte) in set.iter().enumerate() {
        if byte == 1 {
            let t = take_row(ws, pivots, kept, row_of(Point(a as u16)), columns);
            if kept < t.kept {
                return t.kept;
            }
        }
    }
    kept
}

// The witness against the points of `part` of the set at degree `d` is written; zeros where every row of the set is a sum
// of rows of the part.
fn write_witness(
    ws: &mut Rows,
    order: &Order,
    set: &Mask,
    part: &Mask,
    n: usize,
    d: usize,
    witness: &mut Mask,
)
    requires { (n ≤ 9) × (d ≤ n) × Inside (size_of n) (points set.now) × Inside (size_of n) (points part.now)
        × RowsFrom (exponents order.now.list n) n (unpacked ws.old) 0 }
    ensures witness_written { witness.new ≡ mask (witness_at order.now.list n d (points set.now) (points part.now)) }
    ensures point_rows_stay { drop 512 (unpacked ws.new) ≡ drop 512 (unpacked ws.old) }
{
    *witness = [0; POINTS];
    let mut pivots = [0u16; COLUMNS];
    let mut points = [0u16; COLUMNS]; // of the rows kept of the part; not read here
    let most = d as u16;
    let columns = column_count(order, n, most);
    let t = eliminate(ws, &mut pivots, &mut points, part, columns);
    let kept = t.kept;
    if kept < COLUMNS {
        if kept < keep_new(ws, &mut pivots, set, kept, columns) {
            let x = solve_last(ws, &pivots, kept);
            mark_columns(order, n, most, &x, witness);
        }
    }
}

// The same, where `differs` is false only if every row of the set is a sum of rows of the part. A kernel for the crates
// above: the first 512 rows are scratch.
pub fn write_side(
    ws: &mut Rows,
    order: &Order,
    set: &Mask,
    part: &Mask,
    n: usize,
    d: usize,
    differs: bool,
    witness: &mut Mask,
)
    requires { (n ≤ 9) × (d ≤ n) × Inside (size_of n) (points set.now) × Inside (size_of n) (points part.now)
        × RowsFrom (exponents order.now.list n) n (unpacked ws.old) 0
        × (differs ≡ false → new_point order.now.list n d (points set.now) (points part.now) ≡ None) }
    ensures witness_written { witness.new ≡ mask (witness_at order.now.list n d (points set.now) (points part.now)) }
    ensures point_rows_stay { drop 512 (unpacked ws.new) ≡ drop 512 (unpacked ws.old) }
{
    if differs {
        write_witness(ws, order, set, part, n, d, witness);
        return;
    }
    *witness = [0; POINTS];
}
