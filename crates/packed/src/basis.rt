// The kept rows of an elimination, a basis of the span of the rows taken: the first rows of the workspace, each with its
// pivot. Kernels for the crates above: each contract covers the whole workspace and the whole tally.
ghost use Rattle.std.specs.Prelude.{◌≡◌, ◌+◌, ◌*◌, ◌<◌, ◌≤◌, take};
ghost use Rattle.gf2.specs.Elimination.{is_zero};
ghost use Rattle.gf2.specs.Steps.{row_of, Pivots, Places, Reduces, reduced_both, one_more_unless};
ghost use Rattle.gf2.specs.Prefix.{count_to, sum_to, AtMost, Tallies};
ghost use Rattle.packed.specs.Packed.{unpacked};

use crate::row::{entry, pivot};
use crate::workspace::add_row;
use crate::{COLUMNS, Rows};

// The three reductions are three loops: one loop over what is done at an addition would take that as a function with an
// invariant of its own, and each of the three would prove for it what it proves here.

// Row `row` is reduced by the `kept` rows before it: each of them in whose pivot it has a one is added to it. The result
// is the number of additions.
#[inline(never)] // so that the loop has the registers to itself
pub fn reduce(ws: &mut Rows, pivots: &[u16; COLUMNS], kept: usize, row: usize) -> u32
    requires { (kept ≤ 512) × (kept ≤ row) × (row < 1024) × Pivots pivots.now (unpacked ws.old) kept }
    ensures { Reduces kept row (unpacked ws.old) (unpacked ws.new) result × (result ≤ kept) }
{
    let mut count: u32 = 0;
    for j in 0..kept {
        if entry(&ws[row], pivots[j] as usize) {
            add_row(ws, row, j);
            count += 1;
        }
    }
    count
}

// Row `row` is reduced by the `kept` rows before it, and each addition is counted in `tally` at the pivot of the row added.
#[inline(never)] // so that the loop has the registers to itself
pub fn reduce_tallied(
    ws: &mut Rows,
    pivots: &[u16; COLUMNS],
    tally: &mut [u32; COLUMNS],
    kept: usize,
    row: usize,
)
    requires { (kept ≤ 512) × (kept ≤ row) × (row < 1024) × Pivots pivots.now (unpacked ws.old) kept × AtMost 262144 tally.old }
    ensures { Tallies kept row (unpacked ws.old) (unpacked ws.new) tally.old tally.new }
{
    for k in 0..kept {
        let column = pivots[k] as usize;
        if entry(&ws[row], column) {
            add_row(ws, row, k);
            tally[column] += 1;
        }
    }
}

// Row `row` is reduced by the `kept` rows before it, and with each of them that is added to it the row at its place is
// added to row `sum`.
pub fn reduce_both(
    ws: &mut Rows,
    pivots: &[u16; COLUMNS],
    places: &[u16; COLUMNS],
    kept: usize,
    row: usize,
    sum: usize,
)
    requires { (kept ≤ row) × (row < 512) × (512 ≤ sum) × (sum < 1024) × Pivots pivots.now (unpacked ws.old) kept × Places places.now kept sum }
    ensures { unpacked ws.new ≡ reduced_both kept row sum places.now (unpacked ws.old) }
{
    for i in 0..kept {
        if entry(&ws[row], pivots[i] as usize) {
            add_row(ws, row, i);
            add_row(ws, sum, places[i] as usize);
        }
    }
}

// Row `kept` becomes a kept row, unless it is zero. The result is the number of kept rows; pivots past them are scratch.
pub fn keep(ws: &Rows, pivots: &mut [u16; COLUMNS], kept: usize) -> usize
    requires { (kept < 512) × Pivots pivots.old (unpacked ws.now) kept }
    ensures value { (result ≡ one_more_unless (is_zero (row_of (unpacked ws.now) kept)) kept) × (result ≤ kept + 1) }
    ensures pivots { Pivots pivots.new (unpacked ws.now) result }
{
    match pivot(&ws[kept]) {
        Some(c) => {
            pivots[kept] = c as u16;
            kept + 1
        }
        None => kept,
    }
}

// How many of the first `kept` pivots are below `columns`.
pub fn count_below(pivots: &[u16; COLUMNS], kept: usize, columns: usize) -> usize
    requires { kept ≤ 512 }
    ensures { (result ≡ count_to columns (take kept pivots.now)) × (result ≤ kept) }
{
    pivots[..kept]
        .iter()
        .filter(|&&c| (c as usize) < columns)
        .count()
}

// The sum of the first `columns` numbers of `tally`.
pub fn sum_below(tally: &[u32; COLUMNS], columns: usize) -> u32
    requires { (columns ≤ 512) × AtMost 262144 tally.now }
    ensures { (result ≡ sum_to columns tally.now) × (result ≤ columns * 262144) }
{
    tally[..columns].iter().sum()
}
