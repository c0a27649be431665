// The rows of points: docs/SPECIFICATION.md, 'Elimination', the matrix. Each is put in its place in the workspace, with
// its columns in an order of the exponents.
#![tactic(auto)]

ghost use Rattle.std.specs.Prelude.{◌≡◌, ◌+◌, ◌≤◌, ◌<◌, set, take, drop};
ghost use Rattle.cube.specs.Cube.{size as size_of};
ghost use Rattle.gf2.specs.Vector.{digit};
ghost use Rattle.packed.specs.Packed.{unpacked, number};
ghost use Rattle.point_rows.specs.Rows.{monomials};
ghost use Rattle.point_rows.specs.Workspace.{exponents as exponents_of, filled, RowsFrom, Splits};

use cube::{POINTS, Point, size, within};
use order::{Order, exponent_at};
use packed::workspace::common_row;
use packed::{COLUMNS, Rows, WORD_BITS};
use std::array;

// The row of the workspace for point 0. Those of the other points follow it.
const FIRST_POINT: usize = 512;

// An exponent that lies within no point.
const NO_EXPONENT: u16 = 65535;

// The row that is the place of the point `a`; the workspace has it for points below 512. A kernel for the crates above.
pub fn row_of(a: Point) -> usize
    ensures { result ≡ 512 + a.0 }
{
    FIRST_POINT + a.0 as usize
}

// The exponents of `n` taps in order, then an exponent that lies within no point.
fn exponents(order: &Order, n: usize) -> [u16; COLUMNS]
    requires { n ≤ 9 }
    ensures { result ≡ exponents_of order.now.list n }
{
    let points = size(n);
    let mut list = [NO_EXPONENT; COLUMNS];
    let mut count: usize = 0;
    for i in 0..POINTS {
        let u = exponent_at(&order.list, i);
        if (u.0 as usize) < points {
            list[count] = u.0;
            count += 1;
        }
    }
    list
}

// The 64 columns of the point `a` from column `from` on, the first in the lowest bit.
fn row_word(exponents: &[u16; COLUMNS], from: usize, a: Point) -> u64
    requires { from + 64 ≤ 512 }
    ensures { result ≡ number (monomials (take 64 (drop from exponents.now)) a.0) }
{
    let mut w: u64 = 0;
    for i in (0..WORD_BITS).rev() {
        w = w * 2 + u64::from(within(exponent_at(exponents, from + i), a));
    }
    w
}

// The row of the point `a` is put in its place, number by number.
fn fill_row(ws: &mut Rows, exponents: &[u16; COLUMNS], a: Point)
    requires { a.0 < 512 }
    ensures { unpacked ws.new ≡ set (unpacked ws.old) (512 + a.0) (monomials exponents.now a.0) }
{
    ws[row_of(a)] = array::from_fn(|k| row_word(exponents, k * WORD_BITS, a));
}

// Two points whose common bits are a third.
#[derive(Clone, Copy)]
struct Pair {
    p: Point,
    q: Point,
}

// The high bits of the point `a` with all low ones, and all high ones with its low bits.
fn split_point(n: usize, a: Point) -> Pair
    requires { (n ≤ 9) × (a.0 < size_of n) }
    ensures { Splits n a.0 result.p.0 result.q.0 }
{
    let bits = a.0 as usize;
    let low = size(n / 2);
    let l = bits & (low - 1);
    Pair {
        p: Point((bits - l + (low - 1)) as u16),
        q: Point((size(n) - low + l) as u16),
    }
}

// The row of the point `a` is put in its place, where those of all points above it stand in theirs: if `a` is the common
// bits of two of them its row is the common ones of theirs.
fn fill_point(ws: &mut Rows, exponents: &[u16; COLUMNS], n: usize, a: Point)
    requires { (n ≤ 9) × (a.0 < size_of n) × RowsFrom exponents.now n (unpacked ws.old) (a.0 + 1) }
    ensures { unpacked ws.new ≡ set (unpacked ws.old) (512 + a.0) (monomials exponents.now a.0) }
{
    let s = split_point(n, a);
    if a.0 < s.p.0 && a.0 < s.q.0 {
        common_row(ws, row_of(a), row_of(s.p), row_of(s.q));
    } else {
        fill_row(ws, exponents, a);
    }
}

// The row of each point of `n` taps at degree `n` is put in its place. A kernel for the crates above: no other row
// changes.
#[inline(never)] // its list of exponents is on the stack only while it runs
pub fn fill_rows(ws: &mut Rows, order: &Order, n: usize)
    requires { n ≤ 9 }
    ensures { unpacked ws.new ≡ filled (exponents_of order.now.list n) n (unpacked ws.old) }
{
    let list = exponents(order, n);
    for a in (0..size(n)).rev() {
        fill_point(ws, &list, n, Point(a as u16));
    }
}
