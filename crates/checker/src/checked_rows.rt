// The rows of a certificate, and whether what they name is right: by sums over supersets, so that no row of the matrix is
// made. A row of a certificate is over points; `superset_sums` alone makes a row over exponents of one.
ghost use Rattle.std.specs.Prelude.{◌≡◌, [], ℕ, ◌≤◌, ◌<◌, get_or};
ghost use Rattle.cube.specs.NumberLists.{all_below};
ghost use Rattle.gf2.specs.Vector.{entry, add, unit};
ghost use Rattle.packed.specs.Packed.{unpack};
ghost use Rattle.checker.specs.CheckedRows.{others_row, columns_row, names_sum, checked_row};

use cube::mask::Mask;
use cube::{Exponent, POINTS, Point, size};
use filter::part::is_outside;
use order::columns::is_column;
use packed::row::{disjoint, flip_column, is_zero};
use packed::{COLUMNS, ROW_WORDS, Row};
use superset_sums::{ExponentRow, PointRow, superset_sums};

// The row with a one in each column that passes the test.
fn row_where<F: Fn(usize) -> bool>(passes: F) -> Row
    requires { (c : ℕ) → c < 512 → F.pre passes c }
    ensures { (c : ℕ) → c < 512 → F.post passes c (entry (unpack result) c) }
{
    let mut row = [0u64; ROW_WORDS];
    for c in 0..COLUMNS {
        if passes(c) {
            flip_column(&mut row, c);
        }
    }
    row
}

// The numbers below 512 that are no points of `part`, as a row over points.
pub fn others_row(part: &Mask) -> PointRow
    ensures { unpack result.0 ≡ others_row part.now }
{
    PointRow(row_where(|q| part[q] != 1))
}

// The exponents of `n` taps that weigh at most `d`, as a row over exponents.
pub fn columns_row(n: usize, d: u16) -> ExponentRow
    requires { n ≤ 9 }
    ensures { unpack result.0 ≡ columns_row n d }
{
    let points = size(n);
    ExponentRow(row_where(|u| is_column(Exponent(u as u16), points, d)))
}

// The row over points with the point `a` added.
#[tactic(auto, unfolding(gf2::specs::Solve::flip))]
fn with_point(row: &Row, a: Point) -> PointRow
    requires { a.0 < 512 }
    ensures { unpack result.0 ≡ add (unpack row.now) (unit a.0) }
{
    let mut sum = *row;
    flip_column(&mut sum, a.0 as usize);
    PointRow(sum)
}

// Whether the row over points names none of `others`, and the rows of the points that it names sum to that of `a`: no
// superset sum of these points and of `a` is one at an exponent of `columns`.
#[tactic(auto, unfolding(crate::specs::CheckedRows::names_sum))]
fn names_sum(row: &Row, others: PointRow, columns: ExponentRow, a: Point) -> bool
    requires { a.0 < 512 }
    ensures { result ≡ names_sum (unpack row.now) (unpack others.0) (unpack columns.0) a.0 }
{
    disjoint(row, &others.0) && disjoint(&superset_sums(with_point(row, a)).0, &columns.0)
}

// Whether what the row over points names for the point `a` is right.
#[tactic(auto, unfolding(crate::specs::CheckedRows::checked_row))]
fn row_right(
    row: &Row,
    set: &Mask,
    part: &Mask,
    others: PointRow,
    columns: ExponentRow,
    a: Point,
) -> bool
    requires { a.0 < 512 }
    ensures { result ≡ checked_row set.now part.now (unpack others.0) (unpack columns.0) (unpack row.now) a.0 }
{
    if is_outside(set, part, a) {
        names_sum(row, others, columns, a)
    } else {
        is_zero(row)
    }
}

// Whether what the certificate names is right for every point.
pub fn rows_right(
    certificate: &[Row; POINTS],
    set: &Mask,
    part: &Mask,
    others: PointRow,
    columns: ExponentRow,
) -> bool
    ensures { result ≡ all_below 512 (λ a. checked_row set.now part.now (unpack others.0) (unpack columns.0) (unpack (get_or certificate.now a [])) a) }
{
    for (a, row) in certificate.iter().enumerate() {
        if !row_right(row, set, part, others, columns, Point(a as u16)) {
            return false;
        }
    }
    true
}
