// The sums of the points outside a part, in the workspace and in the certificate.
ghost use Rattle.std.specs.Prelude.{◌≡◌, true, false, not, ◌⊎◌, ℕ, ◌<◌, ◌+◌, ◌*◌, ◌≤◌, eqb, length, get_or};
ghost use mathlib.Core.List.{List, Memᴰ};
ghost use Rattle.cube.specs.NumberLists.{Inside};
ghost use Rattle.cube.specs.Cube.{size};
ghost use Rattle.cube.specs.Mask.{points};
ghost use Rattle.gf2.specs.Cut.{zero_row};
ghost use Rattle.gf2.specs.Elimination.{is_zero};
ghost use Rattle.gf2.specs.Steps.{row_of, Pivots, Places};
ghost use Rattle.packed.specs.Packed.{unpack, unpacked};
ghost use Rattle.point_rows.specs.Workspace.{exponents, RowsFrom};
ghost use Rattle.filter.specs.Part.{part as part_of};
ghost use Rattle.matrix.specs.Matrix.{rank_of};
ghost use Rattle.immunity.specs.Certificate.{certificate as certificate_of};
ghost use Rattle.matrix.specs.Combination.{followed, OutsidePlaces};
ghost use Rattle.certify.specs.Certify.{PartKept};
ghost use Rattle.certify.specs.Sums.{word_of, written, Sums, NoSum};

use cube::mask::Mask;
use cube::{POINTS, Point};
use filter::part::is_outside;
use immunity::CERTIFICATE;
use matrix::combination::{eliminate_combining, move_row};
use order::Order;
use order::columns::column_count;
use packed::basis::reduce_both;
use packed::row::is_zero;
use packed::{COLUMNS, ROW_WORDS, Row, Rows};
use point_rows::row_of;

// The sum of the combinations of the rows that are added to the row of the point `a` is put in its place. The result is
// whether something of the row is left, so that it is no sum of kept rows.
fn combine_point(
    ws: &mut Rows,
    pivots: &[u16; COLUMNS],
    places: &[u16; COLUMNS],
    kept: usize,
    a: Point,
    columns: usize,
) -> bool
    requires { (kept < 512) × (a.0 < 512) × Pivots pivots.now (unpacked ws.old) kept × Places places.now kept (512 + a.0) }
    ensures ws_after { unpacked ws.new ≡ followed columns kept a.0 zero_row places.now (unpacked ws.old) }
    ensures anything_left { result ≡ not (is_zero (row_of (unpacked ws.new) kept)) }
{
    move_row(ws, kept, a, columns);
    reduce_both(ws, pivots, places, kept, kept, row_of(a));
    !is_zero(&ws[kept])
}

// For each point of `set` outside `part` the sum of the combinations of the rows that are added to its row is put in
// its place, up to the first of whose row something is left. The result is whether there is none such; where there is one,
// the workspace is scratch. Else the rows from the kept ones to 512, and those in the places of other points that are not
// kept, are.
fn combine_outside(
    ws: &mut Rows,
    pivots: &[u16; COLUMNS],
    places: &[u16; COLUMNS],
    kept: usize,
    set: &Mask,
    part: &Mask,
    columns: usize,
) -> bool
    requires { (kept ≤ length (points part.now)) × Pivots pivots.now (unpacked ws.old) kept × OutsidePlaces places.now kept part.now }
    ensures sums { result ≡ true → Sums (unpacked ws.old) (unpacked ws.new) columns kept places.now set.now part.now 512 }
    ensures no_sum { result ≡ false → NoSum (unpacked ws.old) columns kept set.now part.now }
{
    for a in 0..POINTS {
        let point = Point(a as u16);
        if is_outside(set, part, point) {
            if combine_point(ws, pivots, places, kept, point, columns) {
                return false;
            }
        }
    }
    true
}

// For each point of `set` outside `part` the points of the part whose rows sum to its row are put in its place, where
// `kept` marks the kept points of the part: the combinations are over these alone. The result is whether the ranks of the
// set and the part at degree `d` are equal: where they differ, some row is no such sum, and the workspace is scratch.
#[inline(never)] // its pivots and places are on the stack only while it runs
pub fn combine_kept(
    ws: &mut Rows,
    order: &Order,
    set: &Mask,
    part: &Mask,
    kept: &Mask,
    n: usize,
    d: usize,
) -> bool
    requires { (n ≤ 9) × (d ≤ n)
        × Inside (size n) (points set.now) × ((a : ℕ) → Memᴰ a (points part.now) → Memᴰ a (points set.now))
        × RowsFrom (exponents order.now.list n) n (unpacked ws.old) 0 × PartKept order.now.list n d part.now kept.now }
    ensures ranks_equal { result ≡ eqb (rank_of order.now.list n d (points set.now)) (rank_of order.now.list n d (points part.now)) }
    ensures certificate_written { result ≡ true → (f : List ℕ) (side : ℕ) → points part.now ≡ part_of side set.now f
        → written set.now part.now (unpacked ws.new) ≡ certificate_of order.now.list n set.now f side d }
{
    let mut pivots = [0u16; COLUMNS];
    let mut places = [0u16; COLUMNS];
    let columns = column_count(order, n, d as u16);
    let rank = eliminate_combining(ws, &mut pivots, &mut places, kept, columns);
    combine_outside(ws, &pivots, &places, rank, set, part, columns)
}

// The eight numbers of the point `a` in the certificate become those of `row`.
fn copy_row(row: &Row, a: Point, certificate: &mut [u64; CERTIFICATE])
    requires { a.0 < 512 }
    ensures row_copied { (k : ℕ) → k < 8 → get_or certificate.new (8 * a.0 + k) 0 ≡ word_of (unpack row.now) k }
    ensures others_stay { (i : ℕ) → (i < 8 * a.0) ⊎ (8 * a.0 + 8 ≤ i) → get_or certificate.new i 0 ≡ get_or certificate.old i 0 }
{
    let to = a.0 as usize * ROW_WORDS;
    certificate[to..to + ROW_WORDS].copy_from_slice(row);
}

// The certificate becomes the rows in the places of the points that are in `set` and outside `part`, with zeros for all
// other points.
pub fn write_certificate(ws: &Rows, set: &Mask, part: &Mask, certificate: &mut [u64; CERTIFICATE])
    ensures { certificate.new ≡ written set.now part.now (unpacked ws.now) }
{
    *certificate = [0; CERTIFICATE];
    for a in 0..POINTS {
        let point = Point(a as u16);
        if is_outside(set, part, point) {
            copy_row(&ws[row_of(point)], point, certificate);
        }
    }
}
