// The lines of the sheet. They are `pub` for sheet_text alone.
ghost use Rattle.std.specs.Prelude.{◌≡◌, [], ◌++◌, ◌+◌, ◌≤◌, ◌<◌, length};
ghost use Rattle.cube.specs.NumberLists.{below, select};
ghost use Rattle.cube.specs.Mask.{member, points};
ghost use Rattle.order.specs.BuiltIn.{graded};
ghost use Rattle.gf2.specs.Vector.{entry};
ghost use Rattle.packed.specs.Packed.{unpack};
ghost use Rattle.filter.specs.Sides.{pair};
ghost use Rattle.filter.specs.Part.{part};
ghost use Rattle.filter.specs.Outside.{outside};
ghost use Rattle.buffer.specs.Appends.{Appends};
ghost use Rattle.text.specs.Room.{field_room};
ghost use Rattle.text.specs.Text.{newline, labelled, fields};
ghost use Rattle.sheet_lines.specs.Room.{chosen_room, refused_line_room, first_line_room, rank_line_room, rank_lines_room, degree_line_room, sides_line_room, sum_line_room, side_sums_room, additions_line_room};
ghost use Rattle.sheet_lines.specs.Lines.{refused_line, first_line, rank_line, rank_lines, witness_fields, degree_line, degree_field, sides_line, sum_line, sum_lines, additions_line};

use buffer::append;
use cube::mask::Mask;
use cube::{POINTS, Point};
use immunity::{CERTIFICATE, Ranks};
use order::{exponent_at, graded_order};
use packed::row::entry;
use packed::{ROW_WORDS, Row};
use text::{append_decimal, append_field, append_heading, append_labelled, end_line};

// The line for a refusal.
pub fn refused_line(text: &mut [u8], at: usize, number: u8) -> usize
    requires { at + refused_line_room ≤ length text.old }
    ensures { Appends (refused_line number) text.old text.new at result }
{
    let end = append_labelled(text, at, b"refused", u64::from(number));
    end_line(text, end)
}

// The number of taps, of points, and the mark, or `none`.
pub fn first_line(text: &mut [u8], at: usize, n: usize, count: usize, mark: Option<usize>) -> usize
    requires { at + first_line_room ≤ length text.old }
    ensures { Appends (first_line n count mark) text.old text.new at result × (result ≤ at + first_line_room) }
{
    let points = append_labelled(text, at, b"n", n as u64);
    let label = append_labelled(text, points, b" points", count as u64);
    let of_mark = append(text, label, b" mark");
    let end = degree_field(text, of_mark, mark);
    end_line(text, end)
}

// A degree, and the ranks of the set, of part 1 and of part 0.
pub fn rank_line(text: &mut [u8], at: usize, d: usize, ranks: Ranks) -> usize
    requires { at + rank_line_room ≤ length text.old }
    ensures { Appends (rank_line d ranks) text.old text.new at result × (result ≤ at + rank_line_room) }
{
    let set = append_decimal(text, at, d as u64);
    let one = append_field(text, set, u64::from(ranks.set));
    let zero = append_field(text, one, u64::from(ranks.one));
    let end = append_field(text, zero, u64::from(ranks.zero));
    end_line(text, end)
}

// A rank line for each degree up to `n`.
pub fn rank_lines(text: &mut [u8], at: usize, n: usize, ranks: [Ranks; 10]) -> usize
    requires { (at + rank_lines_room ≤ length text.old) × (n ≤ 9) }
    ensures { Appends (rank_lines n ranks) text.old text.new at result × (result ≤ at + rank_lines_room) }
{
    let mut place = at;
    for (d, here) in ranks[..=n].iter().enumerate() {
        place = rank_line(text, place, d, *here);
    }
    place
}

// The exponents that a witness chooses, in graded order.
fn witness_fields(text: &mut [u8], at: usize, witness: &Mask) -> usize
    requires { at + chosen_room + field_room ≤ length text.old }
    ensures { Appends (fields (select (member witness.now) graded)) text.old text.new at result × (result ≤ at + chosen_room) }
{
    let order = graded_order();
    let mut place = at;
    for i in 0..POINTS {
        let u = exponent_at(&order.list, i);
        if witness[usize::from(u.0)] == 1 {
            place = append_field(text, place, u64::from(u.0));
        }
    }
    place
}

// The reported degree, the side, and that side's witness.
pub fn degree_line(text: &mut [u8], at: usize, k: usize, side: u8, witness: &Mask) -> usize
    requires { at + degree_line_room + field_room ≤ length text.old }
    ensures { Appends (labelled "degree" k ++ witness_fields side witness.now ++ newline) text.old text.new at result × (result ≤ at + degree_line_room) }
{
    let chosen = append_heading(
        text,
        at,
        b"degree",
        k as u64,
        b" side",
        u64::from(side),
        b" witness",
    );
    let end = witness_fields(text, chosen, witness);
    end_line(text, end)
}

// No degree: `degree none` alone.
pub fn no_degree_line(text: &mut [u8], at: usize) -> usize
    requires { at + degree_line_room ≤ length text.old }
    ensures { Appends (degree_line None None (pair [] [])) text.old text.new at result × (result ≤ at + degree_line_room) }
{
    let end = append(text, at, b"degree none");
    end_line(text, end)
}

// A degree, or `none`, after a space.
fn degree_field(text: &mut [u8], at: usize, degree: Option<usize>) -> usize
    requires { at + field_room ≤ length text.old }
    ensures { Appends (degree_field degree) text.old text.new at result × (result ≤ at + field_room) }
{
    match degree {
        Some(d) => append_field(text, at, d as u64),
        None => append(text, at, b" none"),
    }
}

// Each side's own degree: side 1's, then side 0's.
pub fn sides_line(text: &mut [u8], at: usize, one: Option<usize>, zero: Option<usize>) -> usize
    requires { at + sides_line_room ≤ length text.old }
    ensures { Appends (sides_line (pair one zero)) text.old text.new at result × (result ≤ at + sides_line_room) }
{
    let of_one = append(text, at, b"sides");
    let of_zero = degree_field(text, of_one, one);
    let end = degree_field(text, of_zero, zero);
    end_line(text, end)
}

// The points that a row over points names, rising.
fn sum_fields(text: &mut [u8], at: usize, row: &Row) -> usize
    requires { at + chosen_room + field_room ≤ length text.old }
    ensures { Appends (fields (select (entry (unpack row.now)) (below 512))) text.old text.new at result × (result ≤ at + chosen_room) }
{
    let mut place = at;
    for q in 0..POINTS {
        if entry(row, q) {
            place = append_field(text, place, q as u64);
        }
    }
    place
}

// The sum of the point `a`: the points that its row names.
fn sum_line(text: &mut [u8], at: usize, side: u8, a: Point, row: &Row) -> usize
    requires { at + sum_line_room + field_room ≤ length text.old }
    ensures { Appends (sum_line side a.0 (select (entry (unpack row.now)) (below 512))) text.old text.new at result × (result ≤ at + sum_line_room) }
{
    let named = append_heading(
        text,
        at,
        b"side",
        u64::from(side),
        b" point",
        u64::from(a.0),
        b" sum",
    );
    let end = sum_fields(text, named, row);
    end_line(text, end)
}

// A line for each point of the set outside the part of a side, rising.
pub fn sum_lines(
    text: &mut [u8],
    at: usize,
    side: u8,
    set: &Mask,
    table: &Mask,
    certificate: &[u64; CERTIFICATE],
) -> usize
    requires { at + side_sums_room + field_room ≤ length text.old }
    ensures { Appends (sum_lines side certificate.now (outside (points set.now) (part side set.now table.now))) text.old text.new at result × (result ≤ at + side_sums_room) }
{
    let (rows, _) = certificate.as_chunks::<ROW_WORDS>();
    let mut place = at;
    for a in 0..POINTS {
        if set[a] == 1 && table[a] != side {
            place = sum_line(text, place, side, Point(a as u16), &rows[a]);
        }
    }
    place
}

// Judge's additions.
pub fn additions_line(text: &mut [u8], at: usize, additions: u32) -> usize
    requires { at + additions_line_room ≤ length text.old }
    ensures { Appends (additions_line additions) text.old text.new at result × (result ≤ at + additions_line_room) }
{
    let end = append_labelled(text, at, b"additions", u64::from(additions));
    end_line(text, end)
}
