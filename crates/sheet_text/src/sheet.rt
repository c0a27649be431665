// The sheet of a file.
ghost use Rattle.std.specs.Prelude.{◌≡◌, [], ◌++◌, ℕ, ◌+◌, ◌≤◌, ◌<◌, length};
ghost use Rattle.order.specs.BuiltIn.{graded};
ghost use Rattle.io.specs.Counts.{IsPrefixLen};
ghost use Rattle.immunity.specs.Judgement.{judged};
ghost use Rattle.immunity.specs.Certificate.{certificate as certificate_of};
ghost use Rattle.filter.specs.Sides.{pair};
ghost use Rattle.judge.specs.Judge.{JudgeAccepts};
ghost use Rattle.certify.specs.Certify.{CertifyAccepts};
ghost use Rattle.buffer.specs.Appends.{Appends};
ghost use Rattle.text.specs.Room.{field_room};
ghost use Rattle.sheet_lines.specs.Room.{degree_line_room, side_sums_room, sums_room, text_room};
ghost use Rattle.sheet_lines.specs.Lines.{first_line, rank_lines, degree_line, sides_line, additions_line};
ghost use Rattle.sheet_text.specs.Sheet.{side_sums, sums, filter_sheet, SheetContract};

use certify::certify;
use cube::POINTS;
use cube::mask::{Mask, count};
use filter_file::read::read;
use immunity::{CERTIFICATE, Ranks};
use judge::judge;
use packed::WORKSPACE;
use sheet_lines::lines::{
    additions_line, degree_line, first_line, no_degree_line, rank_lines, refused_line, sides_line,
    sum_lines,
};
use sheet_lines::room::TEXT;

// The sheet of the file is written at the front of the text; what stood behind it stays. The result is its length.
pub fn sheet(file: &[u8], text: &mut [u8; TEXT]) -> usize
    ensures length_in_text { IsPrefixLen result text.new }
    ensures sheet_written { SheetContract file.now text.old text.new result }
{
    let mut set = [0u8; POINTS];
    let mut table = [0u8; POINTS];
    match read(file, &mut set, &mut table) {
        Err(x) => refused_line(text, 0, u8::from(x)),
        Ok(n) => filter_sheet(text, n, &set, &table),
    }
}

// The sheet of a filter that Judge accepts.
fn filter_sheet(text: &mut [u8], n: usize, set: &Mask, table: &Mask) -> usize
    requires { (text_room ≤ length text.old) × JudgeAccepts graded n set.now table.now (judged graded n set.now table.now) }
    ensures { Appends (filter_sheet n set.now table.now) text.old text.new 0 result }
{
    let mut workspace = [0u64; WORKSPACE];
    let mut one = [0u8; POINTS];
    let mut zero = [0u8; POINTS];
    let mut kept = [0u8; POINTS];
    let answer = judge(
        set,
        table,
        n,
        &mut workspace,
        &mut one,
        &mut zero,
        &mut kept,
    )
    .unwrap();
    let ranks = answer.ranks;
    match answer.report {
        None => no_point_sheet(text, n, ranks),
        Some(found) => {
            let first = first_line(text, 0, n, count(set), Some(found.mark));
            let report = rank_lines(text, first, n, ranks);
            let sides = report_line(text, report, found.degree, found.side, &one, &zero);
            let of_sums = sides_line(text, sides, found.one, found.zero);
            let end = sum_sections(text, of_sums, n, set, table, found.degree);
            additions_line(text, end, found.additions)
        }
    }
}

// The sheet of a set without a point, with these ranks.
fn no_point_sheet(text: &mut [u8], n: usize, ranks: [Ranks; 10]) -> usize
    requires { (text_room ≤ length text.old) × (n ≤ 9) }
    ensures { Appends (first_line n 0 None ++ rank_lines n ranks ++ degree_line None None (pair [] []) ++ sides_line (pair None None) ++ additions_line 0) text.old text.new 0 result }
{
    let first = first_line(text, 0, n, 0, None);
    let report = rank_lines(text, first, n, ranks);
    let sides = no_degree_line(text, report);
    let end = sides_line(text, sides, None, None);
    additions_line(text, end, 0)
}

// The degree line, with the witness of the side.
fn report_line(text: &mut [u8], at: usize, k: usize, side: u8, one: &Mask, zero: &Mask) -> usize
    requires { at + degree_line_room + field_room ≤ length text.old }
    ensures { Appends (degree_line (Some k) (Some side) (pair one.now zero.now)) text.old text.new at result × (result ≤ at + degree_line_room) }
{
    let witness = if side == 1 { one } else { zero };
    degree_line(text, at, k, side, witness)
}

// The sums of the certificates of degree k - 1, side 1 then side 0; none if k is 0.
fn sum_sections(text: &mut [u8], at: usize, n: usize, set: &Mask, table: &Mask, k: usize) -> usize
    requires { (at + sums_room + field_room ≤ length text.old)
        × ((d side : ℕ) → d < k → side ≤ 1 → CertifyAccepts graded n set.now table.now side d (certificate_of graded n set.now table.now side d)) }
    ensures { Appends (sums n set.now table.now (Some k)) text.old text.new at result × (result ≤ at + sums_room) }
{
    if k == 0 {
        return at;
    }
    let of_zero = side_sums(text, at, n, set, table, 1, k - 1);
    side_sums(text, of_zero, n, set, table, 0, k - 1)
}

// The sums of the certificate of a side at degree `d`.
fn side_sums(
    text: &mut [u8],
    at: usize,
    n: usize,
    set: &Mask,
    table: &Mask,
    side: u8,
    d: usize,
) -> usize
    requires { (at + side_sums_room + field_room ≤ length text.old)
        × CertifyAccepts graded n set.now table.now side d (certificate_of graded n set.now table.now side d) }
    ensures { Appends (side_sums n set.now table.now d side) text.old text.new at result × (result ≤ at + side_sums_room) }
{
    let mut workspace = [0u64; WORKSPACE];
    let mut certificate = [0u64; CERTIFICATE];
    certify(set, table, n, side, d, &mut workspace, &mut certificate).unwrap();
    sum_lines(text, at, side, set, table, &certificate)
}
