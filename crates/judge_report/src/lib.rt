// The report: docs/SPECIFICATION.md, 'Library'. What Judge answers beside its buffers, as the numbers of one lent array,
// with an index for each. A number that is added later goes behind the last, so that no index ever changes.
// include/ekthavrul.h gives C the same indices.
#![tactic(auto)]

ghost use Rattle.std.specs.Prelude.{◌≡◌, ◌≤◌, take};
ghost use Rattle.filter.specs.Sides.{pair};
ghost use Rattle.immunity.specs.Ranks.{flat};
ghost use Rattle.judge_report.specs.Report.{degree_number, numbers, Bounded, Reportable, Reports};

use immunity::Ranks;
use judge::{JudgeAnswer, Report};
use refusal::Refusal;

// The length of the report.
pub const REPORT: usize = 36;

// The rank of the set at degree 0. At degree d it stands RANKS_OF_DEGREE * d further on, and so do the two behind it.
const RANK_SET_AT: usize = 0;

// The rank of part 1 at degree 0.
const RANK_ONE_AT: usize = 1;

// The rank of part 0 at degree 0.
const RANK_ZERO_AT: usize = 2;

// How many ranks each degree has.
const RANKS_OF_DEGREE: usize = 3;

// The reported degree.
const DEGREE_AT: usize = 30;

// The side.
const SIDE_AT: usize = 31;

// The count of additions.
const ADDITIONS_AT: usize = 32;

// Side 1's own degree.
const DEGREE_ONE_AT: usize = 33;

// Side 0's own degree.
const DEGREE_ZERO_AT: usize = 34;

// The mark.
const MARK_AT: usize = 35;

// The number for no degree: a side's own where the side never differs, and without a point the reported degree and the
// mark too.
const NO_DEGREE: u32 = 10;

// The number for no side, without a point.
const NO_SIDE: u32 = 2;

// The number of degrees of nine taps.
const DEGREES: usize = 10;

// The status of what Judge answered; where it accepts, its report goes to `report`.
pub fn write_report(answer: Result<JudgeAnswer, Refusal>, report: &mut [u32; REPORT]) -> u8
    requires { Reportable answer }
    ensures { Reports answer report.old report.new result }
{
    match answer {
        Err(x) => u8::from(x),
        Ok(found) => {
            let ranks = found.ranks;
            match found.report {
                None => write_no_point(ranks, report),
                Some(judged) => write_found(ranks, judged, report),
            }
            0
        }
    }
}

// The report of a set without a point, with these ranks at each degree: the numbers for none, and 0 additions.
fn write_no_point(ranks: [Ranks; DEGREES], report: &mut [u32; REPORT])
    ensures { report.new ≡ numbers ranks None None 0 (pair None None) None }
{
    write_ranks(ranks, report);
    report[DEGREE_AT] = NO_DEGREE;
    report[SIDE_AT] = NO_SIDE;
    report[ADDITIONS_AT] = 0;
    report[DEGREE_ONE_AT] = NO_DEGREE;
    report[DEGREE_ZERO_AT] = NO_DEGREE;
    report[MARK_AT] = NO_DEGREE;
}

// The report of what Judge found, with these ranks at each degree.
fn write_found(ranks: [Ranks; DEGREES], found: Report, report: &mut [u32; REPORT])
    requires { Bounded found }
    ensures { report.new ≡ numbers ranks (Some found.degree) (Some found.side) found.additions (pair found.one found.zero) (Some found.mark) }
{
    write_ranks(ranks, report);
    report[DEGREE_AT] = found.degree as u32;
    report[SIDE_AT] = u32::from(found.side);
    report[ADDITIONS_AT] = found.additions;
    report[DEGREE_ONE_AT] = degree_number(found.one);
    report[DEGREE_ZERO_AT] = degree_number(found.zero);
    report[MARK_AT] = found.mark as u32;
}

// The ranks at each degree become the numbers in front; the six behind them are still to be written.
fn write_ranks(ranks: [Ranks; DEGREES], report: &mut [u32; REPORT])
    ensures { take 30 report.new ≡ flat ranks }
{
    for (d, here) in ranks.iter().enumerate() {
        let at = RANKS_OF_DEGREE * d;
        report[at + RANK_SET_AT] = u32::from(here.set);
        report[at + RANK_ONE_AT] = u32::from(here.one);
        report[at + RANK_ZERO_AT] = u32::from(here.zero);
    }
}

// The number for a side's own degree, which is at most 10 and so fits in 32 bits.
fn degree_number(degree: Option<usize>) -> u32
    requires { degree_number degree ≤ 10 }
    ensures { result ≡ degree_number degree }
{
    degree.map_or(NO_DEGREE, |d| d as u32)
}
