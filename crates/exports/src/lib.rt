// The operations for C and Rust: docs/SPECIFICATION.md, 'Library'. Each but Hand over answers 0 where it accepts, and else
// the refusal's number; what it answers besides goes into lent numbers, which a refusal leaves as they were. Hand over
// answers a length, which is 0 where it refuses.
#![tactic(auto)]

ghost use Rattle.std.specs.Prelude.{◌≡◌, length};
ghost use Rattle.refusal.specs.Outcome.{left_by, outcome_of};
ghost use Rattle.refusal.specs.Status.{status_of};
ghost use Rattle.order.specs.BuiltIn.{graded};
ghost use Rattle.filter.specs.Sides.{pair};
ghost use Rattle.polynomial.specs.Convert.{convert_outcome, convert_leaves};
ghost use Rattle.polynomial.specs.Degree.{degree_outcome};
ghost use Rattle.matrix.specs.Rank.{rank_outcome};
ghost use Rattle.filter_file.specs.Read.{read_outcome};
ghost use Rattle.filter_file.specs.Write.{write_outcome};
ghost use Rattle.judge.specs.Judge.{judge_outcome};
ghost use Rattle.judge_report.specs.Report.{reported_outcome};
ghost use Rattle.certify.specs.Certify.{certify_outcome};
ghost use Rattle.checker.specs.Check.{check_outcome};
ghost use Rattle.rearrange.specs.Rearrange.{rearrange_outcome};
ghost use Rattle.exports.specs.Exported.{ReadStatus, WriteStatus, RankStatus, JudgeStatus, CertifyStatus, CheckStatus, in_front, HandOverStatus, RearrangeStatus};

use buffer::append;
use judge_report::{REPORT, write_report};
use refusal::Refusal;

// The status of an answer: 0, or the number of the refusal.
fn status(answer: Result<(), Refusal>) -> u8
    ensures { result ≡ status_of (outcome_of answer) }
{
    match answer {
        Ok(()) => 0,
        Err(x) => u8::from(x),
    }
}

// Convert.
#[unsafe(no_mangle)]
pub extern "C" fn ekthavrul_convert(bytes: &mut [u8], n: usize) -> u8
    ensures { (result ≡ status_of (convert_outcome n bytes.old)) × (bytes.new ≡ convert_leaves n bytes.old) }
{
    status(polynomial::convert::convert(bytes, n))
}

// Degree.
#[unsafe(no_mangle)]
pub extern "C" fn ekthavrul_degree(coefficients: &[u8], n: usize, degree: &mut u32) -> u8
    ensures { (result ≡ status_of (degree_outcome n coefficients.now)) × (degree.new ≡ left_by (degree_outcome n coefficients.now) degree.old (λ d. d)) }
{
    match polynomial::degree::degree(coefficients, n) {
        Err(x) => u8::from(x),
        Ok(d) => {
            *degree = u32::from(d);
            0
        }
    }
}

// Read: the number of taps goes to `n`.
#[unsafe(no_mangle)]
pub extern "C" fn ekthavrul_read(file: &[u8], set: &mut [u8], table: &mut [u8], n: &mut usize) -> u8
    ensures { ReadStatus (read_outcome (length set.old) (length table.old) file.now) set.old set.new table.old table.new n.old n.new result }
{
    match filter_file::read::read(file, set, table) {
        Err(x) => u8::from(x),
        Ok(taps) => {
            *n = taps;
            0
        }
    }
}

// Write: the length of the file goes to `written`.
#[unsafe(no_mangle)]
pub extern "C" fn ekthavrul_write(
    set: &[u8],
    table: &[u8],
    n: usize,
    output: &mut [u8],
    written: &mut usize,
) -> u8
    ensures { WriteStatus (write_outcome set.now table.now n (length output.old)) output.old output.new written.old written.new result }
{
    match filter_file::write::write(set, table, n, output) {
        Err(x) => u8::from(x),
        Ok(length) => {
            *written = length;
            0
        }
    }
}

// Rank: the mask of the kept points goes to `kept`, the rank and the count of additions to `rank` and `additions`.
#[unsafe(no_mangle)]
pub extern "C" fn ekthavrul_rank(
    mask: &[u8],
    n: usize,
    d: usize,
    workspace: &mut [u64],
    kept: &mut [u8],
    rank: &mut usize,
    additions: &mut u32,
) -> u8
    ensures { RankStatus (rank_outcome graded mask.now n d (length workspace.old) (length kept.old))
        workspace.old workspace.new kept.old kept.new rank.old rank.new additions.old additions.new result }
{
    match matrix::rank::rank(mask, n, d, workspace, kept) {
        Err(x) => u8::from(x),
        Ok(found) => {
            *rank = found.rank;
            *additions = found.additions;
            0
        }
    }
}

// Judge: the mask of the kept points of the set at the reported degree goes to `kept`; the ranks at each degree, the
// reported degree, the side, the count of additions, each side's own degree and the mark go to `report`, with numbers
// that the header names for what a set without a point does not have. A report of another length is refused first.
#[unsafe(no_mangle)]
pub extern "C" fn ekthavrul_judge(
    set: &[u8],
    table: &[u8],
    n: usize,
    workspace: &mut [u64],
    one: &mut [u8],
    zero: &mut [u8],
    kept: &mut [u8],
    report: &mut [u32],
) -> u8
    ensures { JudgeStatus (reported_outcome (length report.old) (judge_outcome graded set.now table.now n (length workspace.old) (length one.old) (length zero.old) (length kept.old)))
        workspace.old workspace.new (pair one.old zero.old) (pair one.new zero.new) kept.old kept.new report.old report.new result }
{
    if report.len() != REPORT {
        return u8::from(Refusal::Length);
    }
    let answer = judge::judge(set, table, n, workspace, one, zero, kept);
    write_report(answer, report.as_mut_array::<REPORT>().unwrap())
}

// Certify: the certificate goes to `certificate`.
#[unsafe(no_mangle)]
pub extern "C" fn ekthavrul_certify(
    set: &[u8],
    table: &[u8],
    n: usize,
    side: u8,
    d: usize,
    workspace: &mut [u64],
    certificate: &mut [u64],
) -> u8
    ensures { CertifyStatus (certify_outcome graded set.now table.now n side d (length workspace.old) (length certificate.old))
        workspace.old workspace.new certificate.old certificate.new result }
{
    status(certify::certify(set, table, n, side, d, workspace, certificate))
}

// Check: 1 for yes, or 0 for no, goes to `yes`.
#[unsafe(no_mangle)]
pub extern "C" fn ekthavrul_check(
    set: &[u8],
    table: &[u8],
    n: usize,
    side: u8,
    d: usize,
    certificate: &[u64],
    yes: &mut u8,
) -> u8
    ensures { CheckStatus (check_outcome graded set.now table.now n side d certificate.now) yes.old yes.new result }
{
    match checker::check(set, table, n, side, d, certificate) {
        Err(x) => u8::from(x),
        Ok(certified) => {
            *yes = u8::from(certified);
            0
        }
    }
}

// The bytes of `part` are copied to the front of `copy`, as many as it has room for.
fn copy_front(part: &[u8], copy: &mut [u8])
    ensures { copy.new ≡ in_front part.now copy.old }
{
    let room = part.len().min(copy.len());
    append(copy, 0, &part[..room]);
}

// Hand over: the part handed back is copied to the front of `copy`, as far as it has room. The result is the part's
// length, 0 where Hand over refuses.
#[unsafe(no_mangle)]
pub extern "C" fn ekthavrul_hand_over<'a>(
    n: usize,
    side: u8,
    one: &'a [u8],
    zero: &'a [u8],
    copy: &mut [u8],
) -> usize
    ensures { HandOverStatus n side (pair one.now zero.now) copy.old copy.new result }
{
    let part = hand_over::hand_over(n, side, one, zero);
    copy_front(part, copy);
    part.len()
}

// Rearrange: `set` and `table` become the rearranged ones.
#[unsafe(no_mangle)]
pub extern "C" fn ekthavrul_rearrange(
    set: &mut [u8],
    table: &mut [u8],
    n: usize,
    wiring: &[u8],
) -> u8
    ensures { RearrangeStatus (rearrange_outcome set.old table.old n wiring.now) set.old set.new table.old table.new result }
{
    status(rearrange::rearrange(set, table, n, wiring))
}
