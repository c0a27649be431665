// The checks that operations share. An operation's checks are its calls of these, one after the other by `?`.
ghost use Rattle.std.specs.Prelude.{◌≡◌};
ghost use Rattle.refusal.specs.Verdict.{verdict};
ghost use Rattle.filter.specs.Checks.{length_is, taps_of, mask_of, degree_up_to, side_up_to_1, filter_lengths, filter_masks, at_degree};

use cube::mask::well_formed;
use cube::{POINTS, valid_taps};
use refusal::Refusal;
use refusal::verdict::require;

// 1: a lent buffer has the right length.
pub fn check_length(length: usize, right: usize) -> Result<(), Refusal>
    ensures { result ≡ verdict (length_is length right) }
{
    require(length == right, Refusal::Length)
}

// 4: the number of taps is from 1 to 9.
pub fn check_taps(n: usize) -> Result<(), Refusal>
    ensures { result ≡ verdict (taps_of n) }
{
    require(valid_taps(n), Refusal::Taps)
}

// 8: each byte of a mask obeys the 0/1/0 rule.
pub fn check_mask(mask: &[u8], n: usize) -> Result<(), Refusal>
    ensures { result ≡ verdict (mask_of n mask.now) }
{
    require(well_formed(mask, n), Refusal::Bytes)
}

// 10: the degree is at most `n`.
pub fn check_degree(d: usize, n: usize) -> Result<(), Refusal>
    ensures { result ≡ verdict (degree_up_to d n) }
{
    require(d <= n, Refusal::Degree)
}

// 11: the side is at most 1.
pub fn check_side(side: u8) -> Result<(), Refusal>
    ensures { result ≡ verdict (side_up_to_1 side) }
{
    require(side <= 1, Refusal::Side)
}

// 1: the lengths of a set and of a table.
pub fn check_filter_lengths(set: &[u8], table: &[u8]) -> Result<(), Refusal>
    ensures { result ≡ verdict (filter_lengths set.now table.now) }
{
    check_length(set.len(), POINTS)?;
    check_length(table.len(), POINTS)
}

// What follows the taps: the set's bytes, the table's bytes.
pub fn check_filter_masks(set: &[u8], table: &[u8], n: usize) -> Result<(), Refusal>
    ensures { result ≡ verdict (filter_masks n set.now table.now) }
{
    check_mask(set, n)?;
    check_mask(table, n)
}

// What follows the taps where a side and a degree are asked for: the bytes of the set and of the table, the degree, the
// side.
pub fn check_at_degree(
    set: &[u8],
    table: &[u8],
    n: usize,
    side: u8,
    d: usize,
) -> Result<(), Refusal>
    ensures { result ≡ verdict (at_degree n set.now table.now side d) }
{
    check_filter_masks(set, table, n)?;
    check_degree(d, n)?;
    check_side(side)
}
