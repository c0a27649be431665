// Hand over: docs/SPECIFICATION.md, 'Hand over'. The part of a witness buffer that holds the witness of a side.
#![tactic(auto)]

ghost use Rattle.std.specs.Prelude.{◌≡◌, ◌≤◌};
ghost use Rattle.filter.specs.Sides.{pair};
ghost use Rattle.hand_over.specs.HandOver.{right, length_if, HandOverContract};

use cube::{POINTS, size, valid_taps};

// The first N bytes of the witness buffer of `side`; an empty part where `n`, the side or a length is wrong.
pub fn hand_over<'a>(n: usize, side: u8, one: &'a [u8], zero: &'a [u8]) -> &'a [u8]
    ensures { HandOverContract n side (pair one.now zero.now) result.now }
{
    let points = part_length(n, side, one.len(), zero.len());
    if side == 1 {
        return &one[..points];
    }
    &zero[..points]
}

// The length of the part: N, or 0 where `n`, the side or the length of a buffer is wrong.
fn part_length(n: usize, side: u8, one: usize, zero: usize) -> usize
    ensures { (result ≡ length_if (right n side one zero) n) × (result ≤ one) × (result ≤ zero) }
{
    if (one == POINTS) & (zero == POINTS) & valid_taps(n) & (side <= 1) {
        return size(n);
    }
    0
}
