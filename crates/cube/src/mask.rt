// Sets, tables and coefficients as they are lent: byte a is 0 or 1 for a below N, and 0 from N on.
ghost use Rattle.std.specs.Prelude.{◌≡◌, ◌≤◌, length};
ghost use Rattle.cube.specs.NumberLists.{is_empty, largest as largest_of};
ghost use Rattle.cube.specs.Mask.{well_formed, marked};

use crate::{POINTS, size};

// A set, a table or coefficients, byte by byte.
pub type Mask = [u8; POINTS];

// The largest byte, 0 where there is none. Without an early return the fold is compiled to wide instructions.
fn largest(bytes: &[u8]) -> u8
    ensures { result ≡ largest_of (λ x. x) bytes.now }
{
    bytes.iter().fold(0, |most, &x| most.max(x))
}

// Whether each byte is 0 or 1 for a point of `n` taps, and 0 from there on; for any `n`, so that it can be asked before
// the number of taps is known to be right.
pub fn well_formed(mask: &[u8], n: usize) -> bool
    ensures { result ≡ well_formed n mask.now }
{
    let (inside, past) = mask.split_at(size(n).min(mask.len()));
    let bits = largest(inside) <= 1;
    let zeros = largest(past) == 0;
    bits && zeros
}

// Whether the mask marks nothing.
#[tactic(auto, using(crate::proofs::Masks::marked_any))]
pub fn is_empty(mask: &[u8]) -> bool
    ensures { result ≡ is_empty (marked mask.now) }
{
    !mask.contains(&1)
}

// How many numbers the mask marks. A byte adds its bit, and no branch is taken: the loop is compiled to wide instructions.
pub fn count(mask: &[u8]) -> usize
    ensures { (result ≡ length (marked mask.now)) × (result ≤ length mask.now) }
{
    let mut number = 0;
    for &byte in mask {
        number += usize::from(byte == 1);
    }
    number
}
