// Points and exponents of up to nine taps: docs/SPECIFICATION.md, 'Words'.
#![tactic(auto)]

ghost use Rattle.std.specs.Prelude.{◌≡◌, ◌≤◌, ◌<◌};
ghost use Rattle.cube.specs.Cube.{taps, size as size_of, within as within_of, weight as weight_of};

pub mod mask; // mask.rt: sets, tables and coefficients as 512 bytes

// The most taps of a filter.
pub const TAPS_MAX: usize = 9;

// The points of that many taps: the length of a lent set, table or list of coefficients.
pub const POINTS: usize = 512;

// A point of the cube.
#[derive(Clone, Copy, Debug, PartialEq, Eq, PartialOrd, Ord)]
pub struct Point(pub u16);

// The ones of an exponent name the variables of one monomial.
#[derive(Clone, Copy, Debug, PartialEq, Eq, PartialOrd, Ord)]
pub struct Exponent(pub u16);

// Whether `n` is a number of taps.
pub fn valid_taps(n: usize) -> bool
    ensures { result ≡ taps n }
{
    if n < 1 {
        return false;
    }
    n <= TAPS_MAX
}

// The number of points of `n` taps; from 64 taps on the largest number, which is less.
pub fn size(n: usize) -> usize
    ensures { (n < 64 → result ≡ size_of n) × (64 ≤ n → result ≡ 18446744073709551615) }
{
    if 64 <= n {
        return usize::MAX;
    }
    1 << n
}

// Whether the exponent `u` lies within the point `a`: the monomial `u` is then 1 at `a`.
pub fn within(u: Exponent, a: Point) -> bool
    ensures { result ≡ within_of u.0 a.0 }
{
    u.0 & a.0 == u.0
}

// The number of ones of the exponent `u`, its population count: the ones of each pair of bits are counted, then those of
// each nibble; then the counts of the two bytes are added, nibble by nibble, and then the two sums. `count_ones` answers 32
// bits, and no number inside is to be wider than 16: docs/DECISIONS.md, 'A weight is counted in pairs'.
pub fn weight(u: Exponent) -> u16
    ensures { result ≡ weight_of u.0 }
{
    let bits = u.0;
    let pairs = bits - ((bits >> 1) & 0x5555);
    let nibbles = (pairs & 0x3333) + ((pairs >> 2) & 0x3333);
    let sums = (nibbles & 0x00ff) + (nibbles >> 8);
    (sums & 0x000f) + (sums >> 4)
}
