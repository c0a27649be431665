// Sums over supersets, on a row of 512 bits in eight numbers: docs/SPECIFICATION.md, 'Check'. It is the transpose of
// Convert's transform: one step for each of nine variables, six inside the numbers and three between them.
#![tactic(auto)]

ghost use Rattle.std.specs.Prelude.{◌≡◌, map, ◌^◌, ◌<◌, get_or};
ghost use Rattle.std.specs.Int.Bits.{bit_xor};
ghost use Rattle.cube.specs.NumberLists.{below};
ghost use Rattle.gf2.specs.Vector.{entry};
ghost use Rattle.packed.specs.Packed.{unpack};
ghost use Rattle.superset_sums.specs.SupersetSums.{superset_sums, Stepped, fold_of, partner_of};

use cube::TAPS_MAX;
use packed::Row;
use std::array;

// A row of 512 columns that stand for points, in eight numbers.
#[derive(Clone, Copy)]
pub struct PointRow(pub Row);

// A row of 512 columns that stand for exponents.
#[derive(Clone, Copy)]
pub struct ExponentRow(pub Row);

// The variables of a place inside a number of 64 bits.
const WORD_TAPS: usize = 6;

// For each of these variables the places where it is 0.
const LOW_PLACES: [u64; WORD_TAPS] = [
    0x5555_5555_5555_5555,
    0x3333_3333_3333_3333,
    0x0f0f_0f0f_0f0f_0f0f,
    0x00ff_00ff_00ff_00ff,
    0x0000_ffff_0000_ffff,
    0x0000_0000_ffff_ffff,
];

// Each bit of the mask's places gets the bit `shift` places above it added.
#[tactic(auto, unfolding(crate::specs::SupersetSums::fold_of))]
fn fold(x: u64, shift: usize, mask: u64) -> u64
    requires { shift < 64 }
    ensures { result ≡ fold_of shift mask x }
{
    x ^ ((x >> shift) & mask)
}

// The same in each number.
fn step_in_words(row: &mut Row, shift: usize, mask: u64)
    requires { shift < 64 }
    ensures { row.new ≡ map (fold_of shift mask) row.old }
{
    *row = row.map(|word| fold(word, shift, mask));
}

// The number that is added to number `i` in the step of bit `j` of its place: the one whose place differs in that bit
// alone, if the bit is 0 of `i`.
#[tactic(auto, unfolding(crate::specs::SupersetSums::partner_of))]
fn partner(row: &Row, i: usize, j: usize) -> u64
    requires { (i < 8) × (j < 3) }
    ensures { result ≡ partner_of row.now (2 ^ j) i }
{
    if (i >> j) % 2 == 0 {
        row[i + (1 << j)]
    } else {
        0
    }
}

// Each number at a place whose bit `j` is 0 gets the number at the place that differs in bit `j` alone added.
fn step_between_words(row: &mut Row, j: usize)
    requires { j < 3 }
    ensures { row.new ≡ map (λ i. bit_xor (get_or row.old i 0) (partner_of row.old (2 ^ j) i)) (below 8) }
{
    *row = array::from_fn(|i| row[i] ^ partner(row, i, j));
}

// The step of variable `k`: each bit at a place whose bit `k` is 0 gets the bit at the place that differs in bit `k` alone
// added.
fn step(row: &mut Row, k: usize)
    requires { k < 9 }
    ensures { Stepped k (entry (unpack row.old)) (entry (unpack row.new)) }
{
    if k < WORD_TAPS {
        step_in_words(row, 1 << k, LOW_PLACES[k]);
    } else {
        step_between_words(row, k - WORD_TAPS);
    }
}

// The superset sums of a row over points: at each exponent the sum modulo 2 of the points that contain it. Here alone a row
// over points becomes one over exponents. A kernel for the crates above.
pub fn superset_sums(points: PointRow) -> ExponentRow
    ensures { unpack result.0 ≡ superset_sums (unpack points.0) }
{
    let mut sums = points.0;
    for k in 0..TAPS_MAX {
        step(&mut sums, k);
    }
    ExponentRow(sums)
}
