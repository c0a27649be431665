// The parts of a set: its points where the table is 1, and those where it is 0.
ghost use Rattle.std.specs.Prelude.{◌≡◌, ◌&&◌, ◌<◌, eqb};
ghost use Rattle.cube.specs.Mask.{points, byte};
ghost use Rattle.filter.specs.Outside.{is_outside};
ghost use Rattle.filter.specs.Part.{part};

use cube::mask::Mask;
use cube::{POINTS, Point};

// 1 where the byte of the set is 1 and that of the table is `side`, else 0.
fn part_byte(point: u8, value: u8, side: u8) -> u8
    ensures { result ≡ byte (eqb point 1 && eqb value side) }
{
    u8::from(point == 1 && value == side)
}

// The mask of the points of `set` where `table` is `side`. A kernel for the crates above.
pub fn part_mask(set: &Mask, table: &Mask, side: u8) -> Mask
    ensures { points result ≡ part side set.now table.now }
{
    let mut mask = [0u8; POINTS];
    for a in 0..POINTS {
        mask[a] = part_byte(set[a], table[a], side);
    }
    mask
}

// Whether the point `a` is in `set` and outside `part`. A kernel for the crates above.
#[tactic(auto, using(crate::proofs::Outside::outside_marked))]
pub fn is_outside(set: &Mask, part: &Mask, a: Point) -> bool
    requires { a.0 < 512 }
    ensures { result ≡ is_outside (points set.now) (points part.now) a.0 }
{
    let i = a.0 as usize;
    set[i] == 1 && part[i] != 1
}
