// Lists of points in a file: docs/SPECIFICATION.md, 'Filter file'. A list is its count, then the first point itself, then
// for each later point its difference from the one before. The functions write the list of a mask's points into a lent
// buffer, all other bytes of which stay; those that are `pub` are so for the crate of the file alone.
#![tactic(auto)]

ghost use Rattle.std.specs.Prelude.{◌+◌, ◌≤◌, length};
ghost use Rattle.buffer.specs.Appends.{Appends};
ghost use Rattle.cube.specs.Mask.{points};
ghost use Rattle.point_list.specs.PointList.{differences, encode_list};

use cube::mask::count;
use varint::append_varint;

// The list of a mask's points is written from place `at` on; the result is the place behind it.
pub fn append_list(output: &mut [u8], at: usize, mask: &[u8]) -> usize
    requires { (length mask.now ≤ 512) × (at + length (encode_list (points mask.now)) ≤ length output.old) }
    ensures { Appends (encode_list (points mask.now)) output.old output.new at result }
{
    let first = append_varint(output, at, count(mask));
    append_points(output, first, mask)
}

// The points of a mask are written from place `from` on: the first itself, each later one as its difference from the one
// before.
fn append_points(output: &mut [u8], from: usize, mask: &[u8]) -> usize
    requires { (length mask.now ≤ 512) × (from + length (differences 0 (points mask.now)) ≤ length output.old) }
    ensures { Appends (differences 0 (points mask.now)) output.old output.new from result }
{
    let mut at = from;
    let mut prev = 0;
    for (i, &byte) in mask.iter().enumerate() {
        if byte == 1 {
            at = append_varint(output, at, i - prev);
            prev = i;
        }
    }
    at
}
