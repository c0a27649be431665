// The columns of a degree: the exponents of n taps that weigh at most as much, in an order of the exponents.
ghost use Rattle.std.specs.Prelude.{◌≡◌, ◌&&◌, ◌≤◌, ltb, leb, length};
ghost use Rattle.cube.specs.Cube.{weight as weight_of};
ghost use Rattle.order.specs.Order.{columns};

use crate::{Order, exponent_at};
use cube::{Exponent, POINTS, size, weight};

// Whether the exponent `u` is below `points`, the number of points and of exponents, and weighs at most `d`.
pub fn is_column(u: Exponent, points: usize, d: u16) -> bool
    ensures { result ≡ (ltb u.0 points && leb (weight_of u.0) d) }
{
    (u.0 as usize) < points && weight(u) <= d
}

// The number of columns of `n` taps at degree `d`. A kernel for the crates above. The loop is compiled to wide instructions,
// and a filter that is counted is not: docs/PERFORMANCE.md, 'The look back'.
pub fn column_count(order: &Order, n: usize, d: u16) -> usize
    requires { n ≤ 9 }
    ensures { result ≡ length (columns order.now.list n d) }
{
    let points = size(n);
    let mut count: usize = 0;
    for i in 0..POINTS {
        if is_column(exponent_at(&order.list, i), points, d) {
            count += 1;
        }
    }
    count
}
