// One row of 512 columns, in the workspace or outside it. Kernels for the crates above.
ghost use Rattle.std.specs.Prelude.{◌≡◌, true, false, ◌%◌, ◌^◌, ◌<◌, set, MatchOption};
ghost use Rattle.gf2.specs.Vector.{entry as entry_of, add as add_of, dot as dot_of};
ghost use Rattle.gf2.specs.Elimination.{pivot as pivot_of, is_zero as is_zero_of};
ghost use Rattle.gf2.specs.Cut.{cut as cut_of, common as common_of};
ghost use Rattle.gf2.specs.Solve.{flip};
ghost use Rattle.packed.specs.Packed.{unpack};

use crate::{Row, WORD_BITS};
use std::array;

// The entry of the row at column `c`.
pub fn entry(row: &Row, c: usize) -> bool
    requires { c < 512 }
    ensures { result ≡ entry_of (unpack row.now) c }
{
    (row[c / WORD_BITS] >> (c % WORD_BITS)) % 2 == 1
}

// The entry of the row at column `c` becomes a one.
pub fn set_entry(row: &mut Row, c: usize)
    requires { c < 512 }
    ensures { unpack row.new ≡ set (unpack row.old) c true }
{
    row[c / WORD_BITS] |= 1u64 << (c % WORD_BITS);
}

// Column `c` of the row is changed.
pub fn flip_column(row: &mut Row, c: usize)
    requires { c < 512 }
    ensures { unpack row.new ≡ flip true (unpack row.old) c }
{
    row[c / WORD_BITS] ^= 1u64 << (c % WORD_BITS);
}

// The first column of the row with a one; none where the row is zero.
pub fn pivot(row: &Row) -> Option<usize>
    ensures { MatchOption result (is_zero_of (unpack row.now) ≡ true) (λ c. (c ≡ pivot_of (unpack row.now)) × (c < 512) × (is_zero_of (unpack row.now) ≡ false)) }
{
    let k = row.iter().position(|&word| word != 0)?;
    Some(k * WORD_BITS + row[k].trailing_zeros() as usize)
}

// The sum of two rows.
pub fn add(x: &Row, y: &Row) -> Row
    ensures { unpack result ≡ add_of (unpack x.now) (unpack y.now) }
{
    array::from_fn(|k| x[k] ^ y[k])
}

// The common ones of two rows.
pub fn common(x: &Row, y: &Row) -> Row
    ensures { unpack result ≡ common_of (unpack x.now) (unpack y.now) }
{
    array::from_fn(|k| x[k] & y[k])
}

// The `columns` lowest bits of `w`, with zeros above them.
fn cut_word(w: u64, columns: usize) -> u64
    ensures { result ≡ w % 2 ^ columns }
{
    if columns < WORD_BITS {
        return w % (1u64 << columns);
    }
    w
}

// The row with zeros from column `columns` on.
pub fn cut(row: &Row, columns: usize) -> Row
    ensures { unpack result ≡ cut_of columns (unpack row.now) }
{
    array::from_fn(|k| cut_word(row[k], columns.saturating_sub(k * WORD_BITS)))
}

// Whether two rows have an odd number of common ones.
pub fn dot(x: &Row, y: &Row) -> bool
    ensures { result ≡ dot_of (unpack x.now) (unpack y.now) }
{
    let count: u32 = x.iter().zip(y).map(|(a, b)| (a & b).count_ones()).sum();
    count % 2 == 1
}

// Whether no column has a one in both rows.
pub fn disjoint(x: &Row, y: &Row) -> bool
    ensures { result ≡ is_zero_of (common_of (unpack x.now) (unpack y.now)) }
{
    x.iter().zip(y).all(|(a, b)| a & b == 0)
}

// Whether no column has a one: the row has then none in common with itself.
pub fn is_zero(x: &Row) -> bool
    ensures { result ≡ is_zero_of (unpack x.now) }
{
    disjoint(x, x)
}
