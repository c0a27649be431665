// Convert: docs/SPECIFICATION.md, 'Convert'. A table becomes the coefficients of its algebraic normal form, and
// coefficients become the table.
ghost use Rattle.std.specs.Prelude.{◌≡◌, ◌+◌, length};
ghost use Rattle.cube.specs.Cube.{size as size_of};
ghost use Rattle.cube.specs.Mask.{member};
ghost use Rattle.refusal.specs.Verdict.{verdict};
ghost use Rattle.polynomial.specs.Convert.{Bits, values, lower_added, convert_checks, ConvertContract};

use cube::{POINTS, size};
use filter::checks::{check_length, check_mask, check_taps};
use refusal::Refusal;

// Adds the lower half of `s`, of `h` bytes, into the upper.
fn add_lower(s: &mut [u8], h: usize)
    requires { length s.old ≡ h + h }
    ensures { s.new ≡ lower_added h s.old }
{
    for i in 0..h {
        s[h + i] = s[i] ^ s[h + i];
    }
}

// Each byte becomes the sum modulo 2 of the bytes at the exponents within its place: by the halves on the highest
// variable.
fn transform(s: &mut [u8], n: usize)
    requires { (length s.old ≡ size_of n) × Bits s.old }
    ensures { s.new ≡ values n (member s.old) }
{
    if n == 0 {
        return;
    }
    let h = s.len() / 2;
    transform(&mut s[..h], n - 1);
    transform(&mut s[h..], n - 1);
    add_lower(s, h);
}

// Converts the first N bytes of `bytes`, a table or coefficients of `n` taps, into the other.
pub fn convert(bytes: &mut [u8], n: usize) -> Result<(), Refusal>
    ensures { ConvertContract n bytes.old bytes.new result }
{
    convert_checks(bytes, n)?;
    let points = size(n);
    transform(&mut bytes[..points], n);
    Ok(())
}

// The checks: the length, the taps, the bytes.
pub fn convert_checks(bytes: &[u8], n: usize) -> Result<(), Refusal>
    ensures { result ≡ verdict (convert_checks n bytes.now) }
{
    check_length(bytes.len(), POINTS)?;
    check_taps(n)?;
    check_mask(bytes, n)
}
