// Degree: docs/SPECIFICATION.md, 'Degree'. The largest weight of an exponent with coefficient 1.
ghost use Rattle.std.specs.Prelude.{◌≡◌, length};
ghost use Rattle.cube.specs.NumberLists.{largest};
ghost use Rattle.cube.specs.Cube.{weight as weight_of};
ghost use Rattle.refusal.specs.Verdict.{verdict};
ghost use Rattle.polynomial.specs.Degree.{exponents, degree_checks, DegreeContract};

use crate::convert::convert_checks;
use cube::mask::is_empty;
use cube::{Exponent, weight};
use refusal::Refusal;
use refusal::verdict::require;

// The largest weight of an exponent with coefficient 1; 0 where there is none.
fn largest_weight(coefficients: &[u8]) -> u16
    requires { length coefficients.now ≡ 512 }
    ensures { result ≡ largest weight_of (exponents coefficients.now) }
{
    let mut most: u16 = 0;
    for (u, coefficient) in coefficients.iter().enumerate() {
        if *coefficient == 1 {
            most = most.max(weight(Exponent(u as u16)));
        }
    }
    most
}

// The degree of the polynomial of `n` taps with these coefficients.
pub fn degree(coefficients: &[u8], n: usize) -> Result<u16, Refusal>
    ensures { DegreeContract n coefficients.now result }
{
    degree_checks(coefficients, n)?;
    Ok(largest_weight(coefficients))
}

// The checks of Convert, and then that some coefficient is 1.
fn degree_checks(coefficients: &[u8], n: usize) -> Result<(), Refusal>
    ensures { result ≡ verdict (degree_checks n coefficients.now) }
{
    convert_checks(coefficients, n)?;
    require(!is_empty(coefficients), Refusal::ZeroPolynomial)
}
