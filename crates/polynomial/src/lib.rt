// Polynomials in up to nine taps and their algebraic normal form: docs/SPECIFICATION.md, 'Normal form'.
#![tactic(auto)]

pub mod convert; // convert.rt: Convert, from a table to its coefficients and back
pub mod degree; // degree.rt: Degree, the largest weight of an exponent
