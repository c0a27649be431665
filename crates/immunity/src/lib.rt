// Restricted algebraic immunity: definitions and laws, the type that they share with the code, and a length.
// docs/SPECIFICATION.md, 'Words', 'Judge', 'Witness', 'Certificate' and 'Check'.
#![tactic(auto)]

// The numbers of a certificate: a row of eight for each of 512 points.
pub const CERTIFICATE: usize = 4096;

// The ranks of the set, of part 1 and of part 0 at one degree.
#[derive(Clone, Copy, Debug, PartialEq, Eq)]
pub struct Ranks {
    pub set: u16,
    pub one: u16,
    pub zero: u16,
}
