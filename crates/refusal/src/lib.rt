// What an operation refuses, and its number: docs/SPECIFICATION.md, 'Refusals'.
#![tactic(auto)]

ghost use Rattle.std.specs.Prelude.{◌≡◌};
ghost use Rattle.refusal.specs.Refusal.{number_of};

pub mod verdict; // verdict.rt: the verdict of a list of checks

#[derive(Clone, Copy, Debug, PartialEq, Eq)]
pub enum Refusal {
    // 1: a lent buffer has the wrong length.
    Length,
    // 2: the file ends before or inside a number.
    FileEnds,
    // 3: the second byte of a number has the top bit set or is 0.
    NumberForm,
    // 4: the number of taps is outside 1 to 9.
    Taps,
    // 5: a count over N, a difference of 0, or a point of N or more.
    Range,
    // 7: bytes remain after the file's last number.
    Surplus,
    // 8: a byte breaks the 0/1/0 rule.
    Bytes,
    // 9: the polynomial is zero.
    ZeroPolynomial,
    // 10: the degree is over n.
    Degree,
    // 11: the side is over 1.
    Side,
    // 12: the ranks of the set and of the part differ.
    RanksDiffer,
    // 13: the output is shorter than the file.
    ShortOutput,
    // 14: the wiring does not have n entries that name each tap once.
    Wiring,
}

// The number of a refusal.
impl From<Refusal> for u8 {
    ghost from_gives = { λ r k. k ≡ number_of r };

    fn from(r: Refusal) -> u8 {
        match r {
            Refusal::Length => 1,
            Refusal::FileEnds => 2,
            Refusal::NumberForm => 3,
            Refusal::Taps => 4,
            Refusal::Range => 5,
            Refusal::Surplus => 7,
            Refusal::Bytes => 8,
            Refusal::ZeroPolynomial => 9,
            Refusal::Degree => 10,
            Refusal::Side => 11,
            Refusal::RanksDiffer => 12,
            Refusal::ShortOutput => 13,
            Refusal::Wiring => 14,
        }
    }
}
