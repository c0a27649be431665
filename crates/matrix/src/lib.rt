// The matrix of points against monomials up to a degree, and its rank: docs/SPECIFICATION.md, 'Elimination' and 'Rank'.
// In the workspace the kept rows are the first.
#![tactic(auto)]

pub mod elimination; // elimination.rt: the points of a mask are taken in rising number
pub mod tally; // tally.rt: the same at every number of columns at once
pub mod combination; // combination.rt: the same, with the points whose rows sum to a row
pub mod kept; // kept.rt: the kept points as a mask
pub mod rank; // rank.rt: Rank
