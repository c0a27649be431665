// What a filter is: a number of taps, a set of points and a table. The checks that operations share, and the parts:
// docs/SPECIFICATION.md, 'Words' and 'Outcomes'.
#![tactic(auto)]

pub mod checks; // checks.rt: the checks that operations share
pub mod part; // part.rt: the parts of a set, and what lies outside them
