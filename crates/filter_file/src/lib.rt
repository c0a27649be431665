// The filter file: docs/SPECIFICATION.md, 'Filter file', 'Read' and 'Write'.
// A file is n, the list of the points of S and the list of the points where f is 1, each made of varints.
#![tactic(auto)]

pub mod read; // read.rt: Read
pub mod write; // write.rt: Write
