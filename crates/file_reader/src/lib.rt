// The reader of filter files: docs/SPECIFICATION.md, 'Filter file'. One reader walks a file from its first byte and draws
// its numbers: n, the list of the points of S and the list of the points where f is 1. What is `pub` is so for the crate of
// the file alone.
#![tactic(auto)]

pub mod reader; // reader.rt: the one reader, which draws them all
