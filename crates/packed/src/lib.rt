// Rows packed into a lent workspace, and what an elimination does with them: docs/SPECIFICATION.md, 'Elimination'; and
// single rows outside it. The rows are any rows. The functions that other crates use are kernels for the crates above.
#![tactic(auto)]

pub mod row; // row.rt: one row
pub mod workspace; // workspace.rt: the rows of the workspace
pub mod basis; // basis.rt: the kept rows, a basis of the span of the rows taken
pub mod solve; // solve.rt: back substitution, a row with given parities against the kept rows

// The bits of a number of the workspace.
pub const WORD_BITS: usize = 64;

// The numbers of a row.
pub const ROW_WORDS: usize = 8;

// The columns of a row, and the most rows that a basis has.
pub const COLUMNS: usize = 512;

// The rows of the workspace.
pub const ROWS: usize = 1024;

// The numbers of the workspace.
pub const WORKSPACE: usize = 8192;

// A row of 512 columns: bit c % 64, from the lowest, of number c / 64 is its column c.
pub type Row = [u64; ROW_WORDS];

// The workspace, row by row.
pub type Rows = [Row; ROWS];
