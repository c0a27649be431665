// The printed sheet as text in a lent buffer: docs/SPECIFICATION.md, 'Sheet'.
#![tactic(auto)]

pub mod sheet; // sheet.rt: the sheet of a file

pub use sheet_lines::room; // sheet_lines/src/room.rt: room in the sheet
