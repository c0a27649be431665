// The lines of the printed sheet, as text in a lent buffer, and the room that they take: docs/SPECIFICATION.md, 'Sheet'.
#![tactic(auto)]

pub mod lines; // lines.rt: the lines of the sheet
pub mod room; // room.rt: room in the sheet
