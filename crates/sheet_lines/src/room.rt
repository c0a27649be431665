// Room in the sheet, as specs/Room.antt sums it: the most bytes that each part of the text takes.
use cube::POINTS;
use text::{DIGITS, FIELD, NEWLINE, SMALL_FIELD};

// A small field for each of the 512 exponents or points.
pub const CHOSEN: usize = POINTS * SMALL_FIELD;

// The word `refused` and its number.
pub const REFUSED_LINE: usize = 7 + FIELD + NEWLINE;

// The words `n`, ` points` and ` mark`, each with its number.
pub const FIRST_LINE: usize = 1 + FIELD + 7 + FIELD + 5 + FIELD + NEWLINE;

// A degree and three ranks.
pub const RANK_LINE: usize = DIGITS + 3 * FIELD + NEWLINE;

// The degrees 0 to 9.
pub const RANK_LINES: usize = 10 * RANK_LINE;

// The words `degree` and ` side`, each with its number, the word ` witness` and its exponents.
pub const DEGREE_LINE: usize = 6 + FIELD + 5 + FIELD + 8 + CHOSEN + NEWLINE;

// The word `sides` and two degrees; ` none` takes less than a field.
pub const SIDES_LINE: usize = 5 + 2 * FIELD + NEWLINE;

// The words `side` and ` point`, each with its number, the word ` sum` and its points.
pub const SUM_LINE: usize = 4 + FIELD + 6 + FIELD + 4 + CHOSEN + NEWLINE;

// One for each point.
pub const SIDE_SUMS: usize = POINTS * SUM_LINE;

// Those of both sides.
pub const SUMS: usize = 2 * SIDE_SUMS;

// The word `additions` and its number.
pub const ADDITIONS_LINE: usize = 9 + FIELD + NEWLINE;

// The whole text: the lines in their order.
pub const TEXT: usize = FIRST_LINE + RANK_LINES + DEGREE_LINE + SIDES_LINE + SUMS + ADDITIONS_LINE;
