// Text in a lent buffer: numbers and fields are written from a place on, and all other bytes stay. The result of
// each function is the place behind what it wrote. The functions are `pub` for the crates of the sheet alone:
// docs/SPECIFICATION.md, 'Sheet'.
#![tactic(auto)]

ghost use Rattle.std.specs.Prelude.{◌++◌, ◌+◌, ◌*◌, ◌≤◌, ◌<◌, length};
ghost use Rattle.buffer.specs.Appends.{Appends};
ghost use Rattle.text.specs.Room.{digits_room, field_room, small_digits_room, small_field_room, newline_room};
ghost use Rattle.text.specs.Text.{newline, decimal, field};

use buffer::append;

// The room of the digits of a number of 64 bits: the most bytes that they take.
pub const DIGITS: usize = 20;

// The room of a space and such digits.
pub const FIELD: usize = 1 + DIGITS;

// The room of the digits of a number below 1,000.
pub const SMALL_DIGITS: usize = 3;

// The room of a space and such digits.
pub const SMALL_FIELD: usize = 1 + SMALL_DIGITS;

// The room of the end of a line.
pub const NEWLINE: usize = 1;

// The end of a line is written.
pub fn end_line(text: &mut [u8], at: usize) -> usize
    requires { at + newline_room ≤ length text.old }
    ensures { Appends newline text.old text.new at result }
{
    text[at] = b'\n';
    at + 1
}

// The decimal digits of `m` are written, at most three for a number below 1,000.
pub fn append_decimal(text: &mut [u8], at: usize, m: u64) -> usize
    requires { at + digits_room ≤ length text.old }
    ensures appends { Appends (decimal m) text.old text.new at result }
    ensures upper_bound { (result ≤ at + digits_room) × (m < 1000 → result ≤ at + small_digits_room) }
{
    let mut digits = [0u8; DIGITS];
    let k = io::decimal(m, &mut digits);
    append(text, at, &digits[..k])
}

// A space and the decimal digits of `m` are written.
pub fn append_field(text: &mut [u8], at: usize, m: u64) -> usize
    requires { at + field_room ≤ length text.old }
    ensures appends { Appends (field m) text.old text.new at result }
    ensures upper_bound { (result ≤ at + field_room) × (m < 1000 → result ≤ at + small_field_room) }
{
    let digits = append(text, at, b" ");
    append_decimal(text, digits, m)
}

// A word, and a number after a space, are written.
pub fn append_labelled(text: &mut [u8], at: usize, label: &[u8], m: u64) -> usize
    requires { at + length label.now + field_room ≤ length text.old }
    ensures appends { Appends (label.now ++ field m) text.old text.new at result }
    ensures upper_bound { result ≤ at + length label.now + field_room }
{
    let number = append(text, at, label);
    append_field(text, number, m)
}

// Two words, each with a number after a space, and a third word are written.
pub fn append_heading(
    text: &mut [u8],
    at: usize,
    first: &[u8],
    x: u64,
    second: &[u8],
    y: u64,
    third: &[u8],
) -> usize
    requires { at + length first.now + length second.now + length third.now + 2 * field_room ≤ length text.old }
    ensures appends { Appends ((first.now ++ field x) ++ (second.now ++ field y) ++ third.now) text.old text.new at result }
    ensures upper_bound { result ≤ at + length first.now + length second.now + length third.now + 2 * field_room }
{
    let of_second = append_labelled(text, at, first, x);
    let of_third = append_labelled(text, of_second, second, y);
    append(text, of_third, third)
}
