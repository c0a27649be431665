// Write: docs/SPECIFICATION.md, 'Write'. The filter file of n, a set and a table is written to the front of a lent output.
ghost use Rattle.std.specs.Prelude.{◌≡◌, length};
ghost use Rattle.refusal.specs.Verdict.{verdict};
ghost use Rattle.filter_file.specs.Write.{write_inputs, write_outcome, WriteContract};

use buffer::append;
use filter::checks::{check_filter_lengths, check_filter_masks, check_taps};
use point_list::append_list;
use refusal::Refusal;
use refusal::verdict::require;
use varint::append_varint;

// No file is longer, in bytes.
const FILE_MAX: usize = 2053;

// Writes the filter file of `n`, the set and the table: the answer is its length, the first bytes of the output are the
// file, and the rest stays as it was. The file is made in an array of its own, so that its length is known before the first
// byte of the output is written; an output that is shorter is refused.
pub fn write(set: &[u8], table: &[u8], n: usize, output: &mut [u8]) -> Result<usize, Refusal>
    ensures { WriteContract (write_outcome set.now table.now n (length output.old)) result
        output.old output.new }
{
    write_checks(set, table, n)?;
    let mut file = [0u8; FILE_MAX];
    let set_at = append_varint(&mut file, 0, n);
    let table_at = append_list(&mut file, set_at, set);
    let length = append_list(&mut file, table_at, table);
    require(length <= output.len(), Refusal::ShortOutput)?;
    Ok(append(output, 0, &file[..length]))
}

// The checks of the set, the table and `n`: lengths, the taps, the bytes of the set and of the table.
fn write_checks(set: &[u8], table: &[u8], n: usize) -> Result<(), Refusal>
    ensures { result ≡ verdict (write_inputs set.now table.now n) }
{
    check_filter_lengths(set, table)?;
    check_taps(n)?;
    check_filter_masks(set, table, n)
}
