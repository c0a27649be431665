// Varints (LEB128) of one or two groups of seven bits, in the shortest form. The contract of the work calls them house
// numbers: docs/SPECIFICATION.md, 'Terms' and 'Filter file'.
#![tactic(auto)]

ghost use Rattle.std.specs.Prelude.{◌≡◌, ◌+◌, ◌≤◌, ◌<◌, [], ◌∷◌, length, drop, IfOk, IfErr};
ghost use Rattle.buffer.specs.Appends.{Appends};
ghost use Rattle.refusal.specs.declared.Refusal.TheVariants.{FileEnds};
ghost use Rattle.varint.specs.Varint.{varint, encode_varint, outcome_of};

use buffer::append;
use refusal::Refusal;

// A number of a file, and the place after it.
#[derive(Clone, Copy, Debug, PartialEq, Eq)]
pub struct Varint {
    pub value: usize,
    pub next: usize,
}

// The byte at the place `at` of a file, unless the file ends before it.
fn byte_at(file: &[u8], at: usize) -> Result<u8, Refusal>
    ensures byte { IfOk result (λ x. drop at file.now ≡ x ∷ drop (at + 1) file.now) }
    ensures end { IfErr result (λ r. (drop at file.now ≡ []) × (r ≡ FileEnds)) }
{
    file.get(at).copied().ok_or(Refusal::FileEnds)
}

// The number at the place `at` of a file, or why there is none.
#[tactic(auto, using(crate::proofs::Groups::by_groups))]
pub fn varint_at(file: &[u8], at: usize) -> Result<Varint, Refusal>
    ensures { outcome_of file.now result ≡ varint (drop at file.now) }
{
    let first = usize::from(byte_at(file, at)?);
    if first < 128 {
        return Ok(Varint {
            value: first,
            next: at + 1,
        });
    }
    let second = usize::from(byte_at(file, at + 1)?);
    if second < 1 || second > 127 {
        return Err(Refusal::NumberForm);
    }
    Ok(Varint {
        value: first - 128 + 128 * second,
        next: at + 2,
    })
}

// A number below 2 to the power 14 is written from place `at` on; the result is the place behind it. It is `pub` for the
// crates that write lists and files.
#[tactic(auto, using(crate::proofs::Varints::varint_short, crate::proofs::Varints::varint_long))]
pub fn append_varint(output: &mut [u8], at: usize, value: usize) -> usize
    requires { (value < 16384) × (at + length (encode_varint value) ≤ length output.old) }
    ensures { Appends (encode_varint value) output.old output.new at result }
{
    if value < 128 {
        return append(output, at, &[value as u8]);
    }
    append(
        output,
        at,
        &[(128 + value % 128) as u8, (value / 128) as u8],
    )
}
