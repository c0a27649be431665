// Bytes in a lent buffer: they are written from a place on, and all other bytes stay. The result of a function that writes
// is the place behind what it wrote. `append` is `pub` for the crates that write texts and files, or copy into lent
// buffers.
#![tactic(auto)]

ghost use Rattle.std.specs.Prelude.{◌+◌, ◌≤◌, length};
ghost use Rattle.buffer.specs.Appends.{Appends};

// The bytes are written from place `at` on, one by one: of `copy_from_slice` between two lent slices the archive for C would
// call `memmove`, and it calls `memcpy` and `memset` alone.
pub fn append(buffer: &mut [u8], at: usize, bytes: &[u8]) -> usize
    requires { at + length bytes.now ≤ length buffer.old }
    ensures { Appends bytes.now buffer.old buffer.new at result }
{
    for i in 0..bytes.len() {
        buffer[at + i] = bytes[i];
    }
    at + bytes.len()
}
