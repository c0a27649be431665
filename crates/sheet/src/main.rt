// The sheet program: docs/SPECIFICATION.md, 'Sheet'. It reads at most 4,096 bytes of standard input, and writes their
// sheet.
#![tactic(auto)]

ghost use Rattle.std.specs.Prelude.{◌≤◌, length, IfOk};

use sheet_text::room::TEXT;
use sheet_text::sheet::sheet;
use std::io;
use std::io::{Read, Write};

const READ_AT_MOST: usize = 4096;

// Reads until the buffer is full or the input ends: how many bytes are read. The library reads so only into memory that it
// asks for, and the program asks for none.
fn read_full(input: &mut impl Read, buffer: &mut [u8]) -> io::Result<usize>
    ensures { IfOk result (λ n. n ≤ length buffer.new) }
{
    let mut done: usize = 0;
    while done < buffer.len() {
        let n = input.read(&mut buffer[done..])?;
        if n == 0 {
            break;
        }
        done += n;
    }
    Ok(done)
}

fn main(rt: HostRuntime) -> io::Result<()> {
    let mut file = [0u8; READ_AT_MOST];
    let n = read_full(&mut rt.stdin(), &mut file)?;
    let mut text = [0u8; TEXT];
    let length = sheet(&file[..n], &mut text);
    rt.stdout().write_all(&text[..length])
}
