// Each argument names a filter file. The program writes the name of each and its sheet, one after the other.
#![tactic(auto)]

use sheet_text::room::TEXT;
use sheet_text::sheet::sheet;
use std::fs::File;
use std::io::{Read, Write};
use std::{env, io};

const READ_AT_MOST: u64 = 4096;

// The name, and the sheet of the first 4,096 bytes of the input.
fn print_case(
    rt: &(impl Print + AllocGlobal),
    name: &str,
    input: impl Read + Drop,
) -> io::Result<()> {
    let mut file = Vec::new(rt.alloc());
    input.take(READ_AT_MOST).read_to_end(&mut file)?;
    let mut text = [0u8; TEXT];
    let length = sheet(&file, &mut text);
    println!(rt; "{name}")?;
    io::writer(rt).write_all(&text[..length])
}

// What an error says, without its number.
fn reason(said: &str) -> &str {
    match said.split_once(" (os error ") {
        Some((text, _)) => text,
        None => said,
    }
}

// Every case, in the order of the arguments. A file that can't be opened is named on standard error with the reason, and
// the cases behind it follow.
fn main(rt: HostRuntime) -> io::Result<()> {
    for name in env::args(&rt)?.skip(1) {
        match File::open(&rt, &name) {
            Ok(input) => print_case(&rt, name.as_str(), input)?,
            Err(e) => {
                let said = format!(in rt.alloc(); "{e}")?;
                let why = reason(said.as_str());
                eprintln!(rt; "{name}: {why}")?;
            }
        }
    }
    Ok(())
}
