// Prints the line of each sheet of the driven examples, and then of each of the corpus. In a file, a sheet stands after its length in
// four bytes, low byte first; the length 0xffffffff ends the file.
#![tactic(auto)]

ghost use Rattle.std.specs.Prelude.{◌≤◌, IfSome};

use std::fs::File;
use std::io;
use std::io::Read;
use std::rt::Files;

// Room for the longest sheet of the file; some are over the limit of a sheet.
const LONGEST: usize = 65536;

// The next length, or none where the file ends.
fn read_length(file: &mut impl Read) -> Option<usize>
    ensures { IfSome result (λ length. length ≤ LONGEST) }
{
    let mut four = [0u8; 4];
    file.read_exact(&mut four).ok()?;
    let length = u32::from_le_bytes(four) as usize;
    (length <= LONGEST).then_some(length)
}

// Prints the line of a sheet.
fn print_line(rt: &impl Print, sheet: &[u8]) -> io::Result<()> {
    let mut line = [0u8; program::LINE_ROOM];
    program::print_line(sheet, &mut line, &mut io::writer(rt))?;
    Ok(())
}

// Prints the line of the next sheet; answers whether there was one.
fn print_next(rt: &impl Print, file: &mut impl Read) -> io::Result<bool> {
    let Some(length) = read_length(file) else {
        return Ok(false);
    };
    let mut sheet = [0u8; LONGEST];
    if file.read_exact(&mut sheet[..length]).is_err() {
        return Ok(false);
    }
    print_line(rt, &sheet[..length])?;
    Ok(true)
}

// The turns are counted, since a proved loop ends and nothing says that a file does.
fn print_all(rt: &impl Print, file: &mut impl Read) -> io::Result<()> {
    for _ in 0..u32::MAX {
        if !print_next(rt, file)? {
            break;
        }
    }
    Ok(())
}

// Prints the line of each sheet of a file. A file that ends early gives fewer lines.
fn print_sheets(rt: &(impl Files + Print + Eprint), path: &str) -> io::Result<()> {
    match File::open(rt, path) {
        Ok(mut file) => print_all(rt, &mut file),
        Err(error) => eprintln!(rt; "{path}: {error}"),
    }
}

fn main(rt: HostRuntime) -> io::Result<()> {
    print_sheets(&rt, "examples.bin")?;
    print_sheets(&rt, "sheets.bin")
}
