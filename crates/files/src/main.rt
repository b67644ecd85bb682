// Does the evaluation program's job on each file of data/, opened by name, and on files that cannot be read or written. It prints the file's
// name before its line, or what became of the job. `data/contents.txt` says what each file holds.
#![tactic(auto)]

ghost use Rattle.std.specs.Str.{IsAscii};

use program::Failure;
use std::fs::{File, OpenOptions};
use std::io;
use std::io::{Read, Write};
use std::rt::Files;

const FILES: u8 = 43;

// Open for writing alone it cannot be read, and open for reading alone it cannot be written: the system refuses both with the error of a closed
// descriptor.
const DEVICE: &str = "/dev/null";

// The job on two streams; prints what became of it where no line is printed.
fn run<R: Read, W: Write>(rt: &impl Print, input: &mut R, output: &mut W) -> io::Result<()> {
    let mut sheet = [0u8; program::SHEET_ROOM];
    let mut line = [0u8; program::LINE_ROOM];
    match program::run(input, output, &mut sheet, &mut line) {
        Ok(_) => Ok(()),
        Err(Failure::NotRead { .. }) => println!(rt; "NOT READ"),
        Err(Failure::NotWritten { .. }) => println!(rt; "NOT WRITTEN"),
    }
}

fn run_file<W: Write>(
    rt: &(impl Files + Print + Eprint),
    name: &str,
    output: &mut W,
) -> io::Result<()> {
    print!(rt; "{name} ")?;
    match File::open(rt, name) {
        Ok(mut file) => run(rt, &mut file, output),
        Err(error) => eprintln!(rt; "{name}: {error}"),
    }
}

// The name of file n: its number in two digits.
fn name_of(n: u8) -> [u8; 2]
    ensures { IsAscii result }
{
    [b'0' + n / 10, b'0' + n % 10]
}

fn run_number(rt: &(impl Files + Print + Eprint), n: u8) -> io::Result<()> {
    let name = name_of(n);
    run_file(rt, str::from_utf8(&name).unwrap(), &mut io::writer(rt))
}

fn run_all(rt: &(impl Files + Print + Eprint)) -> io::Result<()> {
    for n in 0..FILES {
        run_number(rt, n)?;
    }
    Ok(())
}

fn main(rt: HostRuntime) -> io::Result<()> {
    run_all(&rt)?;
    print!(rt; "directory ")?;
    run_file(&rt, ".", &mut io::writer(&rt))?;
    print!(rt; "closed input ")?;
    let mut unread = OpenOptions::new().write(true).open(&rt, DEVICE)?;
    run(&rt, &mut unread, &mut io::writer(&rt))?;
    print!(rt; "closed output ")?;
    run_file(&rt, "25", &mut File::open(&rt, DEVICE)?)
}
