// Prints what is known after the cars of each list in a file, on a line of its own. In the file, a list is its limit, the number of its
// cars and then the L_urban of each, in two bytes each, low byte first.
#![tactic(auto)]

use production::{AfterVerdict, Check, Status};
use refusal::Numbered;
use std::fs::File;
use std::io;
use std::io::Read;

fn word_of(status: Status) -> &'static str {
    match status {
        Status::Open => "OPEN",
        Status::Conforms => "CONFORMS",
        Status::DoesNotConform => "DOES-NOT-CONFORM",
    }
}

// The status and the number of cars still wanted.
fn print_check(rt: &impl Print, check: Check) -> io::Result<()> {
    print!(rt; "{} {}", word_of(check.status()), check.wanted())
}

// The number and the place of the refusal of a list's last car, where it is refused.
fn print_refusal(rt: &impl Print, reply: Result<(), AfterVerdict>) -> io::Result<()> {
    if let Err(refusal) = reply {
        print!(rt; " REFUSED {} {}", refusal.number(), refusal.place())?;
    }
    Ok(())
}

// Offers the next cars of the file, each to the check that the one before it gave back, and prints what is known after the last. A list that
// the file cuts short has no line.
fn print_after(rt: &impl Print, file: &mut impl Read, limit: u16, count: u16) -> io::Result<()> {
    let mut check = Check::start(limit);
    let mut reply = Ok(());
    for _ in 0..count {
        let mut bytes = [0u8; 2];
        if file.read_exact(&mut bytes).is_err() {
            return Ok(());
        }
        let offered = check.offer(units::number16(&bytes, 0));
        check = offered.check;
        reply = offered.reply;
    }
    print_check(rt, check)?;
    print_refusal(rt, reply)?;
    println!(rt)
}

// Prints the line of each list. The turns are counted, since a proved loop ends and nothing says that a file does.
fn print_all(rt: &impl Print, file: &mut impl Read) -> io::Result<()> {
    for _ in 0..u32::MAX {
        let mut bytes = [0u8; 4];
        if file.read_exact(&mut bytes).is_err() {
            break;
        }
        print_after(
            rt,
            file,
            units::number16(&bytes, 0),
            units::number16(&bytes, 2),
        )?;
    }
    Ok(())
}

fn main(rt: HostRuntime) -> io::Result<()> {
    let path = "lists.bin";
    match File::open(&rt, path) {
        Ok(mut file) => print_all(&rt, &mut file),
        Err(error) => eprintln!(rt; "{path}: {error}"),
    }
}
