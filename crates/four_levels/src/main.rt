// Prints the verdict on each set of four levels in a file, on a line of its own. In the file, a set and its limit are 18 bytes: the bit
// pattern of each level in four, then the limit in two, low byte first.
#![tactic(auto)]

use motorcycle::{JudgedMean, LevelRefusal};
use refusal::Numbered;
use std::fs::File;
use std::io;
use std::io::Read;

const SIZE: usize = 18;

// A line of a word and two numbers.
fn print_line(rt: &impl Print, word: &str, m: u64, n: u64) -> io::Result<()> {
    println!(rt; "{word} {m} {n}")
}

// The mean and 1 if it passes, 0 if not; or the number and the place of the refusal.
fn print_verdict(rt: &impl Print, verdict: Result<JudgedMean, LevelRefusal>) -> io::Result<()> {
    match verdict {
        Ok(judged) => print_line(rt, "OK", judged.mean.0 as u64, u64::from(judged.pass)),
        Err(refusal) => print_line(
            rt,
            "REFUSED",
            refusal.number() as u64,
            refusal.place() as u64,
        ),
    }
}

// The verdict on the set in these bytes.
fn verdict_in(bytes: &[u8; SIZE]) -> Result<JudgedMean, LevelRefusal> {
    let patterns = [
        units::number32(bytes, 0),
        units::number32(bytes, 4),
        units::number32(bytes, 8),
        units::number32(bytes, 12),
    ];
    let limit = units::number16(bytes, 16);
    motorcycle::judge(motorcycle::levels_of(&patterns), limit)
}

// Prints the verdict on each set. The turns are counted, since a proved loop ends and nothing says that a file does.
fn print_all(rt: &impl Print, file: &mut impl Read) -> io::Result<()> {
    for _ in 0..u32::MAX {
        let mut bytes = [0u8; SIZE];
        if file.read_exact(&mut bytes).is_err() {
            break;
        }
        print_verdict(rt, verdict_in(&bytes))?;
    }
    Ok(())
}

fn main(rt: HostRuntime) -> io::Result<()> {
    let path = "levels.bin";
    match File::open(&rt, path) {
        Ok(mut file) => print_all(&rt, &mut file),
        Err(error) => eprintln!(rt; "{path}: {error}"),
    }
}
