// Prints the test mass of each lorry in a file, on a line of its own. In the file, a lorry is six numbers in two bytes each, low byte first: 2 if it
// has two axles, else 3; the power in tenths of kW; the front load, the rear load and the rear axle's maximum in kg, of the lorry or its stand-in; its
// own unladen mass in kg, which is not read for two axles.
#![tactic(auto)]

use lorry::{Masses, RearOverloaded, TwoAxles};
use refusal::Numbered;
use std::fs::File;
use std::io;
use std::io::Read;

const SIZE: usize = 12;

// The four masses in ten-thousandths of a kg, or the number and the place of the refusal.
fn print_loading(rt: &impl Print, loading: Result<Masses, RearOverloaded>) -> io::Result<()> {
    match loading {
        Ok(given) => {
            let mass = given.mass.0;
            let load = given.load.0;
            let lowest = given.lowest.0;
            let highest = given.highest.0;
            println!(rt; "OK {mass} {load} {lowest} {highest}")
        }
        Err(refusal) => println!(rt; "REFUSED {} {}", refusal.number(), refusal.place()),
    }
}

// The test mass of the lorry in these bytes.
fn loading_in(bytes: &[u8; SIZE]) -> Result<Masses, RearOverloaded> {
    let two_axles = TwoAxles {
        power: units::number16(bytes, 2),
        front: units::number16(bytes, 4),
        rear: units::number16(bytes, 6),
        rear_max: units::number16(bytes, 8),
    };
    if units::number16(bytes, 0) == 2 {
        return lorry::two_axles(two_axles);
    }
    lorry::more_axles(two_axles, units::number16(bytes, 10))
}

// Prints the line of each lorry. The turns are counted, since a proved loop ends and nothing says that a file does.
fn print_all(rt: &impl Print, file: &mut impl Read) -> io::Result<()> {
    for _ in 0..u32::MAX {
        let mut bytes = [0u8; SIZE];
        if file.read_exact(&mut bytes).is_err() {
            break;
        }
        print_loading(rt, loading_in(&bytes))?;
    }
    Ok(())
}

fn main(rt: HostRuntime) -> io::Result<()> {
    let path = "lorries.bin";
    match File::open(&rt, path) {
        Ok(mut file) => print_all(&rt, &mut file),
        Err(error) => eprintln!(rt; "{path}: {error}"),
    }
}
