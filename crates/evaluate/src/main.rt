// Evaluates the sheet on standard input and prints its line on standard output. What keeps it from that goes to standard error.
#![tactic(auto)]

use program::Failure;
use std::env::{Env, FillError};
use std::io;
use std::io::{Eprint, Input, Print};

// What failed and why. If standard error cannot be written either, there is nowhere left to say so.
fn report(rt: &impl Eprint, what: &str, error: io::Error) {
    let _ = eprintln!(rt; "{what}: {error}");
}

fn evaluate_input(rt: &(impl Input + Print + Eprint)) {
    let mut sheet = [0u8; program::SHEET_ROOM];
    let mut line = [0u8; program::LINE_ROOM];
    let mut input = rt.reader();
    let mut output = io::writer(rt);
    match program::run(&mut input, &mut output, &mut sheet, &mut line) {
        Ok(_) => {}
        Err(Failure::NotRead { error }) => report(rt, "read", error),
        Err(Failure::NotWritten { error, .. }) => report(rt, "write", error),
    }
}

// Whether there is a word on the command line. The first argument is the program's own name.
fn has_word(rt: &impl Env) -> bool {
    let mut start = [0u8; 1];
    !matches!(rt.arg(1, &mut start), Err(FillError::NotPresent))
}

fn main(rt: HostRuntime) {
    if has_word(&rt) {
        let _ = eprintln!(rt;
            "evaluate: takes no file name and no option; give it the sheet on standard input: evaluate < SHEET"
        );
        return;
    }
    evaluate_input(&rt);
}
