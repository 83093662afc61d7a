// plantext: reads a plan table's bytes from standard input and prints its text and a line end. Paper 02, request 2026-02.
#![tactic(auto)]

use plantext_bytes::answer;
use program_io::{gather_input, give};
use std::io;

// Prints the text of an input, by one write if the system takes it whole. 4,097 bytes have room for every text and the line end.
fn say(rt: &HostRuntime, input: &[u8]) -> io::Result<()> {
    let mut text = [0u8; 4097];
    let given = answer(input, &mut text);
    give(rt, given, &text)
}

// No plan table has more than 4,105 bytes, so more need not be kept. Where a read fails, nothing is written and main ends with
// an error: half an input is no input.
fn main(rt: HostRuntime) -> io::Result<()> {
    let mut kept = [0u8; 4105];
    let Ok(n) = gather_input(&mut rt.stdin(), &mut kept) else {
        return Err(io::Error::other("plantext: standard input"));
    };
    say(&rt, &kept[..n])
}
