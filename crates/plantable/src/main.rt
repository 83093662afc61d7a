// plantable: reads u and a text from standard input and writes the plan table's bytes. Paper 02, request 2026-02.
#![tactic(auto)]

use plantable_bytes::answer;
use program_io::{gather_input, give};
use std::io;

// Writes the plan table of an input, by one write if the system takes it whole. 4,105 bytes have room for every plan.
fn say(rt: &HostRuntime, input: &[u8]) -> io::Result<()> {
    let mut table = [0u8; 4105];
    let given = answer(input, &mut table);
    give(rt, given, &table)
}

// 20 digits, the line end and one byte more than the longest text decide, so more need not be kept. Where a read fails, nothing is
// written and main ends with an error: half an input is no input.
fn main(rt: HostRuntime) -> io::Result<()> {
    let mut kept = [0u8; 4118];
    let Ok(n) = gather_input(&mut rt.stdin(), &mut kept) else {
        return Err(io::Error::other("plantable: standard input"));
    };
    say(&rt, &kept[..n])
}
