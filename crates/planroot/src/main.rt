// planroot: reads u, masks and a text from standard input and prints the root's penalty and the cell total, or the number of a
// refusal. Paper 01, section Known plans.
#![tactic(auto)]

ghost use Rattle.std.specs.Prelude.{IfOk};
ghost use Rattle.planroot_input.specs.inner.Scans.{InputRoom};
ghost use Rattle.planroot_line.specs.inner.Contract.{SomeInput};
ghost use Rattle.planroot.specs.inner.Known.{KnownInput};

use planroot_input::Scan;
use planroot_line::answer;
use std::io;
use std::io::Read;

// Standard input as far as it is passed: to its end, or as far as bytes can change the line.
#[derive(Clone, Copy)]
enum Input {
    Whole(Scan),
    Enough(Scan),
}

// A read failed.
fn failed() -> io::Error {
    io::Error::other("planroot: standard input")
}

// Passes a reader's bytes. Nothing says that they end, so the turns are counted: 2^64 - 1 of them suffice.
fn pass_input<R: Read>(reader: &mut R, masks: &mut [u64], text: &mut [u8]) -> io::Result<Input>
    requires { InputRoom masks.old text.old }
    ensures { IfOk result (λ p. KnownInput p masks.new text.new) }
{
    let mut s = Scan::start();
    let mut piece = [0u8; 4096];
    for _turn in 0..u64::MAX {
        let n = reader.read(&mut piece).map_err(|_| failed())?;
        if n == 0 {
            return Ok(Input::Whole(s));
        }
        s = s.step(&piece[..n], masks, text);
        if s.decided() {
            return Ok(Input::Enough(s));
        }
    }
    Err(failed())
}

// Prints the line for the input that is passed, by one write if the system takes it whole.
fn say(rt: &impl Print, s: Scan, masks: &mut [u64], text: &[u8]) -> io::Result<()>
    requires { SomeInput s masks.old text.now }
{
    let mut out = [0u8; 36];
    let n = answer(s, masks, text, &mut out);
    rt.write_all(&out[..n])
}

// A text of 4,097 bytes is one too long, so more of it need not be kept. Where a read fails, nothing is printed and main ends with
// an error: half an input is no input.
fn main(rt: HostRuntime) -> io::Result<()> {
    let mut masks = [0u64; 16];
    let mut text = [0u8; 4097];
    match pass_input(&mut rt.stdin(), &mut masks, &mut text)? {
        Input::Whole(s) => say(&rt, s, &mut masks, &text),
        Input::Enough(s) => say(&rt, s, &mut masks, &text),
    }
}
