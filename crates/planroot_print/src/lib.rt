// The line that planroot prints, as bytes. Paper 01, section Known plans.
#![tactic(auto)]

ghost use Rattle.std.specs.Prelude.{◌≤◌, length};
ghost use Rattle.text_put.specs.inner.Puts.{Puts};
ghost use Rattle.planroot_print.specs.Line.{penalty_bytes, refusal_bytes, line_room, Shows};

use text_put::{put_byte, put_bytes, put_digits};

// "`penalty P cells C` (root, cell total) or `refused N`". N stays a number: 0 is no ground, and `read_line` and `load_line` of
// planroot_line, over which theorems of demands speak, make a line of the number that a call answers.
#[derive(Clone, Copy)]
pub enum Line {
    Penalty { root: u32, cells: u32 },
    Refusal(u8),
}

// `penalty P cells C`.
fn put_penalty(out: &mut [u8], root: u32, cells: u32) -> usize
    ensures { Puts 0 (penalty_bytes root cells) out.old result out.new }
{
    let a = put_bytes(out, 0, b"penalty ");
    let b = put_digits(out, a, root, 10);
    let c = put_bytes(out, b, b" cells ");
    let d = put_digits(out, c, cells, 10);
    put_byte(out, d, b'\n')
}

// `refused N`.
fn put_refusal(out: &mut [u8], number: u8) -> usize
    ensures { Puts 0 (refusal_bytes number) out.old result out.new }
{
    let a = put_bytes(out, 0, b"refused ");
    let b = put_digits(out, a, number as u32, 10);
    put_byte(out, b, b'\n')
}

// Puts a line at the front of a table: how many bytes it has.
pub fn put_line(out: &mut [u8], line: Line) -> usize
    requires { line_room ≤ length out.old }
    ensures { Shows line out.old result out.new }
{
    match line {
        Line::Penalty { root, cells } => put_penalty(out, root, cells),
        Line::Refusal(n) => put_refusal(out, n),
    }
}
