// The cells of a port comparison, kind 7. Paper 01, sections Plan table and Penalty.
#![tactic(auto)]

ghost use Rattle.std.specs.Prelude.{◌≡◌, false, ◌++◌, drop};
ghost use Rattle.logic.specs.Cells.{tabulate};
ghost use Rattle.cells_rule.specs.inner.Rule.{rule_penalty};
ghost use Rattle.cells_runs.specs.inner.Ports.{digit_at, by_order, NestedPlaced, BlocksPlaced};

use cells_rule::literal_penalty;
use cells_runs::{Digit, next_digit, put_run, repeat_first};

// The cells of a comparison by whether the inner variable's port is less than the outer's, the same or more. The inner goes
// through its ports while the outer stays: a round is a run of each, and with the outer's last port all begins again.
fn put_nested(
    less: u32,
    same: u32,
    more: u32,
    ports: u32,
    block: usize,
    other: usize,
    width: usize,
    cells: &mut [u32],
)
    requires { NestedPlaced ports block other width cells.old }
    ensures { cells.new ≡ tabulate width (λ t. by_order less same more (digit_at ports other t) (digit_at ports block t)) ++ drop width cells.old }
{
    let round = (ports as usize) * other;
    let period = (ports as usize) * block;
    let rounds = block / round;
    let mut v = Digit {
        port: 0,
        left: rounds,
    };
    // no `for`: a step is a whole round, with which the outer's port goes on
    let mut t = 0;
    while t < period {
        let low = (v.port as usize) * other;
        put_run(t, low, less, cells);
        put_run(t + low, other, same, cells);
        put_run(t + low + other, round - low - other, more, cells);
        v = next_digit(v, rounds, ports);
        t += round;
    }
    repeat_first(period, width, cells);
}

// The cells of kind 7, by the blocks of its two variables: the outer has the larger.
pub fn put_comparison(
    relation: u8,
    ports: u32,
    block: usize,
    other: usize,
    width: usize,
    cells: &mut [u32],
)
    requires { BlocksPlaced ports block other width cells.old }
    ensures { cells.new ≡ tabulate width (λ t. rule_penalty 7 relation false (digit_at ports block t) (digit_at ports other t)) ++ drop width cells.old }
{
    let less = literal_penalty(7, relation, false, 0, 1);
    let same = literal_penalty(7, relation, false, 0, 0);
    let more = literal_penalty(7, relation, false, 1, 0);
    if other < block {
        put_nested(more, same, less, ports, block, other, width, cells);
    } else if block < other {
        put_nested(less, same, more, ports, other, block, width, cells);
    } else {
        put_run(0, width, same, cells);
    }
}
