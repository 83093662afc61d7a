// How many nodes and cells the core of a text has, without making it: grounds 8 and 9 of paper 01.
#![tactic(auto)]

ghost use Rattle.std.specs.Prelude.{◌≡◌, true, false, ◌+◌, ◌≤◌, min};
ghost use Rattle.text_tree.specs.inner.Stored.{JoinAt};
ghost use Rattle.text_counts.specs.inner.Counts.{total_at, HeldBoth, Scale, PairHeld, JoinHeld, BothJoined, Scaled, Quantified, HasTotals, CountsNodes, CountsCells};

use text_tree::{is_literal, joins_at, operator_at, payload_at};

// The cells of a part for each cell of its depth (with one port: its nodes), up to a limit, by what stands above it: the
// root or a quantifier, an "and", an "or".
#[derive(Clone, Copy)]
pub struct Total {
    pub alone: u32,
    pub and: u32,
    pub or: u32,
}

impl Total {
    // The same total below all that can stand above.
    fn same(x: u32) -> Self
        ensures { result ≡ record { alone = x; and = x; or = x } }
    {
        Total {
            alone: x,
            and: x,
            or: x,
        }
    }
}

// The totals of a part and of its negation. Both are kept, so that each record is visited once.
#[derive(Clone, Copy)]
pub struct Totals {
    pub plus: Total,
    pub minus: Total,
}

impl Totals {
    // The totals of one polarity.
    #[tactic(auto, unfolding(crate::specs::inner::Counts::total_at))]
    fn at(self, p: bool) -> Total
        ensures { result ≡ total_at self p }
    {
        if p { self.plus } else { self.minus }
    }
}

// a + b, at most the limit.
fn capped(a: u32, b: u32, limit: u32) -> u32
    ensures { result ≡ min limit (a + b) }
{
    a.saturating_add(b).min(limit)
}

// The totals of an "and" of two parts, or of their "or".
fn pair(j: bool, f: Total, g: Total, limit: u32) -> Total
    ensures { PairHeld limit j f g result }
{
    if j {
        let and = capped(f.and, g.and, limit);
        Total {
            and,
            ..Total::same(capped(1, and, limit))
        }
    } else {
        let or = capped(f.or, g.or, limit);
        Total {
            or,
            ..Total::same(capped(1, or, limit))
        }
    }
}

// The totals of two parts joined by an operator, at the polarity p.
fn join_total(operator: u16, p: bool, a: Totals, b: Totals, limit: u32) -> Total
    ensures { JoinHeld limit operator p a b result }
{
    match operator {
        5 => pair(p, a.at(p), b.at(p), limit),
        6 => pair(!p, a.at(p), b.at(p), limit),
        7 => pair(!p, a.at(!p), b.at(p), limit),
        8 => pair(!p, a.at(p), b.at(!p), limit),
        _ => {
            let forth = pair(!p, a.at(!p), b.at(p), limit);
            let back = pair(!p, a.at(p), b.at(!p), limit);
            pair(p, forth, back, limit)
        }
    }
}

// The totals of two parts joined by an operator, of both polarities.
fn joined(operator: u16, a: Totals, b: Totals, limit: u32) -> Totals
    ensures { BothJoined limit operator a b result }
{
    Totals {
        plus: join_total(operator, true, a, b, limit),
        minus: join_total(operator, false, a, b, limit),
    }
}

// One more than u times a total.
fn scaled(x: u32, u: u32, limit: u32) -> u32
    requires { Scale u limit }
    ensures { Scaled limit u x result }
{
    capped(1, u.saturating_mul(x), limit)
}

// The totals of a quantifier over a part.
fn quantified(b: Totals, u: u32, limit: u32) -> Totals
    requires { Scale u limit }
    ensures { Quantified limit u b result }
{
    Totals {
        plus: Total::same(scaled(b.plus.alone, u, limit)),
        minus: Total::same(scaled(b.minus.alone, u, limit)),
    }
}

// The totals of a literal.
fn ones(limit: u32) -> Totals
    ensures { HeldBoth limit (λ i above. 1) result }
{
    let one = Total::same(limit.min(1));
    Totals {
        plus: one,
        minus: one,
    }
}

// The totals of a negated part: the polarities change places.
#[tactic(auto, unfolding(crate::specs::inner::Counts::total_at))]
fn negated(b: Totals) -> Totals
    ensures { (total_at result true ≡ total_at b false) × (total_at result false ≡ total_at b true) }
{
    Totals {
        plus: b.minus,
        minus: b.plus,
    }
}

// The totals of the tree whose records end at e. Each record is visited once. The joins at its end, each the right part of the one
// behind it, are met in a loop.
#[cycle(totals)]
fn part_totals(t: &[u16], e: usize, u: u32, limit: u32) -> Totals
    requires { Scale u limit }
    ensures { HasTotals t.now e u limit result }
{
    let joins = joins_at(t, e);
    let mut totals = last_totals(t, e - 2 * joins, u, limit);
    for j in (0..joins).rev() {
        let end = e - 2 * j;
        let left = part_totals(t, usize::from(payload_at(t, end)), u, limit);
        totals = joined(operator_at(t, end), left, totals, limit);
    }
    totals
}

// The totals of a tree that is no join.
#[cycle(totals)]
fn last_totals(t: &[u16], e: usize, u: u32, limit: u32) -> Totals
    requires { Scale u limit × (JoinAt t.now e → ⊥) }
    ensures { HasTotals t.now e u limit result }
{
    if e < 2 || t.len() < e {
        return ones(limit);
    }
    let operator = operator_at(t, e);
    if is_literal(operator) {
        return ones(limit);
    }
    let b = part_totals(t, e - 2, u, limit);
    match operator {
        2 => negated(b),
        3 | 4 => quantified(b, u, limit),
        _ => b,
    }
}

// Ground 8: the node count of the core, 513 standing for every larger one.
pub fn node_count(t: &[u16], e: usize) -> u32
    ensures { CountsNodes t.now e result }
{
    capped(1, part_totals(t, e, 1, 513).plus.alone, 513)
}

// Ground 9: the cell total of the core over u ports, 1,048,577 standing for every larger one.
pub fn cell_count(t: &[u16], e: usize, u: u32) -> u32
    requires { (1 ≤ u) × (u ≤ 64) }
    ensures { CountsCells t.now e u result }
{
    capped(1, part_totals(t, e, u, 1048577).plus.alone, 1048577)
}
