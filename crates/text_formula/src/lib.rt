// Formula, disjunction, conjunction and unit, read by a cycle of calls that writes the tree as records. A unit with more than 64
// of `(`, `~` and quantifiers around it is read by crate text_deep, without calls, so that the cycle is no deeper than that; parts
// that `&` or `|` joins are read in a loop.
// Paper 01, section Plan text; ground 4.
#![tactic(auto)]

ghost use Rattle.std.specs.Prelude.{◌≡◌, true, ◌-◌, ◌≤◌, length};
ghost use Rattle.text_tokens.specs.Tokens.{between};
ghost use Rattle.text_grammar.specs.Grammar.{unit, formula};
ghost use Rattle.text_grammar.specs.inner.Contract.{ReaderRoom, Reads, level_of, part_of, Prefixed};

use text_deep::deep_unit;
use text_grammar::Reading;
use text_literal::{size_literal, variable_literal};
use text_tokens::{
    AMPERSAND, AT_SIGN, BAR, DOUBLE_ARROW, HASH, LEFT_BRACKET, QUESTION_MARK, RIGHT_ARROW,
    RIGHT_BRACKET, TILDE, VARIABLE, token_at,
};
use text_tree::{push, push_joins};

// Operators of records: numbers and no enum, as they stand in a table of 16-bit numbers (crate text_tree, `Stored`). That of a sign
// which joins is its kind less JOIN, a quantifier's its kind less QUANTIFIER.
const NEGATION: u8 = 2;

const JOIN: u16 = 3;

const QUANTIFIER: u8 = 2;

// "A formula is one disjunction, or two with an arrow between."
#[cycle(reading)]
pub fn formula(text: &[u8], at: usize, out: &mut [u16], n: usize, d: usize) -> Option<Reading>
    requires { ReaderRoom text.now out.old at n d }
    ensures { Reads formula text.now out.old out.new at n d result }
{
    let a = row(text, at, out, n, d, BAR)?;
    let t = token_at(text, a.next);
    if !(RIGHT_ARROW..=DOUBLE_ARROW).contains(&t.kind) {
        return Some(a);
    }
    let b = row(text, t.next, out, a.count, d, BAR)?;
    push(out, b.count, a.count as u16, u16::from(t.kind) - JOIN);
    Some(Reading {
        deep: a.deep | b.deep,
        next: b.next,
        count: b.count + 2,
    })
}

// The parts that a sign joins in a row: "A disjunction joins conjunctions by `|`", "a conjunction joins units by `&`". A link to the
// link before stands behind each but the last, the joins behind the last.
#[cycle(reading)]
fn row(text: &[u8], at: usize, out: &mut [u16], n: usize, d: usize, sign: u8) -> Option<Reading>
    requires { ReaderRoom text.now out.old at n d × (between 8 sign 9 ≡ true) }
    ensures { Reads (level_of sign) text.now out.old out.new at n d result }
{
    let operator = u16::from(sign) - JOIN;
    let mut next = at;
    let mut link = n;
    let mut deep = false;
    loop {
        let a = part(text, next, out, link, d, sign)?;
        deep |= a.deep;
        let t = token_at(text, a.next);
        if t.kind != sign {
            let count = push_joins(out, n, link, a.count, operator);
            return Some(Reading {
                deep,
                next: a.next,
                count,
            });
        }
        push(out, a.count, link as u16, operator);
        link = a.count + 2;
        next = t.next;
    }
}

// One part of such a row: a conjunction or a unit.
#[cycle(reading)]
fn part(text: &[u8], at: usize, out: &mut [u16], n: usize, d: usize, sign: u8) -> Option<Reading>
    requires { ReaderRoom text.now out.old at n d × (between 8 sign 9 ≡ true) }
    ensures { Reads (part_of sign) text.now out.old out.new at n d result }
{
    if sign == BAR {
        row(text, at, out, n, d, AMPERSAND)
    } else {
        unit(text, at, out, n, d)
    }
}

// "A unit is `~` unit, `@v` unit (for all), `?v` unit (exists), a bracketed formula, or a literal"
#[cycle(reading)]
fn unit(text: &[u8], at: usize, out: &mut [u16], n: usize, d: usize) -> Option<Reading>
    requires { ReaderRoom text.now out.old at n d }
    ensures { Reads unit text.now out.old out.new at n d result }
{
    if 64 < d {
        return deep_unit(text, at, out, n, d);
    }
    let t = token_at(text, at);
    match t.kind {
        LEFT_BRACKET => {
            let a = formula(text, t.next, out, n, d + 1)?;
            let e = token_at(text, a.next);
            if e.kind != RIGHT_BRACKET {
                return None;
            }
            Some(Reading { next: e.next, ..a })
        }
        TILDE => prefixed(text, t.next, out, n, d, 0, NEGATION),
        AT_SIGN..=QUESTION_MARK => {
            let v = token_at(text, t.next);
            if v.kind != VARIABLE {
                return None;
            }
            prefixed(text, v.next, out, n, d, v.value, t.kind - QUANTIFIER)
        }
        VARIABLE => variable_literal(text, t.value, t.next, out, n, d),
        HASH => size_literal(text, t.next, out, n, d),
        _ => None,
    }
}

// `~` or a quantifier before the unit at `at`: its record's payload and operator follow the unit's.
#[cycle(reading)]
fn prefixed(
    text: &[u8],
    at: usize,
    out: &mut [u16],
    n: usize,
    d: usize,
    payload: u8,
    operator: u8,
) -> Option<Reading>
    requires { ReaderRoom text.now out.old (at - 1) n d × (1 ≤ at) × (at ≤ length text.now) }
    ensures { Prefixed text.now out.old out.new at n d payload operator result }
{
    let a = unit(text, at, out, n, d + 1)?;
    push(out, a.count, u16::from(payload), u16::from(operator));
    Some(Reading {
        count: a.count + 2,
        ..a
    })
}
