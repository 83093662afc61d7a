// A unit that more than 64 of `(`, `~` and quantifiers stand around, read by a loop and not by calls, and not stored: its text is
// refused, by ground 3 or 4, so that only the unit's end is asked. Paper 01, section Plan text; grounds 3 and 4.
#![tactic(auto)]

ghost use Rattle.std.specs.Prelude.{◌≡◌, true, false, ◌||◌, ◌+◌, ◌≤◌, ◌<◌, ltb};
ghost use Rattle.text_grammar.specs.Grammar.{unit};
ghost use Rattle.text_grammar.specs.inner.Contract.{ReaderRoom, Reads};
ghost use Rattle.text_deep.specs.inner.Deep.{Step};

use text_grammar::Reading;
use text_literal::{size_literal, variable_literal};
use text_tokens::{
    AMPERSAND, AT_SIGN, BAR, DOUBLE_ARROW, HASH, LEFT_BRACKET, QUESTION_MARK, RIGHT_ARROW,
    RIGHT_BRACKET, TILDE, VARIABLE, token_at,
};

// How far the unit is read: whether a unit is due (else one has ended), the position, and how many brackets are open. Each open
// bracket has a mark in the table, behind the numbers that stand there: 1 when its arrow was met.
#[derive(Clone, Copy)]
struct Passing {
    due: bool,
    next: usize,
    brackets: usize,
}

// A unit is due: passes its bracket, its prefix or, whole, its literal. The table's room behind the marks is the literal's.
fn begin_unit(text: &[u8], p: Passing, out: &mut [u16], n: usize, d: usize) -> Option<Passing>
    requires { ReaderRoom text.now out.old p.next (n + p.brackets) d × (p.due ≡ true) }
    ensures { Step text.now out.old out.new n p result }
{
    let t = token_at(text, p.next);
    let mark = n + p.brackets;
    match t.kind {
        LEFT_BRACKET => {
            out[mark] = 0;
            Some(Passing {
                due: true,
                next: t.next,
                brackets: p.brackets + 1,
            })
        }
        TILDE => Some(Passing {
            due: true,
            next: t.next,
            ..p
        }),
        AT_SIGN..=QUESTION_MARK => {
            let v = token_at(text, t.next);
            if v.kind != VARIABLE {
                return None;
            }
            Some(Passing {
                due: true,
                next: v.next,
                ..p
            })
        }
        VARIABLE => {
            let a = variable_literal(text, t.value, t.next, out, mark, d)?;
            Some(Passing {
                due: false,
                next: a.next,
                ..p
            })
        }
        HASH => {
            let a = size_literal(text, t.next, out, mark, d)?;
            Some(Passing {
                due: false,
                next: a.next,
                ..p
            })
        }
        _ => None,
    }
}

// A unit has ended in a bracket: passes the bracket's end, or a sign that joins one more unit. A bracket has one arrow.
fn after_unit(text: &[u8], p: Passing, out: &mut [u16], n: usize, d: usize) -> Option<Passing>
    requires { ReaderRoom text.now out.old p.next (n + p.brackets) d × (p.due ≡ false) × (1 ≤ p.brackets) }
    ensures { Step text.now out.old out.new n p result }
{
    let sign = token_at(text, p.next);
    let on = Passing {
        due: true,
        next: sign.next,
        ..p
    };
    match sign.kind {
        RIGHT_BRACKET => Some(Passing {
            due: false,
            brackets: p.brackets - 1,
            ..on
        }),
        AMPERSAND..=BAR => Some(on),
        RIGHT_ARROW..=DOUBLE_ARROW => {
            let mark = n + p.brackets - 1;
            if out[mark] != 0 {
                return None;
            }
            out[mark] = 1;
            Some(on)
        }
        _ => None,
    }
}

// One token or literal more.
fn step(text: &[u8], p: Passing, out: &mut [u16], n: usize, d: usize) -> Option<Passing>
    requires { ReaderRoom text.now out.old p.next (n + p.brackets) d × ((p.due || ltb 0 p.brackets) ≡ true) }
    ensures { Step text.now out.old out.new n p result }
{
    if p.due {
        begin_unit(text, p, out, n, d)
    } else {
        after_unit(text, p, out, n, d)
    }
}

// "A unit is `~` unit, `@v` unit (for all), `?v` unit (exists), a bracketed formula, or a literal": one that is too deep.
pub fn deep_unit(text: &[u8], at: usize, out: &mut [u16], n: usize, d: usize) -> Option<Reading>
    requires { ReaderRoom text.now out.old at n d × (64 < d) }
    ensures { Reads unit text.now out.old out.new at n d result }
{
    let mut p = Passing {
        due: true,
        next: at,
        brackets: 0,
    };
    while p.due || 0 < p.brackets {
        p = step(text, p, out, n, d)?;
    }
    Some(Reading {
        deep: true,
        next: p.next,
        count: n,
    })
}
