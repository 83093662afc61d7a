// Reads one literal of a plan's text, and the letters of a declaration. Paper 01, section Plan text.
#![tactic(auto)]

ghost use Rattle.std.specs.Prelude.{◌≤◌, length};
ghost use Rattle.text_grammar.specs.Parser.{variable_literal, size_literal};
ghost use Rattle.text_grammar.specs.inner.Contract.{ReaderRoom, Outcome, Operands, Keeps, LettersRead};

use text_grammar::{Letters, Reading};
use text_tokens::{COLON, GREATER, LESS, NUMBER, SET, SLASH, VARIABLE, token_at};
use text_tree::push;

// Operators of records (crate text_tree, specs/inner/Stored.antt). Those of the other signs follow from the kinds of tokens: an
// arrow's is its kind less ARROW, a quantifier's its kind less QUANTIFIER, that of `v < w` and its kin is the relation's
// kind, and that of `#S < 9` and its kin is SIZE more.
const IN: u8 = 0;

const NOT_IN: u8 = 1;

const SIZE: u8 = 8;

// The literal whose first operand and operator are read: its second operand, of the kind `wanted`, stands at `at`.
fn operand(
    text: &[u8],
    first: u8,
    operator: u8,
    wanted: u8,
    at: usize,
    out: &mut [u16],
    n: usize,
    d: usize,
) -> Option<Reading>
    requires { ReaderRoom text.now out.old at n d × (1 ≤ wanted) × (1 ≤ at) }
    ensures { Operands text.now out.old out.new first operator wanted at n d result }
{
    let t = token_at(text, at);
    if t.kind != wanted {
        return None;
    }
    let payload = 256 * u16::from(first) + u16::from(t.value);
    push(out, n, payload, u16::from(operator));
    Some(Reading {
        deep: 64 < d,
        next: t.next,
        count: n + 2,
    })
}

// The rest of `v:S`, `v/S` or `v < w` and its kin, from behind the variable v.
pub fn variable_literal(
    text: &[u8],
    v: u8,
    at: usize,
    out: &mut [u16],
    n: usize,
    d: usize,
) -> Option<Reading>
    requires { ReaderRoom text.now out.old at n d }
    ensures { Outcome (variable_literal text.now v at) text.now out.old out.new at n d result }
{
    let t = token_at(text, at);
    match t.kind {
        COLON => operand(text, v, IN, SET, t.next, out, n, d),
        SLASH => operand(text, v, NOT_IN, SET, t.next, out, n, d),
        LESS..=GREATER => operand(text, v, t.kind, VARIABLE, t.next, out, n, d),
        _ => None,
    }
}

// The rest of `#S <= 9` and its kin, from behind the `#`.
pub fn size_literal(text: &[u8], at: usize, out: &mut [u16], n: usize, d: usize) -> Option<Reading>
    requires { ReaderRoom text.now out.old at n d }
    ensures { Outcome (size_literal text.now at) text.now out.old out.new at n d result }
{
    let s = token_at(text, at);
    if s.kind != SET {
        return None;
    }
    let t = token_at(text, s.next);
    match t.kind {
        LESS..=GREATER => operand(text, s.value, t.kind + SIZE, NUMBER, t.next, out, n, d),
        _ => None,
    }
}

// One more letter behind the first n of a table, if there is room; says how many stand there then.
fn keep(letters: &mut [u8], n: usize, letter: u8) -> usize
    ensures { Keeps n letter letters.old letters.new result }
{
    if n < letters.len() {
        letters[n] = letter;
        n + 1
    } else {
        n
    }
}

// The set letters at `at`, all passed, and the first of them kept, as many as there is room for.
pub fn set_letters(text: &[u8], at: usize, letters: &mut [u8]) -> Letters
    requires { at ≤ length text.now }
    ensures { LettersRead text.now at letters.new result }
{
    let mut read = Letters { count: 0, next: at };
    loop {
        let t = token_at(text, read.next);
        if t.kind != SET {
            return read;
        }
        read = Letters {
            count: keep(letters, read.count, t.value),
            next: t.next,
        };
    }
}
