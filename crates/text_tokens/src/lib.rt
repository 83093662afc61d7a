// The tokens of a plan's text, and the reading position. Paper 01, section Plan text; ground 2.
#![tactic(auto)]

ghost use Rattle.std.specs.Prelude.{◌≡◌, true, ◌+◌, ◌-◌, ◌*◌, ◌≤◌, ◌<◌, min, length, take_while, get_or};
ghost use Rattle.text_tokens.specs.Tokens.{is_digit, blank, after_blanks, single_kind, sign_of, run_at, run_token, here_at, token_at, known_byte, known_bytes};

// The kinds of tokens. `-` and `!` alone and a digit run such as 064 are bad, and so is a byte of no token. The six
// relations stand in the order of their numbers in the plan table.
// Numbers and no enum: specs/Tokens.antt (`single_kind`, `sign_of`, `here_at`) and `kind_at`, `stands_for`, `relation_kind` of crate
// text_grammar count with a token's kind, and the theorems of both speak of it as a number.
pub const END: u8 = 0;

pub const LEFT_SQUARE: u8 = 1;

pub const RIGHT_SQUARE: u8 = 2;

pub const LEFT_BRACKET: u8 = 3;

pub const RIGHT_BRACKET: u8 = 4;

pub const AT_SIGN: u8 = 5;

pub const QUESTION_MARK: u8 = 6;

pub const TILDE: u8 = 7;

pub const AMPERSAND: u8 = 8;

pub const BAR: u8 = 9;

pub const RIGHT_ARROW: u8 = 10;

pub const LEFT_ARROW: u8 = 11;

pub const DOUBLE_ARROW: u8 = 12;

pub const COLON: u8 = 13;

pub const SLASH: u8 = 14;

pub const HASH: u8 = 15;

pub const LESS: u8 = 16;

pub const AT_MOST: u8 = 17;

pub const EQUAL: u8 = 18;

pub const UNEQUAL: u8 = 19;

pub const AT_LEAST: u8 = 20;

pub const GREATER: u8 = 21;

pub const VARIABLE: u8 = 22;

pub const SET: u8 = 23;

pub const NUMBER: u8 = 24;

pub const BAD: u8 = 25;

// A token: its kind, its value (a letter's byte, a number up to 64, 65 for any above), and the position after it.
#[derive(Clone, Copy)]
pub struct Token {
    pub kind: u8,
    pub value: u8,
    pub next: usize,
}

// A sign of one to three bytes: its kind and its length.
#[derive(Clone, Copy)]
pub struct Sign {
    pub kind: u8,
    pub len: usize,
}

// A digit run: its number, cut at 65, and the position after it.
#[derive(Clone, Copy)]
pub struct Run {
    pub value: u8,
    pub end: usize,
}

// The byte at i, or 0 past the end.
fn byte(text: &[u8], i: usize) -> u8
    ensures { result ≡ get_or text.now i 0 }
{
    text.get(i).copied().unwrap_or(0)
}

// How many blanks stand in front.
fn blanks(text: &[u8]) -> usize
    ensures { result ≡ length (take_while blank text.now) }
{
    text.iter()
        .take_while(|b| **b == b' ' || **b == b'\n')
        .count()
}

// The first position at or after `at` with no space and no line end.
fn after_blanks(text: &[u8], at: usize) -> usize
    requires { at ≤ length text.now }
    ensures { result ≡ after_blanks text.now at }
{
    at + blanks(&text[at..])
}

// The kind of a sign of one byte that begins no longer one; bad where there is none.
#[tactic(auto, unfolding(crate::specs::Tokens::single_kind))]
fn single(a: u8) -> u8
    ensures { result ≡ single_kind a }
{
    match a {
        b'[' => LEFT_SQUARE,
        b']' => RIGHT_SQUARE,
        b'(' => LEFT_BRACKET,
        b')' => RIGHT_BRACKET,
        b'@' => AT_SIGN,
        b'?' => QUESTION_MARK,
        b'~' => TILDE,
        b'&' => AMPERSAND,
        b'|' => BAR,
        b':' => COLON,
        b'/' => SLASH,
        b'#' => HASH,
        b'=' => EQUAL,
        _ => BAD,
    }
}

// The sign that the bytes a, b, c begin with, the longest; bad where there is none.
#[tactic(auto, unfolding(crate::specs::Tokens::sign_of, crate::specs::Tokens::single_kind))]
fn sign_at(a: u8, b: u8, c: u8) -> Sign
    ensures { result ≡ sign_of a b c }
{
    let (kind, len) = match (a, b, c) {
        (b'-', b'>', _) => (RIGHT_ARROW, 2),
        (b'!', b'=', _) => (UNEQUAL, 2),
        (b'>', b'=', _) => (AT_LEAST, 2),
        (b'>', _, _) => (GREATER, 1),
        (b'<', b'-', b'>') => (DOUBLE_ARROW, 3),
        (b'<', b'-', _) => (LEFT_ARROW, 2),
        (b'<', b'=', _) => (AT_MOST, 2),
        (b'<', _, _) => (LESS, 1),
        _ => (single(a), 1),
    };
    Sign { kind, len }
}

// The number v with the digit b written behind it, cut at 65.
fn with_digit(v: u8, b: u8) -> u8
    requires { (v ≤ 65) × (is_digit b ≡ true) }
    ensures { result ≡ min 65 (10 * v + (b - 48)) }
{
    let w = 10 * u16::from(v) + u16::from(b - b'0');
    w.min(65) as u8
}

// The digit run at `at`.
fn run_at(text: &[u8], at: usize) -> Run
    ensures { result ≡ run_at text.now at 0 }
{
    let mut run = Run { value: 0, end: at };
    while let Some(&b) = text.get(run.end)
        && b.is_ascii_digit()
    {
        run = Run {
            value: with_digit(run.value, b),
            end: run.end + 1,
        };
    }
    run
}

// The digit run at i as a token: bad where it begins with 0 and is longer.
#[tactic(auto, unfolding(crate::specs::Tokens::run_token))]
fn number_at(text: &[u8], i: usize) -> Token
    requires { i < length text.now }
    ensures { result ≡ run_token (get_or text.now i 0) i (run_at text.now i 0) }
{
    let run = run_at(text, i);
    if text[i] == b'0' && i + 1 < run.end {
        return Token {
            kind: BAD,
            value: 0,
            next: run.end,
        };
    }
    Token {
        kind: NUMBER,
        value: run.value,
        next: run.end,
    }
}

// The token at i, where no blank stands.
#[tactic(auto, using(crate::proofs::Laws::sign_moves), unfolding(crate::specs::Tokens::here_at))]
fn token_here(text: &[u8], i: usize) -> Token
    requires { i ≤ length text.now }
    ensures { result ≡ here_at text.now i }
{
    let Some(&a) = text.get(i) else {
        return Token {
            kind: END,
            value: 0,
            next: i,
        };
    };
    match a {
        b'a'..=b'z' => Token {
            kind: VARIABLE,
            value: a,
            next: i + 1,
        },
        b'A'..=b'Z' => Token {
            kind: SET,
            value: a,
            next: i + 1,
        },
        b'0'..=b'9' => number_at(text, i),
        _ => {
            let sign = sign_at(a, byte(text, i + 1), byte(text, i + 2));
            Token {
                kind: sign.kind,
                value: 0,
                next: i + sign.len,
            }
        }
    }
}

// The next token at or after `at`, by value.
#[tactic(auto, using(crate::proofs::Laws::blanks_within), unfolding(crate::specs::Tokens::token_at))]
fn token_from(text: &[u8], at: usize) -> Token
    requires { at ≤ length text.now }
    ensures { result ≡ token_at text.now at }
{
    token_here(text, after_blanks(text, at))
}

// The reading position, which moves over the text.
#[derive(Clone, Copy)]
pub struct Position {
    pub at: usize,
}

// The next token; the position moves past it.
pub fn next_token(text: &[u8], position: &mut Position) -> Token
    requires { position.old.at ≤ length text.now }
    ensures { (result ≡ token_at text.now position.old.at) × (position.new.at ≡ (token_at text.now position.old.at).next) }
{
    let t = token_from(text, position.at);
    position.at = t.next;
    t
}

// The next token at or after `at`: a position is set there and moved past one token. Every reader of a text calls this.
pub fn token_at(text: &[u8], at: usize) -> Token
    requires { at ≤ length text.now }
    ensures { result ≡ token_at text.now at }
{
    next_token(text, &mut Position { at })
}

// Whether b occurs in a token, or is a space or a line end.
fn known_byte(b: u8) -> bool
    ensures { result ≡ known_byte b }
{
    b.is_ascii_alphanumeric() || b" \n[]()@?~&|-<>:/#=!".contains(&b)
}

// Ground 2 does not apply: every byte of the text is known. A function of its own in the archive too: within the code of a long one its
// loop takes up to twice the time, by where its jumps happen to stand.
#[tactic(auto, unfolding(crate::specs::Tokens::known_bytes))]
#[inline(never)]
pub fn known_bytes(text: &[u8]) -> bool
    ensures { result ≡ known_bytes text.now }
{
    text.iter().all(|b| known_byte(*b))
}
