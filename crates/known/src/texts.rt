// Texts of paper 01 through read and load, each ground at its boundary.
use crate::print::{say_loaded, say_read, show_bytes};
use call_load::load;
use call_read::read;
use std::io;

// Lays a piece again and again over `length` places of out from place `from` on, as far as there is room: where it ends.
fn lay(out: &mut [u8], from: usize, length: usize, piece: &[u8]) -> usize {
    let mut i = from;
    for k in 0..length {
        if piece.is_empty() || out.len() <= i {
            return i;
        }
        out[i] = piece[k % piece.len()];
        i += 1;
    }
    i
}

// Room for the largest table.
fn blank_table() -> [u8; 4105] {
    [0; 4105]
}

// Room for the longest text that is laid.
fn spaces() -> [u8; 8192] {
    [32; 8192]
}

// Reads a text and prints the answer.
fn say(rt: &impl Print, u: u64, text: &[u8]) -> io::Result<()> {
    let mut table = blank_table();
    say_read(rt, read(u, text, &mut table))
}

// Reads a text, loads its table and prints load's answer: `penalty P cells C` or `refused N`.
fn run(rt: &impl Print, u: u64, text: &[u8], masks: &[u64], cells: &mut [u32]) -> io::Result<()> {
    let mut table = blank_table();
    say_read(rt, read(u, text, &mut table))?;
    say_loaded(rt, load(&table, masks, cells))
}

// A text of four parts, the second and the fourth of so many bytes, laid from pieces; read over one port.
fn say_long(
    rt: &impl Print,
    first: &[u8],
    piece: &[u8],
    length: usize,
    middle: &[u8],
    last: &[u8],
    more: usize,
) -> io::Result<()> {
    let mut text = spaces();
    let a = lay(&mut text, 0, first.len(), first);
    let b = lay(&mut text, a, length, piece);
    let c = lay(&mut text, b, middle.len(), middle);
    let d = lay(&mut text, c, more, last);
    say_part(rt, &text, d)
}

// Reads the first bytes of a text.
fn say_part(rt: &impl Print, text: &[u8], length: usize) -> io::Result<()> {
    if text.len() < length {
        return Ok(());
    }
    say(rt, 1, &text[..length])
}

// Reads and loads a small plan.
fn small(rt: &impl Print, u: u64, text: &[u8], masks: &[u64]) -> io::Result<()> {
    let mut cells = [0u32; 128];
    run(rt, u, text, masks, &mut cells)
}

// A plan of one set.
fn one_set(rt: &impl Print, u: u64, text: &[u8], mask: u64) -> io::Result<()> {
    let masks = [mask, 0];
    small(rt, u, text, &masks)
}

// Plan A.
fn plan_a(rt: &impl Print) -> io::Result<()> {
    let masks = [3u64, 7, 1, 0];
    small(rt, 3, b"[STI] @x (x:I <-> x:S & x:T) & #I <= 1", &masks)
}

// A plan of two sets.
fn two_sets(rt: &impl Print, u: u64, text: &[u8]) -> io::Result<()> {
    let masks = [1u64, 1, 0];
    small(rt, u, text, &masks)
}

// The starred plans, in the paper's order.
fn starred(rt: &impl Print) -> io::Result<()> {
    plan_a(rt)?;
    two_sets(rt, 2, b"[ST] @x (x/S | x:T) & ?x (x:T & x/S)")?;
    one_set(rt, 1, b"[S] ?x x:S", 0)?;
    one_set(rt, 1, b"[S] ?x x:S", 1)?;
    one_set(rt, 64, b"[S] #S < 0", 0)?;
    one_set(rt, 64, b"[S] #S > 64", 18446744073709551615)?;
    one_set(rt, 64, b"[S] #S = 2", 0)?;
    one_set(rt, 64, b"[S] #S = 2", 15)?;
    one_set(rt, 64, b"[S] #S != 2", 3)
}

// u at its boundaries.
fn ports(rt: &impl Print) -> io::Result<()> {
    say(rt, 0, b"[S] ?x x:S")?;
    say(rt, 1, b"[S] ?x x:S")?;
    say(rt, 64, b"[S] ?x x:S")?;
    say(rt, 65, b"[S] ?x x:S")?;
    say(rt, 257, b"[S] ?x x:S")?;
    say(rt, 4294967299, b"[S] ?x x:S")
}

// Bytes of no token, and texts outside the grammar.
fn bytes_and_grammar(rt: &impl Print) -> io::Result<()> {
    say(rt, 1, b"[S]#S<1 - $")?;
    say(rt, 1, b"[S]#S<1 - ")?;
    say(rt, 1, b"[S]\t#S<1")?;
    say(rt, 1, b"")?;
    say(rt, 1, b"[]#S<1")?;
    say(rt, 1, b"[S]")?;
    say(rt, 1, b"[S]\n#S\n<1\n")?;
    say(rt, 1, b"[S] #S < = 1")
}

// Constants, and two arrows.
fn constants(rt: &impl Print) -> io::Result<()> {
    say(rt, 1, b"[S] #S <= 64")?;
    say(rt, 1, b"[S] #S <= 65")?;
    say(rt, 1, b"[S] #S <= 064")?;
    say(
        rt,
        1,
        b"[S] #S <= 99999999999999999999999999999999999999999",
    )?;
    say(rt, 1, b"[S] #S<1->#S<2->#S<3")
}

// Names of variables and sets.
fn names(rt: &impl Print) -> io::Result<()> {
    say(rt, 1, b"[S] @x @x x:S")?;
    say(rt, 1, b"[S] @x x:S & x:S")?;
    say(rt, 1, b"[S] @x x:S & @x x:S")?;
    say(rt, 1, b"[S] @x x:T")?;
    say(rt, 1, b"[SS] #S<1")?;
    say(rt, 1, b"[ABCDEFGHIJKLMNOP] #A<1")?;
    say(rt, 1, b"[ABCDEFGHIJKLMNOPQ] #A<1")
}

// The fourth quantifier, and too many cells.
fn quantifiers(rt: &impl Print) -> io::Result<()> {
    say(rt, 1, b"[S] @x@y@zx<z")?;
    say(rt, 1, b"[S] @x@y@z?wx<w")?;
    say(rt, 64, b"[S] @x @y @z (x:S & y:S)")?;
    say(rt, 64, b"[S] @x @y @z (x:S & y:S & z:S)")
}

// A literal and a piece again and again.
fn say_tail(rt: &impl Print, piece: &[u8], length: usize) -> io::Result<()> {
    say_long(rt, b"[S] #S<1", piece, length, b"", b"", 0)
}

// A literal inside pieces.
fn say_nested(
    rt: &impl Print,
    piece: &[u8],
    length: usize,
    last: &[u8],
    more: usize,
) -> io::Result<()> {
    say_long(rt, b"[S] ", piece, length, b"#S<1", last, more)
}

// So many `(` and `)`, with no space, so that more of them fit.
fn say_brackets(rt: &impl Print, length: usize, more: usize) -> io::Result<()> {
    say_long(rt, b"[S]", b"(", length, b"#S<1", b")", more)
}

// Texts of 4,096 and 4,097 bytes.
fn lengths(rt: &impl Print) -> io::Result<()> {
    say_tail(rt, b" ", 4088)?;
    say_tail(rt, b" ", 4089)
}

// 64 and 65 of `~` and `(`, and thousands.
fn nestings(rt: &impl Print) -> io::Result<()> {
    say_nested(rt, b"~", 64, b"", 0)?;
    say_nested(rt, b"~", 65, b"", 0)?;
    say_nested(rt, b"(", 64, b")", 64)?;
    say_nested(rt, b"(", 65, b")", 65)?;
    say_brackets(rt, 2044, 2044)?;
    say_brackets(rt, 4088, 0)
}

// 512 and 513 nodes, and `<->` nested 64 deep.
fn many_nodes(rt: &impl Print) -> io::Result<()> {
    say_tail(rt, b"&#S<1", 2545)?;
    say_tail(rt, b"&#S<1", 2550)?;
    say_nested(rt, b"(", 64, b"<->#S<1)", 512)?;
    say_nested(rt, b"(", 64, b"<->#S<1)", 513)
}

// Reads a text into the first bytes of a table.
fn say_short(rt: &impl Print, text: &[u8], table: &mut [u8], length: usize) -> io::Result<()> {
    if table.len() < length {
        return Ok(());
    }
    say_read(rt, read(1, text, &mut table[..length]))
}

// Reads into a table of this length, and shows what is there.
fn table_of(rt: &impl Print, length: usize) -> io::Result<()> {
    let mut table = [7u8; 36];
    say_short(rt, b"[S] ?x x:S", &mut table, length)?;
    show_bytes(rt, &table)
}

// One byte less than the plan's length: the old bytes stay. Then just its length.
fn tables(rt: &impl Print) -> io::Result<()> {
    table_of(rt, 32)?;
    table_of(rt, 33)
}

// A plan over 64 ports, the set empty.
fn large(rt: &impl Print, text: &[u8], cells: &mut [u32]) -> io::Result<()> {
    let none = [0u64, 0];
    run(rt, 64, text, &none, cells)
}

// 65,536 conjuncts are false: 16 bits would have stored 0. Then 790,594 cells, and one conjunct more.
pub fn large_plans(rt: &impl Print, cells: &mut [u32]) -> io::Result<()> {
    large(
        rt,
        b"[S] @x @y (x:S&x:S&x:S&x:S&x:S&x:S&x:S&x:S&x:S&x:S&x:S&x:S&x:S&x:S&x:S&x:S)",
        cells,
    )?;
    large(rt, b"[S] @x @y @z (x:S & y:S)", cells)?;
    large(rt, b"[S] @x @y @z (x:S & y:S & z:S)", cells)
}

// The small texts, ground by ground.
pub fn all(rt: &impl Print) -> io::Result<()> {
    starred(rt)?;
    ports(rt)?;
    bytes_and_grammar(rt)?;
    constants(rt)?;
    names(rt)?;
    quantifiers(rt)?;
    lengths(rt)?;
    nestings(rt)?;
    many_nodes(rt)?;
    tables(rt)
}
