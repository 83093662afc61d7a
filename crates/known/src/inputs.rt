// Inputs of planroot, whole and cut in two, and the lines for them.
use planroot_input::Scan;
use planroot_line::answer;
use std::io;

// Prints the line for an input that comes in two pieces, as planroot does.
fn say_pieces(rt: &impl Print, first: &[u8], rest: &[u8]) -> io::Result<()> {
    let mut masks = [0u64; 16];
    let mut text = [0u8; 4097];
    let a = Scan::start().step(first, &mut masks, &mut text);
    let b = a.step(rest, &mut masks, &mut text);
    let mut out = [0u8; 36];
    let n = answer(b, &mut masks, &text, &mut out);
    rt.write_all(&out[..n])
}

// An input whole.
fn whole(rt: &impl Print, input: &[u8]) -> io::Result<()> {
    say_pieces(rt, input, b"")
}

// An input of which the first piece has at most n bytes: a cut behind its end cuts nothing off.
fn cut_at(rt: &impl Print, input: &[u8], n: usize) -> io::Result<()> {
    let k = n.min(input.len());
    say_pieces(rt, &input[..k], &input[k..])
}

// An input cut at some places: the same line each time.
fn cut(rt: &impl Print, input: &[u8]) -> io::Result<()> {
    for n in [0, 1, 2, 3, 7, 20] {
        cut_at(rt, input, n)?;
    }
    Ok(())
}

// The first two lines: no line end, line 2 ended by the input.
fn lines(rt: &impl Print) -> io::Result<()> {
    whole(rt, b"")?;
    whole(rt, b"3")?;
    whole(rt, b"3\n")?;
    whole(rt, b"3\n1")?;
    whole(rt, b"3\n1\n")?;
    whole(rt, b"65\n1")
}

// Words that are no digit runs.
fn words(rt: &impl Print) -> io::Result<()> {
    whole(rt, b"\n1\n[S] ?x x:S")?;
    whole(rt, b"01\n1\n[S] ?x x:S")?;
    whole(rt, b"1 \n1\n[S] ?x x:S")?;
    whole(rt, b"+1\n1\n[S] ?x x:S")?;
    whole(rt, b"1\r\n1\n[S] ?x x:S")?;
    whole(rt, b"1\n 1\n[S] ?x x:S")?;
    whole(rt, b"1\n1 \n[S] ?x x:S")?;
    whole(rt, b"1\n1  1\n[ST] ?x x:S")?;
    whole(rt, b"1\n\n[S] ?x x:S")?;
    whole(rt, b"x\n1\n$")
}

// u at its boundaries.
fn ports(rt: &impl Print) -> io::Result<()> {
    whole(rt, b"0\n1\n[S] ?x x:S")?;
    whole(rt, b"1\n1\n[S] ?x x:S")?;
    whole(rt, b"64\n1\n[S] ?x x:S")?;
    whole(rt, b"65\n1\n[S] ?x x:S")?;
    whole(rt, b"257\n1\n[S] ?x x:S")?;
    whole(rt, b"18446744073709551615\n1\n[S] ?x x:S")?;
    whole(rt, b"18446744073709551616\n1\n[S] ?x x:S")
}

// Masks: a port of u or more, the largest, one too many and too few, 16 and 17.
fn masks(rt: &impl Print) -> io::Result<()> {
    whole(rt, b"1\n0\n[S] ?x x:S")?;
    whole(rt, b"1\n2\n[S] ?x x:S")?;
    whole(rt, b"64\n18446744073709551615\n[S] #S > 64")?;
    whole(rt, b"64\n18446744073709551616\n[S] #S > 64")?;
    whole(rt, b"1\n1 1\n[S] ?x x:S")?;
    whole(rt, b"1\n1\n[ST] ?x x:S")?;
    whole(rt, b"1\n1 1\n[S] ?x")?;
    whole(
        rt,
        b"1\n1 1 1 1 1 1 1 1 1 1 1 1 1 1 1 1\n[ABCDEFGHIJKLMNOP] #P = 1",
    )?;
    whole(
        rt,
        b"1\n1 1 1 1 1 1 1 1 1 1 1 1 1 1 1 1 1\n[ABCDEFGHIJKLMNOP] #P = 1",
    )
}

// 16,384 cells, and one more.
fn cells(rt: &impl Print) -> io::Result<()> {
    whole(
        rt,
        b"25\n0\n[S] @x(@y@z x<z & x:S & x:S & x:S) & #S<1 & #S<1 & #S<1 & #S<1 & #S<1 & #S<1",
    )?;
    whole(
        rt,
        b"25\n0\n[S] @x(@y@z x<z & x:S & x:S & x:S) & #S<1 & #S<1 & #S<1 & #S<1 & #S<1 & #S<1 & #S<1",
    )
}

// Plan A cut, then inputs by what is wrong with them.
pub fn all(rt: &impl Print) -> io::Result<()> {
    cut(rt, b"3\n3 7 1\n[STI] @x (x:I <-> x:S & x:T) & #I <= 1")?;
    lines(rt)?;
    words(rt)?;
    ports(rt)?;
    masks(rt)?;
    cells(rt)
}
