// Bytes put one behind another into a lent table. What a table has no place for is counted and not put.
#![tactic(auto)]

ghost use Rattle.std.specs.Prelude.{◌≡◌, [], ◌∷◌, ◌+◌, ◌≤◌, ◌<◌, length};
ghost use Rattle.text_tokens.specs.Tokens.{digits_of};
ghost use Rattle.text_put.specs.inner.Puts.{Puts, most_places};

// Puts a byte at a place: the next place.
pub fn put_byte(out: &mut [u8], at: usize, b: u8) -> usize
    requires { at < most_places }
    ensures { Puts at (b ∷ []) out.old result out.new }
{
    if at < out.len() {
        out[at] = b;
    }
    at + 1
}

// Puts bytes from a place on: where they end. The loop ends where the places do: of a write under a condition the compiler makes masks
// of whole vectors, and `write` takes up to a third more time.
pub fn put_bytes(out: &mut [u8], at: usize, bytes: &[u8]) -> usize
    requires { at + length bytes.now ≤ most_places }
    ensures { Puts at bytes.now out.old result out.new }
{
    let mut next = at;
    for &b in bytes {
        if out.len() <= next {
            break;
        }
        next = put_byte(out, next, b);
    }
    at + bytes.len()
}

// Puts a number of at most k digits from a place on: where it ends. No `write!`: clauses know what it prints into a `String`,
// which needs a heap, and not into a lent table.
pub fn put_digits(out: &mut [u8], at: usize, n: u32, k: usize) -> usize
    requires { at + k ≤ most_places }
    ensures { Puts at (digits_of k n) out.old result out.new }
{
    if k == 0 {
        return at;
    }
    let next = if n < 10 {
        at
    } else {
        put_digits(out, at, n / 10, k - 1)
    };
    put_byte(out, next, b'0' + (n % 10) as u8)
}
