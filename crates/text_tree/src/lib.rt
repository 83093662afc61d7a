// The tree of a plan's text as records in a table of 16-bit numbers: pushed, and read back. Paper 01, section Plan text.
#![tactic(auto)]

ghost use Rattle.std.specs.Prelude.{◌≡◌, true, false, not, ◌+◌, ◌-◌, ◌≤◌, length, set, get_or};
ghost use Rattle.text_tree.specs.inner.Links.{JoinsRoom, WritesJoins};
ghost use Rattle.text_tree.specs.inner.Stored.{literal_code, JoinAt, Joins};

// Writes one record at n: a payload and an operator.
pub fn push(out: &mut [u16], n: usize, payload: u16, operator: u16)
    requires { n + 2 ≤ length out.old }
    ensures { out.new ≡ set (set out.old n payload) (n + 1) operator }
{
    out[n] = payload;
    out[n + 1] = operator;
}

// Whether an operator is a literal's.
#[tactic(auto, unfolding(crate::specs::inner::Stored::literal_code))]
pub fn is_literal(operator: u16) -> bool
    ensures { result ≡ literal_code operator }
{
    operator < 2 || 16 <= operator
}

// The two numbers of the record that ends at e.
pub fn operator_at(t: &[u16], e: usize) -> u16
    requires { (2 ≤ e) × (e ≤ length t.now) }
    ensures { result ≡ get_or t.now (e - 1) 0 }
{
    t[e - 1]
}

// The payload of the record that ends at e.
pub fn payload_at(t: &[u16], e: usize) -> u16
    requires { (2 ≤ e) × (e ≤ length t.now) }
    ensures { result ≡ get_or t.now (e - 2) 0 }
{
    t[e - 2]
}

// Whether the record that ends at e is a join, of parts that end before it.
pub fn is_join(t: &[u16], e: usize) -> bool
    ensures { (result ≡ true → JoinAt t.now e) × (result ≡ false → JoinAt t.now e → ⊥) }
{
    2 <= e
        && e <= t.len()
        && (5..=9).contains(&operator_at(t, e))
        && usize::from(payload_at(t, e)) <= e - 2
}

// How many joins end at e, each the right part of the one behind it: `a & b & c` has two. They are met in a loop, so that a row of
// siblings costs no stack.
pub fn joins_at(t: &[u16], e: usize) -> usize
    ensures { Joins t.now e result }
{
    let mut n = 0;
    let mut at = e;
    // Not a `for`: it goes back record by record, as long as they are joins.
    while is_join(t, at) {
        n += 1;
        at -= 2;
    }
    n
}

// Writes the joins of linked parts behind the last part, which ends at e: the links are gone through newest first, from the one
// that ends at `last` back to place n, so that each part is joined with all that follows it. Says where the last join ends.
#[tactic(auto, using(crate::proofs::Links::one_room))]
pub fn push_joins(out: &mut [u16], n: usize, last: usize, e: usize, operator: u16) -> usize
    requires { JoinsRoom out.old n last e }
    ensures { WritesJoins out.old out.new n last e operator result }
{
    let mut link = last;
    let mut end = e;
    // Not a `for`: each link says where the one before it stands.
    while link != n {
        let back = out[link - 2];
        push(out, end, (link - 2) as u16, operator);
        link = usize::from(back);
        end += 2;
    }
    end
}
