// Forms the text of a plan in a lent table, by recursion over the plan's records. Paper 02, request 2026-02.
#![tactic(auto)]

ghost use Rattle.std.specs.Prelude.{◌≤◌};
ghost use Rattle.text_tree.specs.Tree.{letters_of};
ghost use Rattle.text_form.specs.Form.{set_byte, sets_from};
ghost use Rattle.text_put.specs.inner.Puts.{Puts};
ghost use Rattle.text_write.specs.inner.Forming.{NodePlaced, open_bytes, FormPlaced, Forms, FormReady, FormsPlan};

use table_format::{RECORD, a_of, b_of, below_root, end_of, kind_of, relation_of};
use table_rules::child_depth;
use text_node::{needs_brackets, nest_below, put_if, put_join, put_own};
use text_put::{put_byte, put_bytes};

// Where a text ends, and whether more than 64 of `(` and quantifiers stand around one of its tokens.
#[derive(Clone, Copy)]
pub struct Extent {
    pub end: usize,
    pub deep: bool,
}

// Puts what a part's first node writes before its children: its bracket, if it stands in brackets, and its own bytes.
#[tactic(auto, unfolding(table_format::specs::Bytes::record_length))]
fn open_node(part: &[u8], depth: usize, bracket: bool, at: usize, out: &mut [u8]) -> usize
    requires { NodePlaced part.now depth at }
    ensures { Puts at (open_bytes part.now depth bracket) out.old result out.new }
{
    let own = put_if(out, at, b'(', bracket);
    put_own(
        out,
        own,
        kind_of(part),
        relation_of(part),
        a_of(part),
        b_of(part),
        depth,
    )
}

// Puts the text of some trees below a node of the kind above, from a place on. The part gets shorter at each call: first the children
// of the first tree, which stand between its own bytes and its closing bracket, then its later siblings.
#[tactic(auto, unfolding(table_format::specs::Bytes::record_length))]
fn form_trees(
    part: &[u8],
    i: usize,
    above: u8,
    depth: usize,
    nest: usize,
    at: usize,
    out: &mut [u8],
) -> Extent
    requires { FormPlaced part.now i depth nest at }
    ensures { Forms part.now i above depth nest at out.old out.new result }
{
    if part.len() < RECORD {
        return Extent {
            end: at,
            deep: 64 < nest,
        };
    }
    let end = end_of(part);
    let span = RECORD * (end - i);
    let kind = kind_of(part);
    let bracket = needs_brackets(above, kind);
    let inner = open_node(part, depth, bracket, at, out);
    let below = child_depth(kind, depth);
    let around = nest_below(kind, bracket, nest);
    let c = form_trees(&part[RECORD..span], i + 1, kind, below, around, inner, out);
    let closed = put_if(out, c.end, b')', bracket);
    if part.len() <= span {
        return Extent { end: closed, ..c };
    }
    let next = put_join(out, closed, above);
    let s = form_trees(&part[span..], end, above, depth, nest, next, out);
    Extent {
        deep: c.deep || s.deep,
        ..s
    }
}

// Puts the letters of so many sets, from A on.
fn put_letters(out: &mut [u8], at: usize, sets: usize) -> usize
    requires { (at ≤ 1) × (sets ≤ 16) }
    ensures { Puts at (letters_of (sets_from (set_byte 0) sets)) out.old result out.new }
{
    for s in 0..sets {
        put_byte(out, at + s, b'A' + s as u8);
    }
    at + sets
}

// Forms the text of a plan whose table is sound: its declaration, then what stands below the root.
pub fn form_text(table: &[u8], sets: usize, nodes: usize, out: &mut [u8]) -> Extent
    requires { FormReady table.now sets nodes }
    ensures { FormsPlan table.now out.old out.new result }
{
    let from = put_byte(out, 0, b'[');
    let letters = put_letters(out, from, sets);
    let at = put_bytes(out, letters, b"] ");
    let below = below_root(table, nodes);
    form_trees(below, 1, 0, 0, 0, at, out)
}
