// Reads a whole text: declaration and formula. Paper 01, section Plan text; ground 3.
#![tactic(auto)]

ghost use Rattle.text_grammar.specs.inner.Contract.{Lent, Parsed};

use text_formula::formula;
use text_grammar::Syntax;
use text_literal::set_letters;
use text_tokens::{END, LEFT_SQUARE, RIGHT_SQUARE, token_at};

// "Text: `[`, one or more upper-case set letters, `]`, formula.": reads a whole text; its tree goes into `out`, and the first of
// its set letters into `letters`.
pub fn parse(text: &[u8], out: &mut [u16], letters: &mut [u8]) -> Option<Syntax>
    requires { Lent text.now out.old letters.old }
    ensures { Parsed text.now out.new letters.new result }
{
    let opening = token_at(text, 0);
    if opening.kind != LEFT_SQUARE {
        return None;
    }
    let sets = set_letters(text, opening.next, letters);
    if sets.count == 0 {
        return None;
    }
    let closing = token_at(text, sets.next);
    if closing.kind != RIGHT_SQUARE {
        return None;
    }
    let body = formula(text, closing.next, out, 0, 0)?;
    let last = token_at(text, body.next);
    if last.kind != END {
        return None;
    }
    Some(Syntax {
        deep: body.deep,
        sets: sets.count,
        end: body.count,
    })
}
