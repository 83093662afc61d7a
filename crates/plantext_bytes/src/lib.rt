// What plantext prints for a table. Paper 02, request 2026-02.
#![tactic(auto)]

ghost use Rattle.std.specs.Prelude.{◌≤◌, length};
ghost use Rattle.program_bytes.specs.Outcome.{Gives};
ghost use Rattle.plantext_bytes.specs.Text.{input_text, text_room};

use call_write::write;
use program_bytes::Refused;
use text_put::put_byte;

// Writes the text of the plan that an input is the table of, and a line end behind it, at the front of the lent text.
pub fn answer(input: &[u8], text: &mut [u8]) -> Result<usize, Refused>
    requires { text_room ≤ length text.old }
    ensures { Gives (input_text input.now text.old) result text.new }
{
    match write(input, text) {
        Ok(n) => Ok(put_byte(text, n as usize, b'\n')),
        Err(g) => Err(Refused::Ground(g)),
    }
}
