// Which ports may be put in test or taken out: grounds 14 and 20. Paper 02, request 2026-05.
#![tactic(auto)]

ghost use Rattle.std.specs.Prelude.{◌≡◌, ◌≤◌, ◌<◌, length};
ghost use Rattle.logic.specs.Refusal.{answer_number};
ghost use Rattle.test_port.specs.inner.Port.{PortNumber};

use cells_size::mask_at;
use logic::{Refusal, has_port, wide};

// Tries 14 and 20 of a port that is to go into test, or out of it.
pub fn port_change(
    port: u32,
    into: bool,
    ports: usize,
    sets: usize,
    masks: &[u64],
) -> Result<(), Refusal>
    requires { (ports ≤ 64) × (sets < length masks.now) }
    ensures { PortNumber ports sets into port masks.now (answer_number result) }
{
    if ports <= wide(port) {
        Err(Refusal::Unknown)
    } else if has_port(mask_at(masks, sets), port) == into {
        Err(Refusal::AlreadyInCondition)
    } else {
        Ok(())
    }
}
