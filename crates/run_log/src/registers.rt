// Registers that a step changed.

ghost use Rattle.std.specs.Prelude.{◌≡◌, ◌-◌, ◌<◌, ◌≤◌, ◌+◌};
ghost use Rattle.run_log.specs.Steps.{changed_from, first_written};

use arch_defs::{Reg, Regs};
use log_lines::Written;

/// The first register from this number on that has another value after a step.
#[tactic(auto, using(crate::proofs::Changed::changed_rules))]
pub fn changed_from(before: &Regs, after: &Regs, from: u8) -> Option<Written>
    requires { from ≤ 32 }
    ensures { result ≡ first_written after.now (changed_from before.now after.now from) }
{
    for number in from..32 {
        let value = after.x[number as usize];
        if before.x[number as usize] != value {
            return Some(Written {
                register: Reg::new(number),
                value,
            });
        }
    }
    None
}
