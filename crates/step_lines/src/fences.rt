// Lines of fences.

ghost use Rattle.std.specs.Prelude.{◌≡◌};
ghost use Rattle.step_lines.specs.StepLines.{fence_line_of};

use crate::acts::Act;
use log_lines::{FenceLine, Head, Line};

/// How many translations of each stage are cached.
#[derive(Clone, Copy)]
pub struct Held {
    pub first: u64,
    pub second: u64,
}

/// The line of a fence, by how many translations were cached before it dropped some, and are after it.
pub fn fence_line(head: &Head, act: &Act, held: Held, after: Held) -> Option<Line>
    ensures { result ≡ fence_line_of head.now act.now held after }
{
    match act {
        Act::Fences(fence, named) => Some(Line::Fence(FenceLine {
            head: *head,
            fence: *fence,
            id: named.vmid,
            page: named.page,
            first: held.first.saturating_sub(after.first),
            second: held.second.saturating_sub(after.second),
        })),
        Act::Calls | Act::Waits | Act::Accesses(_) | Act::Other => None,
    }
}
