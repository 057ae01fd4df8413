// The moment at which a wait ends.

ghost use Rattle.std.specs.Prelude.{◌≡◌};
ghost use Rattle.arch_defs.specs.Bits.{bit};
ghost use Rattle.arch_defs.specs.CsrBits.{supervisor_interrupts};
ghost use Rattle.arch_defs.specs.Waits.{coming, earlier, enabled, wake_moment};

use arch_defs::Interrupts;

// A wait for a moment from here on never ends.
const NEVER: u64 = 1 << 62;

// The interrupts that sie enables, as a number (Privileged Architecture 20211203, 4.1.3).
#[tactic(auto, unfolding(arch_defs::specs::CsrBits::supervisor_interrupts))]
pub(crate) fn enabled_by(sie: u64) -> Interrupts
    ensures value { result ≡ supervisor_interrupts sie }
    ensures timer { result.timer ≡ bit 5 sie }
    ensures external { result.external ≡ bit 9 sie }
{
    Interrupts {
        software: (sie >> 1) & 1 == 1,
        timer: (sie >> 5) & 1 == 1,
        external: (sie >> 9) & 1 == 1,
    }
}

// The wake moment, if there is one.
pub(crate) fn wake_moment(sie: Interrupts, timer: u64, input: Option<u64>) -> Option<u64>
    ensures { result ≡ wake_moment sie timer input }
{
    earlier(
        coming(enabled(sie.timer, Some(timer))),
        coming(enabled(sie.external, input)),
    )
}

// The moment of an interrupt, if it is enabled.
fn enabled(enable: bool, moment: Option<u64>) -> Option<u64>
    ensures { result ≡ enabled enable moment }
{
    if enable { moment } else { None }
}

// A moment, if a wait may end at it.
fn coming(moment: Option<u64>) -> Option<u64>
    ensures { result ≡ coming moment }
{
    match moment {
        Some(moment) if moment < NEVER => Some(moment),
        _ => None,
    }
}

// The earlier of two moments.
fn earlier(one: Option<u64>, other: Option<u64>) -> Option<u64>
    ensures { result ≡ earlier one other }
{
    match (one, other) {
        (Some(one), Some(other)) => Some(one.min(other)),
        (Some(one), None) => Some(one),
        (None, other) => other,
    }
}
