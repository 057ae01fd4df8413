// Pending, enabled and due interrupts (Privileged Architecture 20211203, 3.1.9, 4.1.3, 8.2.2 and 8.2.3).

ghost use Rattle.std.specs.Prelude.{◌≡◌, find};
ghost use Rattle.arch_defs.specs.Interrupts.{due, due_for_hs, due_for_vs, hs_order, is_enabled, is_pending, is_ready_for_hs, is_ready_for_vs, supervisor_bit, takes, vs_bit, vs_order};

use arch_defs::{
    Csrs, Interrupts, Level, Mode, SUPERVISOR_EXTERNAL, SUPERVISOR_SOFTWARE, SUPERVISOR_TIMER,
    VS_EXTERNAL, VS_SOFTWARE, VS_TIMER,
};

/// The code of the interrupt that is due, without scause's bit 63; none exactly where none is due. The
/// interrupts that go to HS come before those of VS.
#[inline]
#[tactic(auto, using(crate::proofs::Due::nothing_pending))]
pub fn pending(csrs: &Csrs, mode: Mode) -> Option<u64>
    ensures { result ≡ due csrs.now mode }
{
    if csrs.sip == Interrupts::clear() && csrs.hvip == Interrupts::clear() {
        return None;
    }
    first_due(csrs, mode)
}

// The first that is due of those that are pending.
#[cold]
#[inline(never)]
#[tactic(auto, unfolding(arch_defs::specs::Interrupts::due))]
fn first_due(csrs: &Csrs, mode: Mode) -> Option<u64>
    ensures { result ≡ due csrs.now mode }
{
    due_for_hs(csrs, mode).or(due_for_vs(csrs, mode))
}

#[tactic(auto, unfolding(arch_defs::specs::Interrupts::due_for_hs))]
fn due_for_hs(csrs: &Csrs, mode: Mode) -> Option<u64>
    ensures { result ≡ due_for_hs csrs.now mode }
{
    if takes(csrs, mode, Level::HS) {
        first_for_hs(csrs)
    } else {
        None
    }
}

#[tactic(auto, unfolding(arch_defs::specs::Interrupts::due_for_vs))]
fn due_for_vs(csrs: &Csrs, mode: Mode) -> Option<u64>
    ensures { result ≡ due_for_vs csrs.now mode }
{
    if takes(csrs, mode, Level::VS) {
        first_for_vs(csrs)
    } else {
        None
    }
}

// Whether the level takes interrupts from this mode.
fn takes(csrs: &Csrs, mode: Mode, level: Level) -> bool
    ensures { result ≡ takes csrs.now mode level }
{
    match level {
        Level::HS => match mode {
            Mode::HS => csrs.hs.status.sie,
            Mode::U | Mode::VS | Mode::VU => true,
        },
        Level::VS => match mode {
            Mode::HS | Mode::U => false,
            Mode::VS => csrs.vs.status.sie,
            Mode::VU => true,
        },
    }
}

fn first_for_hs(csrs: &Csrs) -> Option<u64>
    ensures { result ≡ find (is_ready_for_hs csrs.now) hs_order }
{
    if is_ready_for_hs(csrs, SUPERVISOR_EXTERNAL) {
        Some(SUPERVISOR_EXTERNAL)
    } else if is_ready_for_hs(csrs, SUPERVISOR_SOFTWARE) {
        Some(SUPERVISOR_SOFTWARE)
    } else if is_ready_for_hs(csrs, SUPERVISOR_TIMER) {
        Some(SUPERVISOR_TIMER)
    } else if is_ready_for_hs(csrs, VS_EXTERNAL) {
        Some(VS_EXTERNAL)
    } else if is_ready_for_hs(csrs, VS_SOFTWARE) {
        Some(VS_SOFTWARE)
    } else if is_ready_for_hs(csrs, VS_TIMER) {
        Some(VS_TIMER)
    } else {
        None
    }
}

fn first_for_vs(csrs: &Csrs) -> Option<u64>
    ensures { result ≡ find (is_ready_for_vs csrs.now) vs_order }
{
    if is_ready_for_vs(csrs, VS_EXTERNAL) {
        Some(VS_EXTERNAL)
    } else if is_ready_for_vs(csrs, VS_SOFTWARE) {
        Some(VS_SOFTWARE)
    } else if is_ready_for_vs(csrs, VS_TIMER) {
        Some(VS_TIMER)
    } else {
        None
    }
}

fn is_ready_for_hs(csrs: &Csrs, code: u64) -> bool
    ensures { result ≡ is_ready_for_hs csrs.now code }
{
    is_pending(csrs, code) && is_enabled(csrs, code) && !vs_bit(csrs.hideleg, code)
}

fn is_ready_for_vs(csrs: &Csrs, code: u64) -> bool
    ensures { result ≡ is_ready_for_vs csrs.now code }
{
    is_pending(csrs, code) && is_enabled(csrs, code) && vs_bit(csrs.hideleg, code)
}

fn is_pending(csrs: &Csrs, code: u64) -> bool
    ensures { result ≡ is_pending csrs.now code }
{
    supervisor_bit(csrs.sip, code) || vs_bit(csrs.hvip, code)
}

fn is_enabled(csrs: &Csrs, code: u64) -> bool
    ensures { result ≡ is_enabled csrs.now code }
{
    supervisor_bit(csrs.sie, code) || vs_bit(csrs.hie, code)
}

// The bit of a code in sip or sie.
fn supervisor_bit(bits: Interrupts, code: u64) -> bool
    ensures { result ≡ supervisor_bit bits code }
{
    match code {
        SUPERVISOR_SOFTWARE => bits.software,
        SUPERVISOR_TIMER => bits.timer,
        SUPERVISOR_EXTERNAL => bits.external,
        _ => false,
    }
}

/// The bit of a code in hip, hie or hideleg.
pub(crate) fn vs_bit(bits: Interrupts, code: u64) -> bool
    ensures { result ≡ vs_bit bits code }
{
    match code {
        VS_SOFTWARE => bits.software,
        VS_TIMER => bits.timer,
        VS_EXTERNAL => bits.external,
        _ => false,
    }
}
