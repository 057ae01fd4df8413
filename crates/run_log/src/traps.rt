// Lines of traps, and of ways into V = 1 and out of it.

ghost use Rattle.std.specs.Prelude.{◌≡◌, ◌*◌, ◌%◌, ◌^◌};
ghost use Rattle.log_lines.specs.declared.traps.Crossing.TheVariants.{Enters, Leaves};
ghost use Rattle.run_log.specs.Traps.{cause_in, guest_physical, is_guest_page_cause, registers_of, taken_in, trap_line, world_line};

use arch_defs::{Csrs, Level, SupervisorCsrs};
use csr_file::satp_bits;
use log_lines::{Cause, Crossing, Head, Taken, TrapLine, WorldLine};

// Why a trap was taken, by the registers of its level.
fn cause_in(registers: &SupervisorCsrs) -> Cause
    ensures { result ≡ cause_in registers.now }
{
    Cause {
        interrupt: (registers.cause >> 63) & 1 == 1,
        code: registers.cause % 0x8000_0000_0000_0000,
    }
}

fn registers_of(csrs: &Csrs, level: Level) -> &SupervisorCsrs
    ensures { result.now ≡ registers_of csrs.now level }
{
    match level {
        Level::HS => &csrs.hs,
        Level::VS => &csrs.vs,
    }
}

// Whether it is a guest-page fault.
fn is_guest_page_cause(cause: Cause) -> bool
    ensures { result ≡ is_guest_page_cause cause }
{
    !cause.interrupt && matches!(cause.code, 20 | 21 | 23)
}

// The guest physical address of a guest-page fault.
fn guest_physical(cause: Cause, htval: u64) -> Option<u64>
    ensures { result ≡ guest_physical cause htval }
{
    if is_guest_page_cause(cause) {
        Some(htval.wrapping_mul(4))
    } else {
        None
    }
}

// Where a trap went, with what only HS is told.
fn taken_in(csrs: &Csrs, cause: Cause, level: Level) -> Taken
    ensures { result ≡ taken_in csrs.now cause level }
{
    match level {
        Level::HS => Taken::HS {
            guest_physical: guest_physical(cause, csrs.htval),
            gva: csrs.hstatus.gva,
            htinst: csrs.htinst,
        },
        Level::VS => Taken::VS,
    }
}

/// The line of a trap into a level, by the registers after it.
pub fn trap_line(head: Head, csrs: &Csrs, into: Level) -> TrapLine
    ensures { result ≡ trap_line head csrs.now into }
{
    let registers = registers_of(csrs, into);
    let cause = cause_in(registers);
    TrapLine {
        head,
        cause,
        tval: registers.tval,
        taken: taken_in(csrs, cause, into),
    }
}

// The line of a way between worlds, by registers with V = 1.
fn world_line(head: Head, csrs: &Csrs, crossing: Crossing) -> WorldLine
    ensures { result ≡ world_line head csrs.now crossing }
{
    WorldLine {
        head,
        hgatp: csrs.hgatp.bits(),
        vsatp: satp_bits(csrs.vs.atp),
        crossing,
    }
}

/// The line of an entry into V = 1, by the registers after it.
pub fn world_entered(head: Head, csrs: &Csrs) -> WorldLine
    ensures { result ≡ world_line head csrs.now Enters }
{
    world_line(head, csrs, Crossing::Enters)
}

/// The line of the way out, by the registers before it, and those of HS after it.
pub fn world_left(head: Head, csrs: &Csrs, after: &SupervisorCsrs) -> WorldLine
    ensures { result ≡ world_line head csrs.now (Leaves (cause_in after.now)) }
{
    world_line(head, csrs, Crossing::Leaves(cause_in(after)))
}
