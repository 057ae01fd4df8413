// The access to data that a step makes in RAM.

ghost use Rattle.std.specs.Prelude.{◌≡◌};
ghost use Rattle.machine_defs.specs.Core.{is_reserved};
ghost use Rattle.machine_defs.specs.Machine.{Machine};
ghost use Rattle.run_log.specs.Steps.{is_reading, is_writing};
ghost use Rattle.step_lines.specs.MadeAccesses.{made_seen};

use arch_defs::Width;
use op_defs::{DataAccess, Purpose};

/// An access, and its place in RAM.
#[derive(Clone, Copy)]
pub struct MadeAccess {
    pub access: DataAccess,
    pub place: u64,
}

/// Whether it reads.
pub fn is_reading(purpose: Purpose) -> bool
    ensures { result ≡ is_reading purpose }
{
    match purpose {
        Purpose::Load { .. }
        | Purpose::LoadCode { .. }
        | Purpose::Reserve { .. }
        | Purpose::Modify { .. } => true,
        Purpose::Store { .. } | Purpose::StoreReserved { .. } => false,
    }
}

// Whether this place is reserved for this width.
fn is_reserved(reservation: Option<(u64, u8)>, place: u64, width: Width) -> bool
    ensures { result ≡ is_reserved reservation place width }
{
    match reservation {
        Some((at, bytes)) => at == place && bytes == width.bytes(),
        None => false,
    }
}

/// Whether it writes, where this is reserved before it.
pub fn is_writing(made: &MadeAccess, reservation: Option<(u64, u8)>) -> bool
    ensures { (m : Machine) → m.platform.virt.reservation ≡ reservation
        → result ≡ is_writing m (made_seen made.now) made.now.access.purpose }
{
    match made.access.purpose {
        Purpose::Store { .. } | Purpose::Modify { .. } => true,
        Purpose::StoreReserved { .. } => { is_reserved(reservation, made.place, made.access.width) }
        Purpose::Load { .. } | Purpose::LoadCode { .. } | Purpose::Reserve { .. } => false,
    }
}
