// How the writing of a log ends before its end.

ghost use Rattle.std.specs.Prelude.{◌≡◌};
ghost use Rattle.log_writer.specs.declared.log_ends.LogEnd.TheVariants as log_end;

use no_memory::NoMemory;
use outside::SinkFault;

/// Why a log is not whole.
#[derive(Clone, Copy)]
pub enum LogEnd {
    WriteFault,
    NoMemory,
}

impl From<SinkFault> for LogEnd {
    ghost from_gives = { λ _ end. end ≡ log_end.WriteFault };

    fn from(_fault: SinkFault) -> LogEnd {
        LogEnd::WriteFault
    }
}

impl From<NoMemory> for LogEnd {
    ghost from_gives = { λ _ end. end ≡ log_end.NoMemory };

    fn from(_end: NoMemory) -> LogEnd {
        LogEnd::NoMemory
    }
}
