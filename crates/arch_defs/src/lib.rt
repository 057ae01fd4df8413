// The state that the architecture defines: privilege modes, traps, registers, widths, and memory as bytes.
#![tactic(auto)]

mod cached;
mod csr_names;
mod devices;
mod first;
mod first_buffers;
mod hart_states;
mod keys;
mod laws;
mod levels;
mod modes;
mod parts;
mod registers;
mod roots;
mod second_walks;
mod walks;
mod widths;

pub use cached::{Entry, Fence};
pub use csr_names::{CsrEnd, EnableCsr, HypervisorCsr, InterruptCsr, Register, SupervisorCsr};
pub use devices::DEVICE_FRAME;
pub use first::{FirstEntry, Tag};
pub use first_buffers::{FIRST_ROOM, FirstBuffer};
pub use guest_settings::{MOST_BLOCKS, Need, TABLES_PER_ENTRY};
pub use hart_states::HartState;
pub use keys::Key;
pub use laws::{frames_apart_stay, ram_is_its_blocks};
pub use levels::{
    Level, SUPERVISOR_EXTERNAL, SUPERVISOR_SOFTWARE, SUPERVISOR_TIMER, VS_EXTERNAL, VS_SOFTWARE,
    VS_TIMER,
};
pub use modes::{
    Access, BREAKPOINT, ECALL_FROM_HS, ECALL_FROM_USER, ECALL_FROM_VS, FaultCodes,
    ILLEGAL_INSTRUCTION, INSTRUCTION_ACCESS_FAULT, INSTRUCTION_GUEST_PAGE_FAULT,
    INSTRUCTION_MISALIGNED, INSTRUCTION_PAGE_FAULT, LOAD_ACCESS_FAULT, LOAD_GUEST_PAGE_FAULT,
    LOAD_MISALIGNED, LOAD_PAGE_FAULT, Mode, STORE_ACCESS_FAULT, STORE_GUEST_PAGE_FAULT,
    STORE_MISALIGNED, STORE_PAGE_FAULT, Trap, VIRTUAL_INSTRUCTION,
};
pub use parts::{BLOCK_FRAMES, BLOCK_SIZE, FRAME_SIZE, MOST_FRAMES, Part, RAM_BASE};
pub use registers::{
    Csrs, HypervisorStatus, Interrupts, Reg, Regs, SupervisorCsrs, SupervisorStatus, Virtual,
};
pub use roots::{FOLDED_MODE, GuestMode, GuestRoot, HOST_MODE, SupervisorMode, SupervisorRoot};
pub use second_walks::SecondWalkEnd;
pub use walks::{Found, LeafPte, MissingPlace, Next, Privilege, Pte, Shape, WalkEnd};
pub use widths::{Width, extend};
