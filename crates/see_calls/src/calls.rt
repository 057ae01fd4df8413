// Calls of the supervisor execution environment, by their numbers in a7.

ghost use Rattle.std.specs.Prelude.{◌≡◌, ◌↔◌};
ghost use Rattle.arch_defs.specs.Bits.{add64};
ghost use Rattle.arch_defs.specs.Registers.{a7, read};
ghost use Rattle.arch_defs.specs.Clocks.{Times};
ghost use Rattle.arch_defs.specs.Calls.{answering, environment, put, refusing, state_of};

use arch_defs::{Reg, Regs};
use console_dev::Console;
use virtual_timer::Clock;

// The registers of a call: its argument and answer, its second answer, and its number.
const A0: u8 = 10;

const A1: u8 = 11;

const A7: u8 = 17;

// The numbers of the calls.
const SET_TIMER: u64 = 0;

const PUT: u64 = 1;

const GET: u64 = 2;

const STOP: u64 = 8;

// The answer of a put where the console is full, and of a get where no input has come.
const FAILED: u64 = u64::MAX;

// The answer to a call of another number.
const NOT_SUPPORTED: u64 = u64::MAX - 1;

/// Whether the machine goes on after a call.
#[derive(Clone, Copy, PartialEq, Eq)]
pub enum CallEnd {
    Go,
    /// The machine has stopped itself.
    Stop,
}

/// Makes the call of the execution environment whose number is in a7. It is an ECALL, so pc goes on by 4.
///
/// | number | effect | a0 after it |
/// |---|---|---|
/// | 0 | the timer becomes a0 | 0 |
/// | 1 | the low byte of a0 goes to the console | 0, or 2^64 - 1 where the console is full |
/// | 2 | the first unread input is read, if its moment has come | its byte, or else 2^64 - 1 |
/// | 8 | the machine stops | stays |
/// | another | a1 becomes 0 | 2^64 - 2 |
///
/// Own; the numbers are those of the legacy calls of the Supervisor Binary Interface, and 2^64 - 2 is its
/// answer of what is not supported.
pub fn call(regs: &mut Regs, clock: &mut Clock, console: &mut Console) -> CallEnd
    ensures registers { regs.new ≡ (environment (state_of regs.old clock.old console.old)).regs }
    ensures clock { clock.new ≡ (environment (state_of regs.old clock.old console.old)).clock }
    ensures console { console.new ≡ (environment (state_of regs.old clock.old console.old)).console }
    ensures stop { (result ≡ CallEnd.Stop) ↔ (read regs.old a7 ≡ 8) }
    ensures pc { regs.new.pc ≡ add64 regs.old.pc 4 }
    ensures time { clock.new.time ≡ clock.old.time }
{
    match regs.read(Reg::new(A7)) {
        SET_TIMER => {
            clock.set(regs.read(Reg::new(A0)));
            answer(regs, 0);
        }
        PUT => put(regs, console),
        GET => {
            let byte = console.get(clock.now());
            answer(regs, byte.map_or(FAILED, u64::from));
        }
        STOP => {
            regs.pc = regs.pc.wrapping_add(4);
            return CallEnd::Stop;
        }
        _ => refuse(regs),
    }
    CallEnd::Go
}

// The low byte of a0 goes to the console, if it has room.
fn put(regs: &mut Regs, console: &mut Console)
    ensures registers { (clock : Times) → regs.new ≡ (put (state_of regs.old clock console.old)).regs }
    ensures console { (clock : Times) → console.new ≡ (put (state_of regs.old clock console.old)).console }
    ensures pc { regs.new.pc ≡ add64 regs.old.pc 4 }
{
    let byte = (regs.read(Reg::new(A0)) & 0xFF) as u8;
    if console.put(byte) {
        answer(regs, 0);
    } else {
        answer(regs, FAILED);
    }
}

// a0 and a1 tell that there is no call of this number, and pc goes on.
fn refuse(regs: &mut Regs)
    ensures { regs.new ≡ refusing regs.old }
{
    let pc = regs.pc;
    regs.advance(Reg::new(A1), 0, pc);
    answer(regs, NOT_SUPPORTED);
}

// a0 gets an answer, and pc goes on.
fn answer(regs: &mut Regs, value: u64)
    ensures { regs.new ≡ answering regs.old value }
{
    let next = regs.pc.wrapping_add(4);
    regs.advance(Reg::new(A0), value, next);
}
