// The header of a form.

ghost use Rattle.std.specs.Prelude.{◌≡◌};
ghost use Rattle.arch_defs.specs.Bits.{bit_number};
ghost use Rattle.guest_save.specs.Headers.{header_in, mode_number, mode_by_number, progress_numbers, reservation_numbers, reservation_of, size_numbers, status_number, status_by_number};

use crate::registers::csrs_in;
use arch_defs::{FirstBuffer, Mode, Regs, Virtual};
use guest_settings::Status;

/// How many sizes a header has, and how many numbers behind them and the device page.
pub const SIZE_NUMBERS: usize = 4;

pub const LATER_NUMBERS: usize = 68;

/// What a form of each machine has beside its letters: how many blocks of RAM there are, and at most how many
/// spaces, entries in each and console bytes; whether there is the device page; status, steps, clock and
/// timer; and the state of the hart, without first-stage translations.
#[derive(Clone, Copy)]
pub struct Header {
    pub blocks: u64,
    pub spaces: u64,
    pub entries: u64,
    pub console: u64,
    pub device: bool,
    pub status: Status,
    pub steps: u64,
    pub time: u64,
    pub timer: u64,
    pub state: Virtual,
}

fn status_number(status: Status) -> u64
    ensures { result ≡ status_number status }
{
    match status {
        Status::Running => 0,
        Status::Waiting => 1,
        Status::Stopped => 2,
    }
}

fn status_of(number: u64) -> Status
    ensures { result ≡ status_by_number number }
{
    match number {
        0 => Status::Running,
        1 => Status::Waiting,
        _ => Status::Stopped,
    }
}

fn mode_number(mode: Mode) -> u64
    ensures { result ≡ mode_number mode }
{
    match mode {
        Mode::HS => 0,
        Mode::U => 1,
        Mode::VS => 2,
        Mode::VU => 3,
    }
}

fn mode_of(number: u64) -> Mode
    ensures { result ≡ mode_by_number number }
{
    match number {
        0 => Mode::HS,
        1 => Mode::U,
        2 => Mode::VS,
        _ => Mode::VU,
    }
}

/// The width and the address of a reservation, or twice 0.
pub fn reservation_numbers(reservation: Option<(u64, u8)>) -> [u64; 2]
    ensures { result ≡ reservation_numbers reservation }
{
    match reservation {
        None => [0, 0],
        Some((place, width)) => [width as u64, place],
    }
}

fn reservation_of(width: u64, place: u64) -> Option<(u64, u8)>
    ensures { result ≡ reservation_of width place }
{
    match width {
        0 => None,
        _ => Some((place, (width % 256) as u8)),
    }
}

impl Header {
    /// Its first numbers: sizes.
    pub fn sizes(&self) -> [u64; 4]
        ensures { result ≡ size_numbers self.now }
    {
        [self.blocks, self.spaces, self.entries, self.console]
    }

    /// Whether there is the device page, as a number.
    pub fn device_number(&self) -> u64
        ensures { result ≡ bit_number 0 self.now.device }
    {
        self.device as u64
    }

    /// Its numbers behind these: progress, mode and pc.
    pub fn progress(&self) -> [u64; 6]
        ensures { result ≡ progress_numbers self.now }
    {
        [
            status_number(self.status),
            self.steps,
            self.time,
            self.timer,
            mode_number(self.state.mode),
            self.state.regs.pc,
        ]
    }

    /// The header of its numbers.
    #[tactic(auto, unfolding(crate::specs::Headers::header_in))]
    pub fn of(sizes: &[u64; SIZE_NUMBERS], device: bool, numbers: &[u64; LATER_NUMBERS]) -> Header
        ensures { result ≡ header_in sizes.now device numbers.now }
    {
        let mut x = [0; 32];
        x[1..].copy_from_slice(&numbers[6..37]);
        Header {
            blocks: sizes[0],
            spaces: sizes[1],
            entries: sizes[2],
            console: sizes[3],
            device,
            status: status_of(numbers[0]),
            steps: numbers[1],
            time: numbers[2],
            timer: numbers[3],
            state: Virtual {
                regs: Regs { x, pc: numbers[5] },
                csrs: csrs_in(&numbers[37..]),
                mode: mode_of(numbers[4]),
                reservation: reservation_of(numbers[66], numbers[67]),
                first: FirstBuffer::new(),
            },
        }
    }
}
