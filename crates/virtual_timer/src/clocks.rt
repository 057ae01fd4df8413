// The clock of a guest and its timer.

ghost use Rattle.std.specs.Prelude.{◌≡◌, ◌+◌, ◌^◌, ◌<◌, ◌≤◌, IsTrue};
ghost use Rattle.std.specs.Option.{ForSome};
ghost use Rattle.arch_defs.specs.Bits.{bit};
ghost use Rattle.arch_defs.specs.Clocks.{is_due, next_event, times_at_start};
ghost use Rattle.arch_defs.specs.CsrBits.{supervisor_interrupts};
ghost use Rattle.arch_defs.specs.Waits.{wake_moment};

use crate::waits::{enabled_by, wake_moment};
use std::marker::Model;

/// The clock of a machine and its timer. The time rises by one with each step, and a wait for an interrupt
/// moves it on at once. The timer is the moment from which on the timer interrupt is pending.
#[derive(Clone, Copy, PartialEq, Eq)]
pub struct Clock {
    time: u64,
    timer: u64,
}

impl Model for Clock {
    ghost use Rattle.arch_defs.specs.Clocks.{Times};

    ghost Value = { Times };

    ghost view = { λ c. record { time = c.time; timer = c.timer } };

    ghost inverse = { λ t. record { time = t.time; timer = t.timer } };
}

/// How a wait for an interrupt ends.
#[derive(Clone, Copy, PartialEq, Eq)]
pub enum WaitEnd {
    /// The time is the wake moment now.
    Woke,
    /// There is no wake moment.
    ForGood,
}

impl Clock {
    /// A clock at its start: at 0, its timer at 2^64 - 1.
    pub fn new() -> Clock
        ensures { result ≡ times_at_start }
    {
        Clock::at(0, u64::MAX)
    }

    /// A clock at a time, with its timer at a moment: one that goes on from there.
    pub fn at(now: u64, timer: u64) -> Clock
        ensures { result ≡ record { time = now; timer = timer } }
    {
        Clock { time: now, timer }
    }

    /// Sets the timer to a moment.
    pub fn set(&mut self, moment: u64)
        ensures { self.new ≡ record self.old { timer = moment } }
    {
        self.timer = moment;
    }

    /// The time.
    pub fn now(&self) -> u64
        ensures { result ≡ self.now.time }
    {
        self.time
    }

    /// The timer's moment, ahead or not.
    pub fn timer(&self) -> u64
        ensures { result ≡ self.now.timer }
    {
        self.timer
    }

    /// Whether the timer interrupt is pending: the time is at least the timer.
    pub fn due(&self) -> bool
        ensures { result ≡ is_due self.now }
    {
        self.timer <= self.time
    }

    /// The timer's moment, if it is ahead.
    pub fn next_event(&self) -> Option<u64>
        ensures { result ≡ next_event self.now }
    {
        if self.time < self.timer {
            Some(self.timer)
        } else {
            None
        }
    }

    /// A step has been made.
    pub fn step(&mut self)
        requires { self.old.time < 2 ^ 63 }
        ensures { self.new ≡ record self.old { time = self.old.time + 1 } }
    {
        self.time += 1;
    }

    /// The given number of steps have been made, all of which began before the timer's moment, where that was
    /// ahead.
    pub fn advance(&mut self, steps: u64)
        requires event { ForSome (next_event self.old) (λ moment. self.old.time + steps ≤ moment) }
        requires room { self.old.time + steps ≤ 2 ^ 63 }
        ensures { self.new ≡ record self.old { time = self.old.time + steps } }
    {
        self.time += steps;
    }

    /// Waits for an interrupt that `sie` enables, as HS reads it: of the timer by its bit 5, or by its bit 9
    /// of the first unread input, whose moment is `input`. The time becomes the wake moment. Where there is
    /// none, the wait is for good.
    pub fn wait(&mut self, sie: u64, input: Option<u64>) -> WaitEnd
        requires timer { IsTrue (bit 5 sie) → self.old.time < self.old.timer }
        requires input { IsTrue (bit 9 sie) → ForSome input (λ moment. self.old.time < moment) }
        ensures woke { result ≡ WaitEnd.Woke → wake_moment (supervisor_interrupts sie) self.old.timer input
            ≡ Some self.new.time }
        ensures for_good { result ≡ WaitEnd.ForGood
            → wake_moment (supervisor_interrupts sie) self.old.timer input ≡ None }
        ensures later { result ≡ WaitEnd.Woke → self.old.time < self.new.time }
        ensures stays { result ≡ WaitEnd.ForGood → self.new ≡ self.old }
        ensures timer { self.new.timer ≡ self.old.timer }
    {
        match wake_moment(enabled_by(sie), self.timer, input) {
            Some(moment) => {
                self.time = moment;
                WaitEnd::Woke
            }
            None => WaitEnd::ForGood,
        }
    }
}
