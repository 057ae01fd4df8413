//! A configuration that was accepted.

ghost use Rattle.std.specs.Prelude.{◌≡◌};
ghost use Rattle.run_config.specs.Configurations.{IsWithinLimits};

use crate::guests::GuestSettings;
use std::marker::Model;
use turn_plan::Turns;

/// A configuration that was accepted: the guests in their order, the turns, and how many spare blocks there
/// are.
#[derive(Drop)]
pub struct Config {
    guests: Vec<GuestSettings>,
    turns: Turns,
    spare: u64,
}

impl Model for Config {
    ghost use Rattle.run_config.specs.Configurations.{Configuration, IsWithinLimits};

    ghost Value = { Configuration };

    ghost use Rattle.run_config.specs.Kept.{kept};

    ghost view = { kept };

    ghost invariant = { λ c. IsWithinLimits (kept c) };
}

impl Config {
    /// The configuration of these guests and turns, with that many spare blocks.
    pub(crate) fn new(guests: Vec<GuestSettings>, turns: Turns, spare: u64) -> Config
        requires { IsWithinLimits (record { guests = guests.items; turns = turns; spare = spare }) }
        ensures { result ≡ record { guests = guests.items; turns = turns; spare = spare } }
    {
        Config {
            guests,
            turns,
            spare,
        }
    }

    /// The guests, in their order.
    pub fn guests(&self) -> &[GuestSettings]
        ensures guests { result.now ≡ self.now.guests }
        ensures limits { IsWithinLimits self.now }
    {
        self.guests.as_slice()
    }

    /// The turns.
    pub fn turns(&self) -> &Turns
        ensures turns { result.now ≡ self.now.turns }
        ensures limits { IsWithinLimits self.now }
    {
        &self.turns
    }

    /// How many spare blocks there are, each of 2,097,152 bytes: 0 to 32, and 0 in format 1.
    pub fn spare(&self) -> u64
        ensures spare { result ≡ self.now.spare }
        ensures limits { IsWithinLimits self.now }
    {
        self.spare
    }
}
