// The generator of numbers.

ghost use Rattle.std.specs.Prelude.{◌≡◌, ◌<◌, ◌^◌, ◌≤◌};
ghost use Rattle.work_images.specs.Numbers.{drawn, following};

use std::marker::Model;

/// A generator at one of its numbers, which is below 2^31.
#[derive(Drop)]
pub struct Numbers {
    x: u64,
}

impl Model for Numbers {
    ghost use Rattle.std.specs.Prelude.{ℕ, ◌<◌, ◌^◌};

    ghost Value = { ℕ };

    ghost view = { λ g. g.x };

    ghost invariant = { λ g. g.x < 2 ^ 31 };
}

impl Numbers {
    /// The generator at its seed.
    pub fn new(seed: u64) -> Numbers
        requires { seed < 2 ^ 31 }
        ensures { result ≡ seed }
    {
        Numbers { x: seed }
    }

    /// Goes to the next number, and draws one of `n` by it.
    pub fn draw(&mut self, n: u64) -> u64
        requires { 1 ≤ n }
        ensures next { self.new ≡ following self.old }
        ensures value { result ≡ drawn n self.new }
        ensures small { result < n }
    {
        self.x = (self.x * 1_103_515_245 + 12345) % 0x8000_0000;
        self.x / 65536 % n
    }
}
