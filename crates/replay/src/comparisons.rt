// A report that is compared with a stored one while it is written.

ghost use Rattle.std.specs.Prelude.{◌≡◌, ◌+◌, ◌≤◌, ◌||◌, ℕ, List, drop, false, if◌then◌else◌, length, nat_lt};
ghost use Rattle.replay.specs.Comparisons.{agreeing, Saw, verdict_of};

use outside::{Sink, SinkFault};
use std::marker::Model;

/// Whether bytes are those that were expected.
#[derive(Clone, Copy, PartialEq, Eq)]
pub enum Verdict {
    /// All bytes are the same, and there are equally many.
    Same,
    /// The first place, counted from 0, where the bytes differ; the shorter length where the shorter of the
    /// two is the beginning of the longer.
    Differs(u64),
}

/// A sink that compares its pieces with expected bytes. It keeps none of the pieces, takes no memory, and
/// never fails.
#[derive(Drop)]
pub struct Compare<'a> {
    expected: &'a [u8],
    // How many bytes agree, from the first on.
    place: usize,
    // Whether more bytes came than agree.
    differs: bool,
}

impl<'a> Model for Compare<'a> {
    ghost use Rattle.std.specs.Prelude.{◌≤◌, length};
    ghost use Rattle.replay.specs.Comparisons.{Comparison};

    ghost Value = { Comparison };

    ghost view = { λ c. record { expected = c.expected.now; place = c.place; differs = c.differs } };

    ghost invariant = { λ c. c.place ≤ length c.expected.now };
}

impl<'a> Compare<'a> {
    /// Expects these bytes; nothing has been put yet.
    pub fn new(expected: &'a [u8]) -> Compare<'a>
        ensures { result ≡ record { expected = expected.entry.now; place = 0; differs = false } }
    {
        Compare {
            expected,
            place: 0,
            differs: false,
        }
    }

    /// Whether the bytes that were put are those that are expected.
    #[tactic(auto, using(crate::proofs::Verdicts::verdicts))]
    pub fn verdict(&self) -> Verdict
        ensures { (bytes : List ℕ) → Saw self.now bytes → result ≡ verdict_of self.now.expected bytes }
    {
        verdict_at(self.place, self.expected.len(), self.differs)
    }
}

impl<'a> Sink for Compare<'a> {
    ghost stands_for = { Saw };

    ghost took = { λ _ _. ⊥ };

    ghost faults = { λ _. 0 };

    ghost made_with = { λ c. c.expected };

    #[tactic(auto, using(crate::proofs::Verdicts::pieces))]
    fn put(&mut self, piece: &[u8]) -> Result<(), SinkFault> {
        if !self.differs {
            let alike = agreeing_from(self.expected, self.place, piece);
            self.place += alike;
            self.differs = alike < piece.len();
        }
        Ok(())
    }
}

// What a comparison says at its place among this many expected bytes; `more` where further bytes came.
fn verdict_at(place: usize, length: usize, more: bool) -> Verdict
    ensures { result ≡ (if more || nat_lt place length then Verdict.Differs place else Verdict.Same) }
{
    if more || place < length {
        Verdict::Differs(place as u64)
    } else {
        Verdict::Same
    }
}

// How many bytes of two lists agree, from the first on.
#[tactic(auto, using(crate::proofs::Verdicts::bytes_alike))]
fn agreeing(expected: &[u8], bytes: &[u8]) -> usize
    ensures { result ≡ agreeing expected.now bytes.now }
{
    let mut alike = 0;
    while alike < expected.len() && alike < bytes.len() {
        if expected[alike] != bytes[alike] {
            return alike;
        }
        alike += 1;
    }
    alike
}

// How many bytes of the expected ones from this place on agree with these, from the first on.
#[tactic(auto, using(crate::proofs::Verdicts::rest_alike))]
fn agreeing_from(expected: &[u8], place: usize, bytes: &[u8]) -> usize
    requires { place ≤ length expected.now }
    ensures alike { result ≡ agreeing (drop place expected.now) bytes.now }
    ensures within { place + result ≤ length expected.now }
{
    agreeing(&expected[place..], bytes)
}
