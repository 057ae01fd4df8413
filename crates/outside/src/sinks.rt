// What a command writes in.

ghost use Rattle.std.specs.Prelude.{◌≡◌, ℕ, ◌≤◌, List, [], ◌∷◌, is_ok, OnOk, OnErr};
ghost use Rattle.outside.specs.Faults.{Rose};
ghost use Rattle.outside.specs.Pieces.{Appends, Puts};

use thiserror::Error;

/// A piece was not taken whole.
#[derive(Clone, Copy, Debug, PartialEq, Eq, Error)]
pub enum SinkFault {
    #[error("the bytes could not be written")]
    Failed,
}

/// A stream of bytes that pieces are appended to.
pub trait Sink {
    // The lists of bytes that the sink may have been given; no list where it tells nothing of them.
    ghost stands_for: { Self → List ℕ → Type 0 };

    // The lists of pieces that its puts may have taken; no list where it tells nothing of them.
    ghost took: { Self → List (List ℕ) → Type 0 };

    ghost faults: { Self → ℕ };

    // What the sink was made with, which no put changes.
    ghost made_with: { Self → List ℕ } = { λ _. [] };

    /// Appends the piece, or a front of it where it answers a fault.
    fn put(&mut self, piece: &[u8]) -> Result<(), SinkFault>
        ensures bytes { Puts stands_for self.old self.new (is_ok result) piece.now }
        ensures piece { OnOk result (Appends took self.old self.new (piece.now ∷ [])) }
        ensures cause { OnErr result (Rose (faults self.old) (faults self.new)) }
        ensures count { faults self.old ≤ faults self.new }
        ensures stays { made_with self.new ≡ made_with self.old };
}
