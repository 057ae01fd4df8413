// What reads the entries of a table.

ghost use Rattle.std.specs.Prelude.{◌≡◌, ℕ, ◌%◌, Result, ⊤};
ghost use Rattle.arch_defs.specs.declared.modes.Trap.{Trap};

use arch_defs::Trap;

/// What reads the entries of a table: memory, or memory through a second stage.
pub trait Fetch {
    // What it gives at each place, as the walk's definition reads it.
    ghost reading: { Self → ℕ → Result ℕ Trap };

    // What it stands on is there.
    ghost is_backed: { Self → Type 0 } = { λ _. ⊤ };

    /// The entry at a place, or the trap for which there is none.
    fn pte_at(&self, place: u64) -> Result<u64, Trap>
        requires aligned { place % 8 ≡ 0 }
        requires backed { is_backed self.now }
        ensures { result ≡ reading self.now place };
}
