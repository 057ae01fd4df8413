//! The list of turns of a run.

ghost use Rattle.std.specs.Prelude.{◌≡◌, ◌*◌, ◌^◌, ◌<◌, ◌≤◌, ◌++◌, All, length, IfOk, OnOk};
ghost use Rattle.std.specs.List.{slice_index};
ghost use Rattle.turn_plan.specs.Turns.{round_of, rounds_of, weighted_round, weighted_rounds};

use no_memory::NoMemory;
use std::alloc::Global;
use std::marker::Model;

/// The turns of a run in order. Each is the number of a guest, from 0 on, and at most how many steps it
/// makes.
#[derive(Drop)]
pub struct Turns {
    pairs: Vec<(u32, u64)>,
}

impl Model for Turns {
    ghost use Rattle.std.specs.Prelude.{ℕ, List};

    ghost Value = { List (ℕ × ℕ) };

    ghost view = { λ t. t.pairs.items };
}

impl Turns {
    /// These turns.
    pub fn from_vec(pairs: Vec<(u32, u64)>) -> Turns
        ensures { result ≡ pairs.items }
    {
        Turns { pairs }
    }

    /// `rounds` rounds, each of which gives each of the guests, in order, one turn of `quantum` steps.
    /// The one error is out of memory.
    #[tactic(auto, unfolding(crate::specs::Turns::rounds_of), using(crate::proofs::Rounds::turns))]
    pub fn of_rounds(
        alloc: Global,
        guests: u64,
        quantum: u64,
        rounds: u64,
    ) -> Result<Turns, NoMemory>
        requires { guests * rounds ≤ 2 ^ 20 }
        ensures { IfOk result (λ turns. turns ≡ rounds_of guests quantum rounds) }
    {
        let mut pairs = Vec::new(alloc);
        for _round in 0..rounds {
            push_round(&mut pairs, guests, quantum)?;
        }
        Ok(Turns { pairs })
    }

    /// `rounds` rounds, each of which gives each guest, in order, one turn of its weight times `quantum`
    /// steps. The one error is out of memory.
    #[tactic(auto, unfolding(crate::specs::Turns::weighted_rounds), using(crate::proofs::Rounds::weighted))]
    pub fn of_weights(
        alloc: Global,
        weights: &[u64],
        quantum: u64,
        rounds: u64,
    ) -> Result<Turns, NoMemory>
        requires few { length weights.now * rounds ≤ 2 ^ 20 }
        requires steps { All (λ weight. weight * quantum ≤ 2 ^ 32) weights.now }
        ensures { IfOk result (λ turns. turns ≡ weighted_rounds weights.now quantum rounds) }
    {
        let mut pairs = Vec::new(alloc);
        for _round in 0..rounds {
            push_weighted_round(&mut pairs, weights, quantum)?;
        }
        Ok(Turns { pairs })
    }

    /// The turns, lent.
    pub fn as_slice(&self) -> &[(u32, u64)]
        ensures { result.now ≡ self.now }
    {
        self.pairs.as_slice()
    }
}

// Adds one turn of each guest.
#[tactic(auto, using(crate::proofs::Rounds::turns))]
fn push_round(pairs: &mut Vec<(u32, u64)>, guests: u64, quantum: u64) -> Result<(), NoMemory>
    requires { guests ≤ 2 ^ 20 }
    ensures { OnOk result (pairs.new.items ≡ pairs.old.items ++ round_of guests quantum) }
{
    for guest in 0..guests {
        pairs.push((guest as u32, quantum))?;
    }
    Ok(())
}

// The turn of a guest, by its weight.
fn weighted_turn(weights: &[u64], guest: usize, quantum: u64) -> (u32, u64)
    requires there { guest < length weights.now }
    requires few { length weights.now ≤ 2 ^ 20 }
    requires steps { All (λ weight. weight * quantum ≤ 2 ^ 32) weights.now }
    ensures { result ≡ (guest, slice_index weights.now guest * quantum) }
{
    (guest as u32, weights[guest] * quantum)
}

// Adds one turn of each guest, by its weight.

fn push_weighted_round(
    pairs: &mut Vec<(u32, u64)>,
    weights: &[u64],
    quantum: u64,
) -> Result<(), NoMemory>
    requires few { length weights.now ≤ 2 ^ 20 }
    requires steps { All (λ weight. weight * quantum ≤ 2 ^ 32) weights.now }
    ensures { OnOk result (pairs.new.items ≡ pairs.old.items ++ weighted_round weights.now quantum) }
{
    for guest in 0..weights.len() {
        pairs.push(weighted_turn(weights, guest, quantum))?;
    }
    Ok(())
}
