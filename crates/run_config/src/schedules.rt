//! The turns of a configuration, which are said in one of two forms.

ghost use Rattle.std.specs.Prelude.{◌≡◌, ◌*◌, ◌-◌, ◌^◌, ◌≤◌, ◌&&◌, nat_le, is_none, option_map, length, All, IfOk, IfSome, IfNone};
ghost use Rattle.toml.specs.View.{view, table_view, items_view};
ghost use Rattle.run_config.specs.declared.keys.ConfigKey.TheVariants as key;
ghost use Rattle.turn_plan.specs.Turns.{weighted_rounds};
ghost use Rattle.run_config.specs.declared.schedules.Schedule.TheVariants.{Rounds};
ghost use Rattle.run_config.specs.Accept.{weights_of};
ghost use Rattle.run_config.specs.Answers.{AnswersWith};
ghost use Rattle.run_config.specs.Turns.{listed_turns, quantum_and_rounds, schedule_at, schedule_fault, turns_of, weights_fault, IsFor};
ghost use Rattle.run_config.specs.Values.{pair_within, pairs_within, value_at};

use crate::ends::ReadEnd;
use crate::faults::ConfigFault;
use crate::guests::GuestSettings;
use crate::keys::ConfigKey;
use crate::pairs::pair_within;
use crate::values::{natural, number_within, value_at};
use no_memory::NoMemory;
use std::alloc::{AllocError, Global};
use toml::{Table, Value};
use turn_plan::Turns;

// The most steps of a turn.
const MOST_STEPS: u64 = 1 << 32;

// The most turns.
const MOST_TURNS: u64 = 1 << 20;

/// How the turns of a configuration are said.
#[derive(Drop)]
pub enum Schedule {
    /// One by one.
    Listed(Turns),
    /// Rounds, each of which gives each guest a turn of its weight times the quantum.
    Rounds { quantum: u64, rounds: u64 },
}

// The turn that a value is: the number of one of that many guests, and steps.
fn turn_in(guests: u32, value: &Value) -> Option<(u32, u64)>
    requires { 1 ≤ guests }
    ensures { result ≡ pair_within (guests - 1) (2 ^ 32) (view value.now) }
{
    let (guest, steps) = pair_within(u64::from(guests - 1), MOST_STEPS, value)?;
    Some((guest as u32, steps))
}

// The turns that all of these values are.
#[tactic(auto, using(crate::proofs::Pairing::no_pair))]
fn all_turns(
    alloc: Global,
    guests: u32,
    values: &[Value],
) -> Result<Option<Vec<(u32, u64)>>, NoMemory>
    requires { 1 ≤ guests }
    ensures { IfOk result (λ o. option_map (λ v. v.items) o
        ≡ pairs_within (guests - 1) (2 ^ 32) (items_view values.now)) }
{
    let mut turns = Vec::new(alloc);
    for value in values {
        let Some(turn) = turn_in(guests, value) else {
            return Ok(None)
        };
        turns.push(turn)?;
    }
    Ok(Some(turns))
}

// Whether neither `quantum` nor `rounds` is there.
fn has_no_rounds(document: &Table) -> bool
    ensures { result ≡ (is_none (value_at key.Quantum (table_view document.now))
        && is_none (value_at key.Rounds (table_view document.now))) }
{
    value_at(document, ConfigKey::Quantum).is_none()
        && value_at(document, ConfigKey::Rounds).is_none()
}

// The turns of the key `turns`, where they are as they must be.
#[tactic(auto, unfolding(crate::specs::Turns::listed_turns))]
fn listed_turns(alloc: Global, guests: u32, document: &Table) -> Result<Option<Schedule>, NoMemory>
    requires { 1 ≤ guests }
    ensures schedule { IfOk result (λ o. o ≡ listed_turns guests (table_view document.now)) }
    ensures within { IfOk result (λ o. IfSome o (IsFor guests)) }
{
    if !has_no_rounds(document) {
        return Ok(None);
    }
    let Some(value) = value_at(document, ConfigKey::Turns) else {
        return Ok(None)
    };
    let Some(values) = value.as_array() else {
        return Ok(None)
    };
    let Some(turns) = all_turns(alloc, guests, values)? else {
        return Ok(None)
    };
    if turns.len() as u64 <= MOST_TURNS {
        Ok(Some(Schedule::Listed(Turns::from_vec(turns))))
    } else {
        Ok(None)
    }
}

// Whether that many rounds of that many guests are few enough.
fn are_few(guests: u32, rounds: u64) -> bool
    ensures { result ≡ nat_le (guests * rounds) (2 ^ 20) }
{
    match u64::from(guests).checked_mul(rounds) {
        Some(turns) => turns <= MOST_TURNS,
        None => false,
    }
}

// The quantum and the number of rounds, where they are as they must be.
#[tactic(auto, unfolding(crate::specs::Turns::quantum_and_rounds))]
fn quantum_and_rounds(guests: u32, document: &Table) -> Option<Schedule>
    ensures schedule { result ≡ quantum_and_rounds guests (table_view document.now) }
    ensures within { IfSome result (IsFor guests) }
{
    let quantum = value_at(document, ConfigKey::Quantum)?;
    let quantum = number_within(0, MOST_STEPS, quantum)?;
    let rounds = value_at(document, ConfigKey::Rounds)?;
    let rounds = rounds.as_integer()?;
    let rounds = natural(rounds)?;
    if are_few(guests, rounds) {
        Some(Schedule::Rounds { quantum, rounds })
    } else {
        None
    }
}

/// How the turns of that many guests are said, where they are said in one of the two forms.
#[tactic(auto, unfolding(crate::specs::Turns::schedule_at))]
pub fn schedule_at(
    alloc: Global,
    guests: u32,
    document: &Table,
) -> Result<Option<Schedule>, NoMemory>
    requires { 1 ≤ guests }
    ensures schedule { IfOk result (λ o. o ≡ schedule_at guests (table_view document.now)) }
    ensures within { IfOk result (λ o. IfSome o (IsFor guests)) }
{
    if value_at(document, ConfigKey::Turns).is_some() {
        listed_turns(alloc, guests, document)
    } else {
        Ok(quantum_and_rounds(guests, document))
    }
}

// The weights of guests.
fn weights_of(alloc: Global, guests: &[GuestSettings]) -> Result<Vec<u64>, AllocError>
    ensures { IfOk result (λ weights. weights.items ≡ weights_of guests.now) }
{
    guests.iter().map(|guest| guest.weight).collect(alloc)
}

// The fault of the first guest whose weight times the quantum is too much.
#[tactic(auto, unfolding(crate::specs::Turns::weights_fault), using(crate::proofs::Weighing::weights))]
fn weights_fault(weights: &[u64], quantum: u64) -> Option<ConfigFault>
    requires few { length weights.now ≤ 16 }
    requires light { All (λ weight. weight ≤ 1000) weights.now }
    requires short { quantum ≤ 2 ^ 32 }
    ensures fault { result ≡ weights_fault weights.now quantum }
    ensures passed { IfNone result (All (λ weight. weight * quantum ≤ 2 ^ 32) weights.now) }
{
    for guest in 0..weights.len() {
        let product = weights[guest] * quantum;
        if product > MOST_STEPS {
            return Some(ConfigFault::weight(guest as u32, product));
        }
    }
    None
}

// The turns of rounds, unless a guest's weight is too much for the quantum.
#[tactic(auto, using(crate::proofs::Weighing::light))]
fn turns_by_rounds(
    alloc: Global,
    guests: &[GuestSettings],
    quantum: u64,
    rounds: u64,
) -> Result<Turns, ReadEnd>
    requires few { length guests.now ≤ 16 }
    requires light { All (λ g. g.weight ≤ 1000) guests.now }
    requires within { IsFor (length guests.now) (Rounds quantum rounds) }
    ensures { AnswersWith (weights_fault (weights_of guests.now) quantum)
        (weighted_rounds (weights_of guests.now) quantum rounds) result }
{
    let weights = weights_of(alloc, guests)?;
    if let Some(fault) = weights_fault(weights.as_slice(), quantum) {
        return Err(ReadEnd::Refused(fault));
    }
    Ok(Turns::of_weights(alloc, weights.as_slice(), quantum, rounds)?)
}

/// The turns of guests by their schedule.
pub fn turns_of(
    alloc: Global,
    guests: &[GuestSettings],
    schedule: Schedule,
) -> Result<Turns, ReadEnd>
    requires few { length guests.now ≤ 16 }
    requires light { All (λ g. g.weight ≤ 1000) guests.now }
    requires within { IsFor (length guests.now) schedule }
    ensures { AnswersWith (schedule_fault (weights_of guests.now) schedule)
        (turns_of (weights_of guests.now) schedule) result }
{
    match schedule {
        Schedule::Listed(turns) => Ok(turns),
        Schedule::Rounds { quantum, rounds } => turns_by_rounds(alloc, guests, quantum, rounds),
    }
}
