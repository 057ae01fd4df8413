// The guest that a command is about.

ghost use Rattle.std.specs.Prelude.{◌≡◌, ◌^◌, ◌<◌, ◌≤◌, Some, length, slice_index_or, IfOk, OnOk};
ghost use Rattle.std.specs.List.{All};
ghost use Rattle.command_line.specs.Commands.{OnFiles};
ghost use Rattle.guest_turns.specs.Sources.{IsBootableSource};
ghost use Rattle.guest_turns.specs.TurnLists.{own_steps};
ghost use Rattle.nesthv_top.specs.Endings.{SaysOfReads};
ghost use Rattle.nesthv_top.specs.Ends.{ended_of, IfReadFailed};
ghost use Rattle.nesthv_top.specs.Loads.{HasPassed};
ghost use Rattle.nesthv_top.specs.Seen.{plan_seen, IsJob};
ghost use Rattle.outside.specs.Faults.{Rose};
ghost use Rattle.guest_commands.specs.Guests.{IsGuestFor, IsGuestOf};
ghost use Rattle.guest_commands.specs.GuestWords.{guest_command};

use crate::guest_words::GuestRequest;
use command_line::FileRequest;
use guest_turns::Source;
use nesthv_top::{Job, LoadEnd, Loaded, Reads, load};
use outside::Store;
use std::alloc::Global;

/// A guest of a job, without the others.
#[derive(Drop)]
pub struct LoneGuest {
    pub source: Source,
    /// The steps of its own turns.
    pub steps: u64,
}

// The steps of a guest's own turns.
#[tactic(auto, using(crate::proofs::OwnSteps::own_rules))]
fn own_steps(guest: u32, turns: &[(u32, u64)]) -> u64
    requires few { length turns.now ≤ 2 ^ 20 }
    requires short { All (λ turn. turn.1 ≤ 2 ^ 32) turns.now }
    ensures value { result ≡ own_steps guest turns.now }
    ensures few { result ≤ 2 ^ 52 }
{
    let mut sum = 0;
    for i in 0..turns.len() {
        let (g, steps) = turns[i];
        if g == guest {
            sum += steps;
        }
    }
    sum
}

// Where the source of a guest stands.
fn place_of(guest: u32) -> usize
    ensures { result ≡ guest }
{
    guest as usize
}

// The source of this number.
fn source_at(sources: Vec<Source>, guest: u32) -> Source
    requires { guest < length sources.items }
    ensures { result ≡ slice_index_or sources.items guest result }
{
    let mut sources = sources;
    sources.swap_remove(place_of(guest))
}

// The guest of this number of a job.
fn lone_guest(job: Job, guest: u32) -> LoneGuest
    requires job { IsJob job }
    requires guest { guest < length job.sources.items }
    ensures source { IsBootableSource result.source }
    ensures is { IsGuestOf (plan_seen job) guest result }
    ensures few { result.steps ≤ 2 ^ 52 }
{
    let Job {
        config,
        sources,
        ..
    } = job;
    let steps = own_steps(guest, config.turns().as_slice());
    let source = source_at(sources, guest);
    LoneGuest { source, steps }
}

/// The guest that is asked for. All files of its configuration are read and tested, as for a save.
pub fn load_guest<S: Store>(
    alloc: Global,
    request: GuestRequest<'_>,
    reads: &mut Reads,
    store: &mut S,
) -> Result<LoneGuest, LoadEnd>
    requires none { reads.old.made ≡ 0 }
    ensures reads { SaysOfReads S.Store (Some (OnFiles (guest_command request.entry))) (ended_of result)
        store.old store.new }
    ensures cause { IfReadFailed result (Rose (S.faults store.old) (S.faults store.new)) }
    ensures passed { OnOk result
        (HasPassed S.Store (guest_command request.entry) reads.new.made store.old store.new) }
    ensures guest { IfOk result (IsGuestFor (S.files store.old) request.entry) }
{
    let GuestRequest { config, guest } = request;
    let Loaded { job, .. } = load(alloc, FileRequest::Save { config, guest }, reads, store)?;
    Ok(lone_guest(job, guest))
}
