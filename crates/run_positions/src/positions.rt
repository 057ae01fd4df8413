// A run, at one of its positions.

ghost use Rattle.std.specs.Prelude.{◌≡◌, ◌⊎◌, ◌+◌, ◌-◌, ◌^◌, ◌<◌, ◌≤◌, ◌++◌, ◌∷◌, [], length, ℕ, IfOk, IfSome, OnErr, OnOk};
ghost use Rattle.run_positions.specs.Looks.{offset_of};
ghost use Rattle.run_positions.specs.Positions.{begin_of, shown_of, HasKept, IsKeptState, IsShown, KeepsRun};
ghost use Rattle.run_positions.specs.Stops.{last_stop, next_stop, IsFoundFrom};

use crate::kept::Kept;
use crate::runners::Runner;
use crate::stops::{Stops, goes_on};
use form_pool::FormPool;
use no_memory::NoMemory;
use std::alloc::Global;

/// The latest position.
pub const LAST: u64 = 1 << 52;

// How many steps of a machine, at most, let it be kept.
const KEPT_STEPS: u64 = 1 << 60;

// How many steps are between the first two states that are kept. Each further distance is greater by as many.
const GAP: u64 = 16_384;

// The machine that the run begins with.
const BEGIN: Kept = Kept { place: 0, form: 0 };

/// A run of a machine at a position, which is after how many steps it is shown, with states that are kept.
/// The first form of the pool is that of the start.
#[derive(Drop)]
pub struct Positions<R> {
    runner: R,
    place: u64,
    forms: FormPool,
    kept: Vec<Kept>,
    // Where the form is written that brings a state back.
    bytes: Vec<u8>,
    next: u64,
    gap: u64,
}

// Keeps the state of a machine behind the forms that are kept.
#[tactic(auto, using(crate::proofs::Moving::forms_kept))]
fn keep_state<R: Runner>(runner: &R, forms: &mut FormPool) -> Result<(), NoMemory>
    requires { (R.machine runner.now).platform.steps ≤ 2 ^ 60 }
    ensures kept { OnOk result (HasKept R.Runner (R.machine runner.now) forms.old forms.new) }
    ensures stays { OnErr result (forms.new.kept ≡ forms.old.kept) }
{
    forms.restart();
    runner.keep(forms)?;
    forms.keep()
}

// Adds a state to those that are kept, where there is memory for it.
fn add_state(kept: &mut Vec<Kept>, state: Kept)
    ensures { (kept.new.items ≡ kept.old.items) ⊎ (kept.new.items ≡ kept.old.items ++ state ∷ []) }
{
    let _ = kept.push(state);
}

// The place of the next state that is to be kept, where it comes before a later place and the machine goes on;
// else that later place.
fn place_before(place: u64, next: u64, n: u64, goes_on: bool) -> u64
    requires { place < n }
    ensures later { place < result }
    ensures within { result ≤ n }
{
    if goes_on && place < next && next < n {
        next
    } else {
        n
    }
}

impl<R: Runner + Drop> Positions<R> {
    /// The run of a machine, at its start.
    #[tactic(auto, using(crate::proofs::Moving::begun))]
    pub fn new(alloc: Global, runner: R) -> Result<Positions<R>, NoMemory>
        requires { (R.machine runner).platform.steps ≤ 2 ^ 60 }
        ensures held { IfOk result (IsShown R.Runner) }
        ensures origin { IfOk result (λ p. begin_of R.Runner p ≡ R.machine runner) }
        ensures place { IfOk result (λ p. p.place ≡ 0) }
    {
        let mut forms = FormPool::new(alloc);
        keep_state(&runner, &mut forms)?;
        Ok(Positions {
            runner,
            place: 0,
            forms,
            kept: Vec::new(alloc),
            bytes: Vec::new(alloc),
            next: GAP,
            gap: GAP,
        })
    }

    /// After how many steps the machine is shown.
    pub fn place(&self) -> u64
        ensures { result ≡ self.now.place }
    {
        self.place
    }

    /// What runs the machine, lent to be read.
    pub fn runner(&self) -> &R
        ensures { result.now ≡ self.now.runner }
    {
        &self.runner
    }

    /// The offset into RAM of an address, by the walk of the present mode, if it has one.
    #[tactic(auto, using(crate::proofs::Moving::left_alone))]
    pub fn offset(&mut self, va: u64) -> Option<u64>
        requires held { IsShown R.Runner self.old }
        ensures offset { result ≡ offset_of (shown_of R.Runner self.old) va }
        ensures keeps { KeepsRun R.Runner self.old self.new }
        ensures machine { shown_of R.Runner self.new ≡ shown_of R.Runner self.old }
        ensures place { self.new.place ≡ self.old.place }
    {
        self.runner.offset(va)
    }

    // Makes steps.
    #[tactic(auto, using(crate::proofs::Moving::moved))]
    fn run_on(&mut self, k: u64)
        requires held { IsShown R.Runner self.old }
        requires few { self.old.place + k ≤ 2 ^ 52 }
        ensures keeps { KeepsRun R.Runner self.old self.new }
        ensures place { self.new.place ≡ self.old.place + k }
    {
        self.runner.run(k);
        self.place += k;
    }

    // Keeps the state of this position, where there is memory for it, and says when the next is to be kept.
    #[tactic(auto, using(crate::proofs::Moving::no_state_kept))]
    fn keep(&mut self)
        requires held { IsShown R.Runner self.old }
        ensures keeps { KeepsRun R.Runner self.old self.new }
        ensures place { self.new.place ≡ self.old.place }
    {
        self.gap = self.gap.saturating_add(GAP);
        self.next = self.place.saturating_add(self.gap);
        if self.runner.steps() <= KEPT_STEPS {
            let form = self.forms.count();
            if let Ok(()) = keep_state(&self.runner, &mut self.forms) {
                let place = self.place;
                add_state(&mut self.kept, Kept { place, form });
            }
        }
    }

    // Makes some of the steps to a later position: as many as stand before the next state that is to be kept.
    fn advance(&mut self, n: u64)
        requires held { IsShown R.Runner self.old }
        requires later { self.old.place < n }
        requires few { n ≤ 2 ^ 52 }
        ensures keeps { KeepsRun R.Runner self.old self.new }
        ensures later { self.old.place < self.new.place }
        ensures within { self.new.place ≤ n }
    {
        let to = place_before(self.place, self.next, n, goes_on(self.runner.status()));
        self.run_on(to - self.place);
        if self.place == self.next {
            self.keep();
        }
    }

    // Makes all steps to a later position.
    #[tactic(auto, using(crate::proofs::Moving::keepings))]
    fn go_on(&mut self, n: u64)
        requires held { IsShown R.Runner self.old }
        requires later { self.old.place ≤ n }
        requires few { n ≤ 2 ^ 52 }
        ensures keeps { KeepsRun R.Runner self.old self.new }
        ensures place { self.new.place ≡ n }
    {
        while self.place < n {
            self.advance(n);
        }
    }

    // The latest state that is kept and not behind a position, or that of the start.
    #[tactic(auto, using(crate::proofs::Moving::begin_is_kept))]
    fn nearest(&self, n: u64) -> Kept
        requires held { IsShown R.Runner self.now }
        ensures kept { IsKeptState R.Runner (begin_of R.Runner self.now) self.now.forms.kept result }
        ensures within { result.place ≤ n }
    {
        let mut found = BEGIN;
        for i in 0..self.kept.len() {
            let state = self.kept[i];
            if found.place < state.place && state.place <= n {
                found = state;
            }
        }
        found
    }

    // Brings back a state that is kept.
    #[tactic(auto, using(crate::proofs::Moving::bringings))]
    fn bring(&mut self, alloc: Global, state: Kept) -> Result<(), NoMemory>
        requires held { IsShown R.Runner self.old }
        requires kept { IsKeptState R.Runner (begin_of R.Runner self.old) self.old.forms.kept state }
        ensures keeps { KeepsRun R.Runner self.old self.new }
        ensures place { OnOk result (self.new.place ≡ state.place) }
        ensures stays { OnErr result (self.new.place ≡ self.old.place) }
    {
        self.forms.write(state.form, &mut self.bytes)?;
        self.runner.bring_back(alloc, self.bytes.as_slice())?;
        self.place = state.place;
        Ok(())
    }

    // Brings back the latest state that is kept and not behind a position, or that of the start. Where there
    // is no memory for it, the position stays.
    fn bring_back(&mut self, alloc: Global, n: u64) -> Result<(), NoMemory>
        requires held { IsShown R.Runner self.old }
        ensures keeps { KeepsRun R.Runner self.old self.new }
        ensures place { OnOk result (self.new.place ≤ n) }
        ensures stays { OnErr result (self.new.place ≡ self.old.place) }
    {
        let state = self.nearest(n);
        self.bring(alloc, state)
    }

    /// Shows the machine after `n` steps. Where there is no memory for it, the position stays.
    #[tactic(auto, using(crate::proofs::Moving::keepings))]
    pub fn go_to(&mut self, alloc: Global, n: u64) -> Result<(), NoMemory>
        requires held { IsShown R.Runner self.old }
        requires few { n ≤ 2 ^ 52 }
        ensures keeps { KeepsRun R.Runner self.old self.new }
        ensures place { OnOk result (self.new.place ≡ n) }
        ensures stays { OnErr result (self.new.place ≡ self.old.place) }
    {
        if n < self.place {
            self.bring_back(alloc, n)?;
        }
        self.go_on(n);
        Ok(())
    }

    // Goes on to a position, and answers the last one before it, from this one on, at which a stop holds.
    #[tactic(auto, using(crate::proofs::Stopping::scannings))]
    fn scan(&mut self, high: u64, stops: &Stops) -> Option<u64>
        requires held { IsShown R.Runner self.old }
        requires later { self.old.place ≤ high }
        requires few { high ≤ 2 ^ 52 }
        ensures keeps { KeepsRun R.Runner self.old self.new }
        ensures found { IsFoundFrom (begin_of R.Runner self.old) stops.now self.old.place high result }
        ensures early { IfSome result (λ place. place < high) }
    {
        let mut found = None;
        while self.place < high {
            found = self.noted(stops, found);
            self.run_on(1);
        }
        found
    }

    // What was found before, or this position, if a stop holds at it.
    #[tactic(auto, using(crate::proofs::Stopping::notings))]
    fn noted(&self, stops: &Stops, found: Option<u64>) -> Option<u64>
        requires held { IsShown R.Runner self.now }
        requires early { IfSome found (λ place. place < self.now.place) }
        ensures found { (low : ℕ)
            → IsFoundFrom (begin_of R.Runner self.now) stops.now low self.now.place found
            → IsFoundFrom (begin_of R.Runner self.now) stops.now low (self.now.place + 1) result }
        ensures early { IfSome result (λ place. place < self.now.place + 1) }
    {
        if stops.hold(&self.runner) {
            Some(self.place)
        } else {
            found
        }
    }

    /// Goes back to the last earlier position at which a stop holds, or to the start. Where there is no
    /// memory for it, the position is any.
    #[tactic(auto, using(crate::proofs::Stopping::goings_back))]
    pub fn back_to_stop(&mut self, alloc: Global, stops: &Stops) -> Result<(), NoMemory>
        requires held { IsShown R.Runner self.old }
        ensures keeps { KeepsRun R.Runner self.old self.new }
        ensures place { OnOk result
            (self.new.place ≡ last_stop (begin_of R.Runner self.old) stops.now self.old.place) }
    {
        let mut high = self.place;
        while high > 0 {
            self.bring_back(alloc, high - 1)?;
            let low = self.place;
            match self.scan(high, stops) {
                Some(place) => return self.go_to(alloc, place),
                None => high = low,
            }
        }
        self.go_to(alloc, 0)
    }

    /// Goes on to the first later position, up to `n`, at which a stop holds or the machine does not go on,
    /// or to `n`. It stays where it is not before `n`.
    #[tactic(auto, using(crate::proofs::Stopping::goings_on))]
    pub fn on_to_stop(&mut self, stops: &Stops, n: u64)
        requires held { IsShown R.Runner self.old }
        requires few { n ≤ 2 ^ 52 }
        ensures keeps { KeepsRun R.Runner self.old self.new }
        ensures place { self.new.place
            ≡ next_stop (begin_of R.Runner self.old) stops.now self.old.place (n - self.old.place) }
    {
        while self.place < n {
            self.go_on(self.place + 1);
            if stops.end(&self.runner) {
                return;
            }
        }
    }
}
