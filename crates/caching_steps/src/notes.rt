// By which step each translation was cached last.

ghost use Rattle.std.specs.Prelude.{◌≡◌, ◌≤◌, List, [], ◌∷◌, ◌++◌, length, IfOk, OnOk};
ghost use Rattle.std.specs.List.{All};
ghost use Rattle.caching_steps.specs.Noting.{first_name, is_same_name, used_name, note_if, noted_step, renewed, second_name};
ghost use Rattle.caching_steps.specs.Remembering.{notes_of};

use arch_defs::{Entry, FirstEntry, GuestRoot, SupervisorRoot, Tag};
use no_memory::NoMemory;
use run_log::Use;
use std::alloc::Global;
use std::marker::Model;

/// What names a cached translation: its page; and in the first stage for whose accesses it is and the whole
/// of satp or vsatp, in the second the whole of hgatp.
#[derive(Clone, Copy)]
pub enum CachedName {
    First(Tag, SupervisorRoot, u64),
    Second(GuestRoot, u64),
}

impl CachedName {
    // Whether `other` is the same.
    fn is_same_name(&self, other: &CachedName) -> bool
        ensures { result ≡ is_same_name self.now other.now }
    {
        match (self, other) {
            (CachedName::First(tag, atp, page), CachedName::First(other, other_atp, other_page)) =>
                { tag.is_tag(*other) && atp.is_root(*other_atp) && page == other_page }
            (CachedName::Second(hgatp, page), CachedName::Second(other, other_page)) => {
                hgatp.is_root(*other) && page == other_page
            }
            _ => false,
        }
    }
}

/// What names a translation of the first stage.
pub fn first_name(entry: &FirstEntry) -> CachedName
    ensures { result ≡ first_name entry.now }
{
    CachedName::First(entry.tag, entry.atp, entry.page)
}

/// What names one of the second stage, of the space of this hgatp.
pub fn second_name(hgatp: GuestRoot, entry: &Entry) -> CachedName
    ensures { result ≡ second_name hgatp entry.now }
{
    CachedName::Second(hgatp, entry.page)
}

/// What names the translation of a use, under this hgatp.
pub fn used_name(hgatp: GuestRoot, used: &Use) -> CachedName
    ensures { result ≡ used_name hgatp used.now }
{
    match used {
        Use::First(entry, ..) => first_name(entry),
        Use::Second(entry, ..) => second_name(hgatp, entry),
    }
}

/// A step that has cached the translation of a name.
#[derive(Clone, Copy)]
pub struct Note {
    pub name: CachedName,
    pub step: u64,
}

/// The steps that have cached each translation last, as notes. They take memory for each translation that is
/// cached, where they are renewed from time to time.
#[derive(Drop)]
pub struct CachingSteps {
    // The latest note is the last.
    notes: Vec<Note>,
}

impl Model for CachingSteps {
    ghost use Rattle.std.specs.Prelude.{List};
    ghost use Rattle.caching_steps.specs.declared.notes.Note.{Note};

    ghost Value = { List Note };

    ghost view = { λ c. c.notes.items };
}

impl CachingSteps {
    /// Of no step.
    pub fn new(alloc: Global) -> CachingSteps
        ensures { result ≡ [] }
    {
        CachingSteps {
            notes: Vec::new(alloc),
        }
    }

    /// How many notes there are.
    pub fn len(&self) -> usize
        ensures { result ≡ length self.now }
    {
        self.notes.len()
    }

    /// Notes that a step has cached a translation of the second stage, under this hgatp.
    pub fn note_second(
        &mut self,
        hgatp: GuestRoot,
        entry: &Entry,
        step: u64,
    ) -> Result<(), NoMemory>
        ensures { OnOk result (self.new ≡ self.old ++ notes_of step (second_name hgatp entry.now ∷ [])) }
    {
        push(&mut self.notes, note_of(second_name(hgatp, entry), step))
    }

    /// Notes that a step has cached a translation of the first stage.
    pub fn note_first(&mut self, entry: &FirstEntry, step: u64) -> Result<(), NoMemory>
        ensures { OnOk result (self.new ≡ self.old ++ notes_of step (first_name entry.now ∷ [])) }
    {
        push(&mut self.notes, note_of(first_name(entry), step))
    }

    /// The step that is noted for a name.
    pub fn step(&self, name: &CachedName) -> Option<u64>
        ensures { result ≡ noted_step self.now name.now }
    {
        latest(self.notes.as_slice(), name)
    }

    /// As many notes at most as there are names, which tell the same of each of these.
    #[tactic(auto, using(crate::proofs::Renewing::rules))]
    pub fn renewed(&self, alloc: Global, names: &[CachedName]) -> Result<CachingSteps, NoMemory>
        ensures same { IfOk result (λ c. All (λ name. noted_step c name ≡ noted_step self.now name)
            names.now) }
        ensures few { IfOk result (λ c. length c ≤ length names.now) }
    {
        match renewed(alloc, self.notes.as_slice(), names) {
            Ok(notes) => Ok(CachingSteps { notes }),
            Err(end) => Err(end),
        }
    }
}

fn note_of(name: CachedName, step: u64) -> Note
    ensures { result ≡ record { name = name; step = step } }
{
    Note { name, step }
}

// The step of the latest note for a name.
#[tactic(auto, using(crate::proofs::Latest::rules))]
fn latest(notes: &[Note], name: &CachedName) -> Option<u64>
    ensures { result ≡ noted_step notes.now name.now }
{
    let mut left = notes.len();
    while left > 0 {
        left -= 1;
        if notes[left].name.is_same_name(name) {
            return Some(notes[left].step);
        }
    }
    None
}

// Notes again what others tell of a name, if they tell something.
fn note_again(notes: &mut Vec<Note>, others: &[Note], name: &CachedName) -> Result<(), NoMemory>
    ensures { OnOk result (notes.new.items
        ≡ notes.old.items ++ note_if name.now (noted_step others.now name.now)) }
{
    match latest(others, name) {
        Some(step) => push(notes, Note { name: *name, step }),
        None => Ok(()),
    }
}

// What others tell of these names.
#[tactic(auto, using(crate::proofs::Renewing::each_rules), unfolding(crate::specs::Noting::renewed))]
fn renewed(alloc: Global, others: &[Note], names: &[CachedName]) -> Result<Vec<Note>, NoMemory>
    ensures { IfOk result (λ v. v.items ≡ renewed others.now names.now) }
{
    let mut notes = Vec::new(alloc);
    for i in 0..names.len() {
        note_again(&mut notes, others, &names[i])?;
    }
    Ok(notes)
}

fn push(notes: &mut Vec<Note>, note: Note) -> Result<(), NoMemory>
    ensures { OnOk result (notes.new.items ≡ notes.old.items ++ note ∷ []) }
{
    match notes.push(note) {
        Ok(()) => Ok(()),
        Err(_) => Err(NoMemory),
    }
}
