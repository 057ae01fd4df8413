// A saved machine.

ghost use Rattle.std.specs.Prelude.{◌≡◌, ◌↔◌, IfOk, IsErrOf, IsTrue, OnOk, false, length, true};
ghost use Rattle.guest_save.specs.declared.saved.SaveEnd.TheVariants.{NoMemory, Bad};
ghost use Rattle.guest_save.specs.Deciding.{is_saved};
ghost use Rattle.guest_save.specs.Forms.{form_of, front_form};
ghost use Rattle.guest_save.specs.Laws.{IsNoForm};
ghost use Rattle.guest_save.specs.Needs.{machine_need};
ghost use Rattle.guest_save.specs.Reading.{machine_by};
ghost use Rattle.guest_save.specs.Savable.{IsSavable};
ghost use Rattle.guest_save.specs.Saves.{saved_form, saved_machine_in};
ghost use Rattle.guest_save.specs.Tests.{IsRead};
ghost use Rattle.guest_save.specs.Versions.{version_in};
ghost use Rattle.replay.specs.declared.comparisons.Verdict.TheVariants.{Same};

use crate::headers::Header;
use crate::machine_parts::{MachineParts, machine_by};
use crate::savable::is_savable;
use crate::snapshots::Snapshot;
use crate::versions::Version;
use crate::writing::put_front;
use arch_defs::{Entry, FirstEntry, GuestRoot, Need};
use replay::{Compare, Verdict};
use std::alloc::Global;
use std::marker::Model;
use thiserror::Error;

/// Why bytes do not give a saved machine.
#[derive(Clone, Copy, Debug, PartialEq, Eq, Error)]
pub enum SaveEnd {
    #[error("out of memory")]
    NoMemory,
    #[error("the bytes are not a saved machine")]
    Bad,
}

impl From<no_memory::NoMemory> for SaveEnd {
    ghost from_gives = { λ _ end. end ≡ NoMemory };

    fn from(_: no_memory::NoMemory) -> SaveEnd {
        SaveEnd::NoMemory
    }
}

/// A machine that was read, and that can be saved, with the version of the form that it was read from.
#[derive(Drop)]
pub struct Saved {
    version: Version,
    parts: MachineParts,
    // How many bytes the form has.
    size: u64,
}

impl Model for Saved {
    ghost use Rattle.std.specs.Prelude.{◌≡◌, length};
    ghost use Rattle.guest_save.specs.Forms.{form_of};
    ghost use Rattle.guest_save.specs.Savable.{IsSavable};
    ghost use Rattle.guest_save.specs.Saves.{SavedMachine};

    ghost Value = { SavedMachine };

    ghost view = { λ s. record { version = s.version; machine = s.parts } };

    ghost invariant = { λ s. IsSavable s.parts × (s.size ≡ length (form_of s.version s.parts)) };
}

impl Saved {
    /// What the machine needs of machine memory.
    pub fn need(&self) -> Need
        ensures { result ≡ machine_need self.now.machine }
    {
        Need {
            blocks: self.parts.header.blocks,
            spaces: self.parts.header.spaces,
            entries: self.parts.header.entries,
        }
    }

    /// How many bytes the form has that it was read from.
    pub fn size(&self) -> u64
        ensures { result ≡ length (saved_form self.now) }
    {
        self.size
    }

    /// All bytes of its RAM.
    pub fn ram(&self) -> &[u8]
        ensures { result.now ≡ self.now.machine.ram }
    {
        self.parts.ram.as_slice()
    }

    /// The machine can be saved.
    pub fn can_be_saved(&self)
        ensures { IsSavable self.now.machine }
    {
        let _ = &self.parts;
    }
}

impl Snapshot for Saved {
    ghost machine = { λ saved. saved.machine };

    fn header(&self) -> Header {
        self.parts.header()
    }

    fn console(&self) -> &[u8] {
        self.parts.console()
    }

    fn inputs(&self) -> &[(u64, u8)] {
        self.parts.inputs()
    }

    fn held(&self) -> u64 {
        self.parts.held()
    }

    fn key(&self, space: u64) -> GuestRoot {
        self.parts.key(space)
    }

    fn len(&self, space: u64) -> u64 {
        self.parts.len(space)
    }

    fn entry(&self, space: u64, place: u64) -> Entry {
        self.parts.entry(space, place)
    }

    fn first(&self) -> &[FirstEntry] {
        self.parts.first()
    }

    fn block(&self, number: u64) -> &[u8] {
        self.parts.block(number)
    }
}

// Whether a comparison has found no difference.
fn is_same(verdict: Verdict) -> bool
    ensures { IsTrue result ↔ (verdict ≡ Same) }
{
    match verdict {
        Verdict::Same => true,
        Verdict::Differs(_) => false,
    }
}

// Whether the form of a machine that was read is the bytes that it was read from. RAM is what is left of
// them, so it is not compared.
fn has_form(version: Version, parts: &MachineParts, bytes: &[u8]) -> bool
    requires { parts.now ≡ machine_by version bytes.now }
    ensures { IsTrue result ↔ (form_of version parts.now ≡ bytes.now) }
{
    let front = bytes.len() - parts.ram.len();
    let mut compare = Compare::new(&bytes[..front]);
    match put_front(version, parts, &mut compare) {
        Ok(()) => is_same(compare.verdict()),
        Err(_) => false,
    }
}

// Whether a machine that was read can be saved, and its form is the bytes.
fn is_saved(version: Version, parts: &MachineParts, bytes: &[u8]) -> bool
    requires read { IsRead parts.now }
    requires bytes { parts.now ≡ machine_by version bytes.now }
    ensures { IsTrue result ↔ (IsSavable parts.now × (form_of version parts.now ≡ bytes.now)) }
{
    is_savable(parts) && has_form(version, parts, bytes)
}

/// The machine of these bytes, where they are the form of a machine that can be saved.
///
/// # Errors
///
/// Out of memory; `Bad` exactly where they are not such a form.
pub fn read(alloc: Global, bytes: &[u8]) -> Result<Saved, SaveEnd>
    ensures machine { IfOk result (λ saved. saved ≡ saved_machine_in bytes.now) }
    ensures savable { IfOk result (λ saved. IsSavable saved.machine) }
    ensures form { IfOk result (λ saved. saved_form saved ≡ bytes.now) }
    ensures bad { IsErrOf result Bad → IsNoForm bytes.now }
    ensures tested { OnOk result (is_saved bytes.now ≡ true) }
    ensures refused { IsErrOf result Bad → is_saved bytes.now ≡ false }
{
    let version = Version::of(bytes);
    let parts = machine_by(alloc, version, bytes)?;
    if !is_saved(version, &parts, bytes) {
        return Err(SaveEnd::Bad);
    }
    Ok(Saved {
        version,
        parts,
        size: bytes.len() as u64,
    })
}
