// Images: ops with labels, and bytes placed over them.

ghost use Rattle.std.specs.Prelude.{◌≡◌, ◌≢◌, ◌+◌, ◌^◌, ◌≤◌, true, Some, None, Err, length, is_some};
ghost use Rattle.std.specs.Prelude.{IfOk, IfErr, OnOk, OnErr, IsErrOf};
ghost use Rattle.rv64_asm.specs.Fitting.{fits};
ghost use Rattle.rv64_asm.specs.Plans.{empty_plan, index_of, is_aimed, with_item, with_label, with_piece};
ghost use Rattle.rv64_asm.specs.Plans.{code, first_item_fault, plan_fault, image_plan_of, IsImage};
ghost use Rattle.rv64_asm.specs.declared.faults.AsmFault.{AsmFault};

use crate::faults::AsmFault;
use crate::lines::{Label, Line, index_of};
use crate::pieces::{Piece, last_end, lay_all};
use no_memory::NoMemory;
use op_defs::Op;
use std::alloc::Global;
use std::marker::Model;

/// An image in the making: ops one after the other from place 0 on, labels between them, and placed bytes.
#[derive(Drop)]
pub struct Image {
    lines: Vec<Line>,
    labels: Vec<Label>,
    pieces: Vec<Piece>,
}

impl Model for Image {
    ghost use Rattle.rv64_asm.specs.Plans.{ImagePlan};

    ghost Value = { ImagePlan };

    ghost view = { λ i. record { items = i.lines.items; labels = i.labels.items; pieces = i.pieces.items } };
}

impl Image {
    /// An image of nothing.
    pub fn new(alloc: Global) -> Image
        ensures { result ≡ empty_plan }
    {
        Image {
            lines: Vec::new(alloc),
            labels: Vec::new(alloc),
            pieces: Vec::new(alloc),
        }
    }

    /// Pushes an op whose fields fit.
    pub fn push(&mut self, op: Op) -> Result<(), NoMemory>
        requires { fits op ≡ true }
        ensures ok { OnOk result (self.new ≡ with_item self.old (record { op = op; target = None })) }
        ensures err { OnErr result (self.new ≡ self.old) }
    {
        self.lines.push(Line::of(op))?;
        Ok(())
    }

    /// Pushes a branch or JAL, whose offset will be the distance to a label.
    pub fn push_to(&mut self, op: Op, label: u32) -> Result<(), NoMemory>
        requires { is_aimed op ≡ true }
        ensures ok { OnOk result (self.new ≡ with_item self.old (record { op = op; target = Some label })) }
        ensures err { OnErr result (self.new ≡ self.old) }
    {
        self.lines.push(Line::to(op, label))?;
        Ok(())
    }

    /// Sets a label, which is not set yet, at the next op.
    pub fn label(&mut self, id: u32) -> Result<(), NoMemory>
        requires { index_of self.old.labels id ≡ None }
        ensures ok { OnOk result (self.new ≡ with_label self.old id) }
        ensures err { OnErr result (self.new ≡ self.old) }
    {
        let index = self.lines.len() as u64;
        self.labels.push(Label::new(id, index))?;
        Ok(())
    }

    /// Whether a label is set.
    pub fn has(&self, id: u32) -> bool
        ensures { result ≡ is_some (index_of self.now.labels id) }
    {
        index_of(self.labels.as_slice(), id).is_some()
    }

    /// Places bytes, over ops wherever these are pushed, and over bytes placed before.
    pub fn place(&mut self, at: u64, bytes: &[u8]) -> Result<(), NoMemory>
        requires { at + length bytes.now ≤ 2 ^ 26 }
        ensures ok { OnOk result (self.new ≡ with_piece self.old (record { at = at; bytes = bytes.now })) }
        ensures err { OnErr result (self.new ≡ self.old) }
    {
        let alloc = *self.pieces.allocator();
        let piece = Piece::new(alloc, at, bytes)?;
        self.pieces.push(piece)?;
        Ok(())
    }

    /// The bytes of the image: the ops' words, over them the placed bytes, and zeros in the gaps.
    ///
    /// Refuses the first op whose label is not set (`NoLabel`) or too far away (`TooFar`), before any memory
    /// is taken; so out of memory (`NoMemory`) never stands in its place.
    #[tactic(auto, using(crate::proofs::Faultless::wants_none))]
    pub fn finish(self) -> Result<Vec<u8>, AsmFault>
        ensures ok { OnOk result (plan_fault self ≡ None) }
        ensures image { IfOk result (λ v. IsImage self v.items) }
        ensures fault { (e : AsmFault) → plan_fault self ≡ Some e → result ≡ Err e }
        ensures err { IfErr result (λ e. e ≢ AsmFault.NoMemory → plan_fault self ≡ Some e) }
        ensures memory { IsErrOf result AsmFault.NoMemory → plan_fault self ≡ None }
    {
        if let Some(fault) = first_item_fault(self.lines.as_slice(), self.labels.as_slice()) {
            return Err(fault);
        }
        let bytes = bytes_of(
            self.lines.as_slice(),
            self.labels.as_slice(),
            self.pieces.as_slice(),
            *self.lines.allocator(),
        );
        match bytes {
            Ok(bytes) => Ok(bytes),
            Err(_) => Err(AsmFault::NoMemory),
        }
    }
}

// The first fault of ops.
#[tactic(auto, using(crate::proofs::Loops::faults))]
fn first_item_fault(lines: &[Line], labels: &[Label]) -> Option<AsmFault>
    ensures { result ≡ first_item_fault labels.now 0 lines.now }
{
    let mut index = 0;
    while index < lines.len() {
        let fault = lines[index].fault(labels, index as u64);
        if fault.is_some() {
            return fault;
        }
        index += 1;
    }
    None
}

// The words of ops without a fault, with pieces laid over them.
fn bytes_of(
    lines: &[Line],
    labels: &[Label],
    pieces: &[Piece],
    alloc: Global,
) -> Result<Vec<u8>, NoMemory>
    requires { first_item_fault labels.now 0 lines.now ≡ None }
    ensures { IfOk result (λ v. IsImage (image_plan_of lines.now labels.now pieces.now) v.items) }
{
    let mut bytes = assemble(lines, labels, alloc)?;
    let size = (bytes.len() as u64).max(last_end(pieces));
    bytes.resize(size as usize, 0)?;
    lay_all(bytes.as_mut_slice(), pieces);
    Ok(bytes)
}

// The words of ops without a fault, one after the other.
fn assemble(lines: &[Line], labels: &[Label], alloc: Global) -> Result<Vec<u8>, NoMemory>
    requires { first_item_fault labels.now 0 lines.now ≡ None }
    ensures { IfOk result (λ v. v.items ≡ code labels.now 0 lines.now) }
{
    let mut bytes = Vec::new(alloc);
    let mut index = 0;
    while index < lines.len() {
        let word = lines[index].word(labels, index as u64);
        bytes.extend_from_slice(&word.to_le_bytes())?;
        index += 1;
    }
    Ok(bytes)
}
