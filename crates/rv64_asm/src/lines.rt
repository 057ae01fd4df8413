// The ops of an image, and its labels.

ghost use Rattle.std.specs.Prelude.{◌≡◌, true, Some, None};
ghost use Rattle.rv64_asm.specs.Fitting.{fits};
ghost use Rattle.rv64_asm.specs.Words.{encoded};
ghost use Rattle.rv64_asm.specs.Plans.{with_offset, distance, index_of, op_filled, reaching};
ghost use Rattle.rv64_asm.specs.Plans.{item_fault, fault_at, fault_of_offset};

use crate::encoding::encode;
use crate::faults::AsmFault;
use crate::fitting::fits;
use op_defs::Op;
use std::marker::Model;

/// A label, and the index of the op that comes next.
#[derive(Drop)]
pub struct Label {
    id: u32,
    index: u64,
}

impl Model for Label {
    ghost use Rattle.rv64_asm.specs.Plans;

    ghost Value = { Plans.Label };

    ghost view = { λ l. record { id = l.id; index = l.index } };
}

impl Label {
    pub fn new(id: u32, index: u64) -> Label
        ensures { result ≡ record { id = id; index = index } }
    {
        Label { id, index }
    }

    pub fn id(&self) -> u32
        ensures { result ≡ self.now.id }
    {
        self.id
    }

    pub fn index(&self) -> u64
        ensures { result ≡ self.now.index }
    {
        self.index
    }
}

/// The index that a label stands at, if it is set.
#[tactic(auto, using(crate::proofs::Loops::looking))]
pub fn index_of(labels: &[Label], id: u32) -> Option<u64>
    ensures { result ≡ index_of labels.now id }
{
    for label in labels {
        if label.id() == id {
            return Some(label.index());
        }
    }
    None
}

/// An op, with the label that it is to reach if it is aimed at one.
#[derive(Drop)]
pub struct Line {
    op: Op,
    target: Option<u32>,
}

impl Model for Line {
    ghost use Rattle.std.specs.Prelude.{◌≡◌, true, None};
    ghost use Rattle.rv64_asm.specs.Plans;
    ghost use Rattle.rv64_asm.specs.Fitting.{fits};

    ghost Value = { Plans.Item };

    ghost view = { λ l. record { op = l.op; target = l.target } };

    ghost invariant = { λ l. l.target ≡ None → fits l.op ≡ true };
}

impl Line {
    /// An op whose fields fit.
    pub fn of(op: Op) -> Line
        requires { fits op ≡ true }
        ensures { result ≡ record { op = op; target = None } }
    {
        Line { op, target: None }
    }

    /// An op aimed at a label.
    pub fn to(op: Op, label: u32) -> Line
        ensures { result ≡ record { op = op; target = Some label } }
    {
        Line {
            op,
            target: Some(label),
        }
    }

    /// Why there is no word for the op, if there is none.
    #[tactic(auto, unfolding(crate::specs::Plans::item_fault))]
    pub fn fault(&self, labels: &[Label], index: u64) -> Option<AsmFault>
        ensures { result ≡ item_fault labels.now index self.now }
    {
        match self.target {
            None => None,
            Some(id) => fault_at(index, self.op, id, index_of(labels, id)),
        }
    }

    /// The word of an op that has one, its offset filled in.
    #[tactic(auto, unfolding(crate::specs::Plans::op_filled))]
    pub fn word(&self, labels: &[Label], index: u64) -> u32
        requires { item_fault labels.now index self.now ≡ None }
        ensures { result ≡ encoded (op_filled labels.now index self.now) }
    {
        match self.target {
            None => encode(&self.op),
            Some(id) => encode(&reaching(index, self.op, index_of(labels, id))),
        }
    }
}

fn fault_at(index: u64, op: Op, id: u32, to: Option<u64>) -> Option<AsmFault>
    ensures { result ≡ fault_at index op id to }
{
    match to {
        None => Some(AsmFault::NoLabel(id)),
        Some(to) => fault_of_offset(distance(index, to), op),
    }
}

fn fault_of_offset(offset: u64, op: Op) -> Option<AsmFault>
    ensures { result ≡ fault_of_offset offset op }
{
    if fits(&with_offset(offset, op)) {
        None
    } else {
        Some(AsmFault::TooFar(offset.cast_signed()))
    }
}

fn reaching(index: u64, op: Op, to: Option<u64>) -> Op
    ensures { result ≡ reaching index op to }
{
    match to {
        None => op,
        Some(to) => with_offset(distance(index, to), op),
    }
}

/// The distance in bytes from the op at an index to that at another.
fn distance(from: u64, to: u64) -> u64
    ensures { result ≡ distance from to }
{
    to.wrapping_sub(from).wrapping_mul(4)
}

#[tactic(auto, unfolding(crate::specs::Plans::with_offset))]
fn with_offset(offset: u64, op: Op) -> Op
    ensures { result ≡ with_offset offset op }
{
    match op {
        Op::Jal { rd, .. } => Op::Jal { rd, offset },
        Op::Branch { test, rs1, rs2, .. } => Op::Branch {
            test,
            rs1,
            rs2,
            offset,
        },
        other => other,
    }
}
