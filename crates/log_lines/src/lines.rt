// A line of the log, of any kind.

ghost use Rattle.std.specs.Prelude.{◌≡◌, ◌+◌, ◌≤◌, ◌++◌, codes, length};
ghost use Rattle.log_lines.specs.Lines.{byte_text, call_text, count_text, fence_name, fence_text, line_text, page_text, id_text, wait_text, wake_text};

use crate::heads::{Head, add_head, mode_name};
use crate::numbers::{add, add_address, add_decimal, add_hex, add_wide_hex};
use crate::steps::{StepLine, add_step};
use crate::translations::{FillLine, StaleLine, add_fill, add_stale};
use crate::traps::{TrapLine, WorldLine, add_optional_hex, add_trap, add_world};
use arch_defs::Mode;
use arrayvec::ArrayVec;

/// The most bytes of a line.
pub const MOST_BYTES: usize = 320;

/// The bytes of a line.
pub type Text = ArrayVec<u8, 320>;

/// A call of the environment: its number, what a0 was, and what a0 is after it, unless it stops the guest.
#[derive(Clone, Copy)]
pub struct CallLine {
    pub head: Head,
    pub number: u64,
    pub given: u64,
    pub answer: Option<u64>,
}

/// When a wait ends: at a moment of the clock, or never.
#[derive(Clone, Copy)]
pub enum Wake {
    At(u64),
    Never,
}

/// Which fence of tables a step was.
#[derive(Clone, Copy)]
pub enum FenceOp {
    SfenceVma,
    HfenceVvma,
    HfenceGvma,
}

/// A fence: the ASID or VMID and the page that it names, where it names one, and how many cached translations
/// of each stage it dropped.
#[derive(Clone, Copy)]
pub struct FenceLine {
    pub head: Head,
    pub fence: FenceOp,
    pub id: Option<u64>,
    pub page: Option<u64>,
    pub first: u64,
    pub second: u64,
}

/// Where an instruction was executed: the mode, with V = 1 hgatp, and pc.
#[derive(Clone, Copy)]
pub struct CountKey {
    pub mode: Mode,
    pub hgatp: Option<u64>,
    pub pc: u64,
}

/// How often instructions were executed there.
#[derive(Clone, Copy)]
pub struct CountLine {
    pub key: CountKey,
    pub count: u64,
}

/// A line of the log.
#[derive(Clone, Copy)]
pub enum Line {
    Trap(TrapLine),
    World(WorldLine),
    Call(CallLine),
    /// A byte was put on the console.
    Put(Head, u8),
    /// A byte of the inputs was read.
    Got(Head, u8),
    /// A WFI.
    Wait(Head, Wake),
    Fence(FenceLine),
    Fill(FillLine),
    Stale(StaleLine),
    Step(StepLine),
    Count(CountLine),
}

// Adds the line of a call.
fn add_call(line: &mut Text, call: &CallLine)
    requires room { length line.old.items + 140 ≤ 320 }
    ensures { line.new.items ≡ line.old.items ++ call_text call.now }
{
    add(line, b"call ");
    add_head(line, &call.head);
    add(line, b" number ");
    add_decimal(line, call.number);
    add(line, b" a0 ");
    add_hex(line, call.given);
    add(line, b" answer ");
    add_optional_hex(line, call.answer);
    add(line, b"\n");
}

// Adds the line of a byte that was put or read.
fn add_byte(line: &mut Text, what: &[u8], head: &Head, byte: u8)
    requires word { length what.now ≤ 4 }
    requires room { length line.old.items + 70 ≤ 320 }
    ensures { line.new.items ≡ line.old.items ++ byte_text what.now head.now byte }
{
    add(line, what);
    add_head(line, head);
    add(line, b" ");
    add_hex(line, byte as u64);
    add(line, b"\n");
}

// Adds when a wait ends.
fn add_wake(line: &mut Text, wake: Wake)
    requires room { length line.old.items + 20 ≤ 320 }
    ensures text { line.new.items ≡ line.old.items ++ wake_text wake }
    ensures short { length line.new.items ≤ length line.old.items + 20 }
{
    match wake {
        Wake::At(moment) => add_decimal(line, moment),
        Wake::Never => add(line, b"never"),
    }
}

// Adds the line of a wait.
fn add_wait(line: &mut Text, head: &Head, wake: Wake)
    requires room { length line.old.items + 80 ≤ 320 }
    ensures { line.new.items ≡ line.old.items ++ wait_text head.now wake }
{
    add(line, b"wait ");
    add_head(line, head);
    add(line, b" until ");
    add_wake(line, wake);
    add(line, b"\n");
}

fn fence_name(fence: FenceOp) -> &'static [u8]
    ensures value { result.now ≡ fence_name fence }
    ensures short { length result.now ≤ 18 }
{
    match fence {
        FenceOp::SfenceVma => b" sfence.vma asid ",
        FenceOp::HfenceVvma => b" hfence.vvma asid ",
        FenceOp::HfenceGvma => b" hfence.gvma vmid ",
    }
}

// Adds a number that a fence names, or that it names all.
fn add_number(line: &mut Text, number: Option<u64>)
    requires room { length line.old.items + 20 ≤ 320 }
    ensures text { line.new.items ≡ line.old.items ++ id_text number }
    ensures short { length line.new.items ≤ length line.old.items + 20 }
{
    match number {
        Some(number) => add_decimal(line, number),
        None => add(line, b"all"),
    }
}

// Adds a page that a fence names, or that it names all.
fn add_named(line: &mut Text, page: Option<u64>)
    requires room { length line.old.items + 19 ≤ 320 }
    ensures text { line.new.items ≡ line.old.items ++ page_text page }
    ensures short { length line.new.items ≤ length line.old.items + 19 }
{
    match page {
        Some(page) => add_address(line, page),
        None => add(line, b"all"),
    }
}

// Adds the line of a fence.
fn add_fence(line: &mut Text, fence: &FenceLine)
    requires room { length line.old.items + 200 ≤ 320 }
    ensures { line.new.items ≡ line.old.items ++ fence_text fence.now }
{
    add(line, b"fence ");
    add_head(line, &fence.head);
    add(line, fence_name(fence.fence));
    add_number(line, fence.id);
    add(line, b" page ");
    add_named(line, fence.page);
    add(line, b" first ");
    add_decimal(line, fence.first);
    add(line, b" second ");
    add_decimal(line, fence.second);
    add(line, b"\n");
}

// Adds the line of a count.
fn add_count(line: &mut Text, count: &CountLine)
    requires room { length line.old.items + 100 ≤ 320 }
    ensures { line.new.items ≡ line.old.items ++ count_text count.now }
{
    add(line, b"count ");
    add(line, mode_name(count.key.mode));
    add(line, b" ");
    add_wide_hex(line, count.key.pc);
    add(line, b" hgatp ");
    add_optional_hex(line, count.key.hgatp);
    add(line, b" times ");
    add_decimal(line, count.count);
    add(line, b"\n");
}

// Adds a line.
#[tactic(auto, unfolding(crate::specs::Lines::line_text))]
fn add_line(text: &mut Text, line: &Line)
    requires { length text.old.items ≡ 0 }
    ensures { text.new.items ≡ text.old.items ++ line_text line.now }
{
    match line {
        Line::Trap(trap) => add_trap(text, trap),
        Line::World(world) => add_world(text, world),
        Line::Call(call) => add_call(text, call),
        Line::Put(head, byte) => add_byte(text, b"put ", head, *byte),
        Line::Got(head, byte) => add_byte(text, b"got ", head, *byte),
        Line::Wait(head, wake) => add_wait(text, head, *wake),
        Line::Fence(fence) => add_fence(text, fence),
        Line::Fill(fill) => add_fill(text, fill),
        Line::Stale(stale) => add_stale(text, stale),
        Line::Step(step) => add_step(text, step),
        Line::Count(count) => add_count(text, count),
    }
}

/// The bytes of a line, with its line feed.
pub fn text_of(line: &Line) -> Text
    ensures { result.items ≡ line_text line.now }
{
    let mut text = ArrayVec::new();
    add_line(&mut text, line);
    text
}
