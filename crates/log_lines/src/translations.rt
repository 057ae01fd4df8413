// Cached translations, and stale ones that are used.

ghost use Rattle.std.specs.Prelude.{◌≡◌, ◌+◌, ◌≤◌, ◌++◌, codes, length, if◌then◌else◌};
ghost use Rattle.log_lines.specs.Lines.{fill_text, leaf_text, mark, now_text, since_text, stage_text, stale_text, translation_text};

use crate::heads::{Head, add_head};
use crate::lines::Text;
use crate::numbers::{add, add_address, add_decimal};
use crate::traps::add_optional_hex;

/// A stage of translation.
#[derive(Clone, Copy)]
pub enum Stage {
    First,
    Second,
}

/// A leaf for one page: the frame, what is permitted (`w` is its W and D), and the level of the leaf.
#[derive(Clone, Copy)]
pub struct Leaf {
    pub frame: u64,
    pub r: bool,
    pub w: bool,
    pub x: bool,
    pub u: bool,
    pub level: u8,
}

/// A translation that is cached: for hgatp, where it is for accesses with V = 1; of the first stage, also for
/// satp or vsatp; of a page.
#[derive(Clone, Copy)]
pub struct Translation {
    pub stage: Stage,
    pub hgatp: Option<u64>,
    pub atp: Option<u64>,
    pub page: u64,
    pub leaf: Leaf,
}

/// A step has cached a translation.
#[derive(Clone, Copy)]
pub struct FillLine {
    pub head: Head,
    pub filled: Translation,
}

/// A step uses a cached translation that its tables do not give: the leaf that they give now, if any, and the
/// step that cached it, unless that was before the run.
#[derive(Clone, Copy)]
pub struct StaleLine {
    pub head: Head,
    pub used: Translation,
    pub walked: Option<Leaf>,
    pub since: Option<u64>,
}

fn stage_name(stage: Stage) -> &'static [u8]
    ensures value { result.now ≡ stage_text stage }
    ensures short { length result.now ≤ 6 }
{
    match stage {
        Stage::First => b"first",
        Stage::Second => b"second",
    }
}

fn mark(permitted: bool, letter: u8) -> u8
    ensures { result ≡ mark permitted letter }
{
    if permitted { letter } else { b'-' }
}

// Adds a leaf.
fn add_leaf(line: &mut Text, leaf: &Leaf)
    requires room { length line.old.items + 64 ≤ 320 }
    ensures text { line.new.items ≡ line.old.items ++ leaf_text leaf.now }
    ensures short { length line.new.items ≤ length line.old.items + 64 }
{
    add(line, b"frame ");
    add_address(line, leaf.frame);
    add(line, b" rights ");
    add(
        line,
        &[
            mark(leaf.r, b'r'),
            mark(leaf.w, b'w'),
            mark(leaf.x, b'x'),
            mark(leaf.u, b'u'),
        ],
    );
    add(line, b" level ");
    add_decimal(line, leaf.level as u64);
}

// Adds a cached translation.
fn add_translation(line: &mut Text, translation: &Translation)
    requires room { length line.old.items + 140 ≤ 320 }
    ensures text { line.new.items ≡ line.old.items ++ translation_text translation.now }
    ensures short { length line.new.items ≤ length line.old.items + 140 }
{
    add(line, stage_name(translation.stage));
    add(line, b" hgatp ");
    add_optional_hex(line, translation.hgatp);
    add(line, b" atp ");
    add_optional_hex(line, translation.atp);
    add(line, b" page ");
    add_address(line, translation.page);
    add(line, b" ");
    add_leaf(line, &translation.leaf);
}

/// Adds the line of a fill.
pub(crate) fn add_fill(line: &mut Text, fill: &FillLine)
    requires room { length line.old.items + 190 ≤ 320 }
    ensures { line.new.items ≡ line.old.items ++ fill_text fill.now }
{
    add(line, b"fill ");
    add_head(line, &fill.head);
    add(line, b" ");
    add_translation(line, &fill.filled);
    add(line, b"\n");
}

// Adds what the tables give now.
fn add_now(line: &mut Text, walked: &Option<Leaf>)
    requires room { length line.old.items + 70 ≤ 320 }
    ensures text { line.new.items ≡ line.old.items ++ now_text walked.now }
    ensures short { length line.new.items ≤ length line.old.items + 70 }
{
    add(line, b" now ");
    match walked {
        Some(leaf) => add_leaf(line, leaf),
        None => add(line, b"nothing"),
    }
}

// Adds since when it has been cached.
fn add_since(line: &mut Text, since: Option<u64>)
    requires room { length line.old.items + 30 ≤ 320 }
    ensures text { line.new.items ≡ line.old.items ++ since_text since }
    ensures short { length line.new.items ≤ length line.old.items + 30 }
{
    match since {
        Some(step) => {
            add(line, b" since ");
            add_decimal(line, step);
        }
        None => add(line, b" since before"),
    }
}

/// Adds the line of a stale use.
pub(crate) fn add_stale(line: &mut Text, stale: &StaleLine)
    requires room { length line.old.items + 300 ≤ 320 }
    ensures { line.new.items ≡ line.old.items ++ stale_text stale.now }
{
    add(line, b"stale ");
    add_head(line, &stale.head);
    add(line, b" ");
    add_translation(line, &stale.used);
    add_now(line, &stale.walked);
    add_since(line, stale.since);
    add(line, b"\n");
}
