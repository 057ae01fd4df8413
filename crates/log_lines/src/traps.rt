// Traps, and ways between a guest and its own guests.

ghost use Rattle.std.specs.Prelude.{◌≡◌, ◌+◌, ◌≤◌, ◌++◌, codes, length};
ghost use Rattle.log_lines.specs.Lines.{cause_text, crossing_text, gva_text, level_text, optional_hex, taken_text, trap_text, word_of_crossing, world_text};

use crate::heads::{Head, add_head};
use crate::lines::Text;
use crate::numbers::{add, add_decimal, add_hex};

/// Why a trap was taken.
#[derive(Clone, Copy)]
pub struct Cause {
    pub interrupt: bool,
    pub code: u64,
}

/// Where a trap went, with what only HS is told: the guest physical address of a guest-page fault, whether
/// tval is a guest virtual address, and htinst.
#[derive(Clone, Copy)]
pub enum Taken {
    HS {
        guest_physical: Option<u64>,
        gva: bool,
        htinst: u64,
    },
    VS,
}

/// A trap, with the mode and pc from which it was taken.
#[derive(Clone, Copy)]
pub struct TrapLine {
    pub head: Head,
    pub cause: Cause,
    pub tval: u64,
    pub taken: Taken,
}

/// A way into V = 1, or one out of it with its trap.
#[derive(Clone, Copy)]
pub enum Crossing {
    Enters,
    Leaves(Cause),
}

/// An entry of the guest into a guest of its own, or the way out: with the mode and pc of that guest, hgatp
/// and vsatp.
#[derive(Clone, Copy)]
pub struct WorldLine {
    pub head: Head,
    pub hgatp: u64,
    pub vsatp: u64,
    pub crossing: Crossing,
}

// Adds why a trap was taken.
fn add_cause(line: &mut Text, cause: &Cause)
    requires room { length line.old.items + 30 ≤ 320 }
    ensures text { line.new.items ≡ line.old.items ++ cause_text cause.now }
    ensures short { length line.new.items ≤ length line.old.items + 30 }
{
    if cause.interrupt {
        add(line, b"interrupt ");
    } else {
        add(line, b"exception ");
    }
    add_decimal(line, cause.code);
}

/// Adds a number, or a dash where there is none.
pub(crate) fn add_optional_hex(line: &mut Text, number: Option<u64>)
    requires room { length line.old.items + 16 ≤ 320 }
    ensures text { line.new.items ≡ line.old.items ++ optional_hex number }
    ensures short { length line.new.items ≤ length line.old.items + 16 }
{
    match number {
        Some(number) => add_hex(line, number),
        None => add(line, b"-"),
    }
}

fn gva_word(gva: bool) -> &'static [u8]
    ensures value { result.now ≡ gva_text gva }
    ensures short { length result.now ≤ 14 }
{
    if gva {
        b" gva 1 htinst "
    } else {
        b" gva 0 htinst "
    }
}

// Adds what HS is told beside.
fn add_taken(line: &mut Text, taken: &Taken)
    requires room { length line.old.items + 60 ≤ 320 }
    ensures text { line.new.items ≡ line.old.items ++ taken_text taken.now }
    ensures short { length line.new.items ≤ length line.old.items + 60 }
{
    match taken {
        Taken::HS {
            guest_physical,
            gva,
            htinst,
        } => {
            add(line, b" gpa ");
            add_optional_hex(line, *guest_physical);
            add(line, gva_word(*gva));
            add_hex(line, *htinst);
        }
        Taken::VS => {}
    }
}

fn level_name(taken: &Taken) -> &'static [u8]
    ensures value { result.now ≡ level_text taken.now }
    ensures short { length result.now ≤ 7 }
{
    match taken {
        Taken::HS { .. } => b" to HS ",
        Taken::VS => b" to VS ",
    }
}

/// Adds the line of a trap.
pub(crate) fn add_trap(line: &mut Text, trap: &TrapLine)
    requires room { length line.old.items + 180 ≤ 320 }
    ensures { line.new.items ≡ line.old.items ++ trap_text trap.now }
{
    add(line, b"trap ");
    add_head(line, &trap.head);
    add(line, level_name(&trap.taken));
    add_cause(line, &trap.cause);
    add(line, b" tval ");
    add_hex(line, trap.tval);
    add_taken(line, &trap.taken);
    add(line, b"\n");
}

// Adds why V = 1 was left.
fn add_crossing(line: &mut Text, crossing: &Crossing)
    requires room { length line.old.items + 31 ≤ 320 }
    ensures text { line.new.items ≡ line.old.items ++ crossing_text crossing.now }
    ensures short { length line.new.items ≤ length line.old.items + 31 }
{
    match crossing {
        Crossing::Enters => {}
        Crossing::Leaves(cause) => {
            add(line, b" ");
            add_cause(line, cause);
        }
    }
}

fn word_of(crossing: &Crossing) -> &'static [u8]
    ensures value { result.now ≡ word_of_crossing crossing.now }
    ensures short { length result.now ≤ 6 }
{
    match crossing {
        Crossing::Enters => b"enter ",
        Crossing::Leaves(_) => b"leave ",
    }
}

/// Adds the line of a way between worlds.
pub(crate) fn add_world(line: &mut Text, world: &WorldLine)
    requires room { length line.old.items + 160 ≤ 320 }
    ensures { line.new.items ≡ line.old.items ++ world_text world.now }
{
    add(line, word_of(&world.crossing));
    add_head(line, &world.head);
    add(line, b" hgatp ");
    add_hex(line, world.hgatp);
    add(line, b" vsatp ");
    add_hex(line, world.vsatp);
    add_crossing(line, &world.crossing);
    add(line, b"\n");
}
