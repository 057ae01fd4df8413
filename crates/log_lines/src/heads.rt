// What each line of a step begins with.

ghost use Rattle.std.specs.Prelude.{◌≡◌, ◌+◌, ◌≤◌, ◌++◌, codes, length};
ghost use Rattle.log_lines.specs.Lines.{head_text, mode_text};

use crate::lines::Text;
use crate::numbers::{add, add_decimal, add_wide_hex};
use arch_defs::Mode;

/// A step's number, and the mode and pc that its line names.
#[derive(Clone, Copy)]
pub struct Head {
    pub step: u64,
    pub mode: Mode,
    pub pc: u64,
}

/// The name of a mode.
pub(crate) fn mode_name(mode: Mode) -> &'static [u8]
    ensures value { result.now ≡ mode_text mode }
    ensures short { length result.now ≤ 2 }
{
    match mode {
        Mode::HS => b"HS",
        Mode::U => b"U",
        Mode::VS => b"VS",
        Mode::VU => b"VU",
    }
}

/// Adds the step, the mode and pc.
pub(crate) fn add_head(line: &mut Text, head: &Head)
    requires room { length line.old.items + 40 ≤ 320 }
    ensures text { line.new.items ≡ line.old.items ++ head_text head.now }
    ensures short { length line.new.items ≤ length line.old.items + 40 }
{
    add_decimal(line, head.step);
    add(line, b" ");
    add(line, mode_name(head.mode));
    add(line, b" ");
    add_wide_hex(line, head.pc);
}
