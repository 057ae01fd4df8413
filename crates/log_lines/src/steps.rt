// Steps, with what they changed.

ghost use Rattle.std.specs.Prelude.{◌≡◌, ◌+◌, ◌≤◌, ◌++◌, codes, length};
ghost use Rattle.std.specs.Fmt.{decimal};
ghost use Rattle.log_lines.specs.Lines.{memory_value_text, register_name, step_text, word_text, written_text};

use crate::heads::{Head, add_head};
use crate::lines::Text;
use crate::numbers::{add, add_decimal, add_hex, add_word};
use arch_defs::Reg;

/// A register after the step that changed it.
#[derive(Clone, Copy)]
pub struct Written {
    pub register: Reg,
    pub value: u64,
}

/// A number of that many bytes at a physical address.
#[derive(Clone, Copy)]
pub struct MemoryValue {
    pub place: u64,
    pub width: u8,
    pub value: u64,
}

/// A step: the word of its instruction, unless it is an interrupt or has no word; the registers that it
/// changed, of which a call of the environment may change two; and the memory that it read and wrote.
#[derive(Clone, Copy)]
pub struct StepLine {
    pub head: Head,
    pub word: Option<u32>,
    pub written: Option<Written>,
    pub also: Option<Written>,
    pub read: Option<MemoryValue>,
    pub stored: Option<MemoryValue>,
}

// Adds the name of a register and the digits behind it: the letter of its group, and its number there.
fn add_numbered(line: &mut Text, letter: &[u8], number: u64)
    requires letter { length letter.now ≤ 1 }
    requires room { length line.old.items + 21 ≤ 320 }
    ensures text { line.new.items ≡ line.old.items ++ letter.now ++ decimal number }
    ensures short { length line.new.items ≤ length line.old.items + 21 }
{
    add(line, letter);
    add_decimal(line, number);
}

// Adds the name of a register of the calling convention.
#[tactic(auto, unfolding(crate::specs::Lines::register_name))]
fn add_register(line: &mut Text, register: Reg)
    requires room { length line.old.items + 21 ≤ 320 }
    ensures text { line.new.items ≡ line.old.items ++ register_name register }
    ensures short { length line.new.items ≤ length line.old.items + 21 }
{
    let number = register.number() as u64;
    match number {
        0 => add(line, b"zero"),
        1 => add(line, b"ra"),
        2 => add(line, b"sp"),
        3 => add(line, b"gp"),
        4 => add(line, b"tp"),
        5..=7 => add_numbered(line, b"t", number - 5),
        8..=9 => add_numbered(line, b"s", number - 8),
        10..=17 => add_numbered(line, b"a", number - 10),
        18..=27 => add_numbered(line, b"s", number - 16),
        _ => add_numbered(line, b"t", number - 25),
    }
}

// Adds the word of an instruction, or a dash.
fn add_optional_word(line: &mut Text, word: Option<u32>)
    requires room { length line.old.items + 8 ≤ 320 }
    ensures text { line.new.items ≡ line.old.items ++ word_text word }
    ensures short { length line.new.items ≤ length line.old.items + 8 }
{
    match word {
        Some(word) => add_word(line, word),
        None => add(line, b"-"),
    }
}

// Adds a changed register, if there is one.
fn add_written(line: &mut Text, written: &Option<Written>)
    requires room { length line.old.items + 40 ≤ 320 }
    ensures text { line.new.items ≡ line.old.items ++ written_text written.now }
    ensures short { length line.new.items ≤ length line.old.items + 40 }
{
    match written {
        Some(written) => {
            add(line, b" ");
            add_register(line, written.register);
            add(line, b" ");
            add_hex(line, written.value);
        }
        None => {}
    }
}

// Adds a piece of memory behind a word, if there is one.
fn add_memory(line: &mut Text, what: &[u8], piece: &Option<MemoryValue>)
    requires word { length what.now ≤ 7 }
    requires room { length line.old.items + 61 ≤ 320 }
    ensures text { line.new.items ≡ line.old.items ++ memory_value_text what.now piece.now }
    ensures short { length line.new.items ≤ length line.old.items + 61 }
{
    match piece {
        Some(piece) => {
            add(line, what);
            add_hex(line, piece.place);
            add(line, b" ");
            add_decimal(line, piece.width as u64);
            add(line, b" ");
            add_hex(line, piece.value);
        }
        None => {}
    }
}

/// Adds the line of a step.
pub(crate) fn add_step(line: &mut Text, step: &StepLine)
    requires room { length line.old.items + 260 ≤ 320 }
    ensures { line.new.items ≡ line.old.items ++ step_text step.now }
{
    add(line, b"step ");
    add_head(line, &step.head);
    add(line, b" ");
    add_optional_word(line, step.word);
    add_written(line, &step.written);
    add_written(line, &step.also);
    add_memory(line, b" read ", &step.read);
    add_memory(line, b" write ", &step.stored);
    add(line, b"\n");
}
