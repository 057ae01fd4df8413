// The section of a guest, put piece by piece.

ghost use Rattle.std.specs.Prelude.{◌≡◌, ◌≤◌, ◌∷◌, ◌++◌, length, is_ok, OnOk, OnErr};
ghost use Rattle.guest_settings.specs.Sections.{section_text};
ghost use Rattle.outside.specs.Faults.{Rose};
ghost use Rattle.outside.specs.Pieces.{Appends, Puts};
ghost use Rattle.report.specs.Puts.{unless_empty, section_pieces};

use crate::headers::header;
use guest_settings::{Name, Status};
use outside::{Sink, SinkFault};

/// What a section's header names.
#[derive(Clone, Copy)]
pub struct GuestLine<'a> {
    pub name: &'a Name,
    pub status: Status,
    pub steps: u64,
}

// Puts one piece and, unless that is empty, another.
#[tactic(auto, using(outside::proofs::Pieces::puts_then, outside::proofs::Pieces::appends_then))]
fn put_both<S: Sink>(first: &[u8], second: &[u8], out: &mut S) -> Result<(), SinkFault>
    ensures bytes { Puts S.stands_for out.old out.new (is_ok result) (first.now ++ second.now) }
    ensures pieces { OnOk result (Appends S.took out.old out.new (first.now ∷ unless_empty second.now)) }
    ensures cause { OnErr result (Rose (S.faults out.old) (S.faults out.new)) }
    ensures count { S.faults out.old ≤ S.faults out.new }
    ensures stays { S.made_with out.new ≡ S.made_with out.old }
{
    match out.put(first) {
        Ok(()) if second.is_empty() => Ok(()),
        Ok(()) => out.put(second),
        Err(e) => Err(e),
    }
}

/// Puts a guest's section into a sink: one put for the header with its line feed, one for the console unless
/// that is empty, and one for the last line feed. It has no allocator.
#[tactic(auto, using(outside::proofs::Pieces::puts_then, outside::proofs::Pieces::appends_then))]
pub fn section<S: Sink>(line: &GuestLine, console: &[u8], out: &mut S) -> Result<(), SinkFault>
    requires { length line.now.name.now ≤ 32 }
    ensures bytes { Puts S.stands_for out.old out.new (is_ok result)
        (section_text line.now.name.now line.now.status line.now.steps console.now) }
    ensures pieces { OnOk result (Appends S.took out.old out.new
        (section_pieces line.now.name.now line.now.status line.now.steps console.now)) }
    ensures cause { OnErr result (Rose (S.faults out.old) (S.faults out.new)) }
    ensures count { S.faults out.old ≤ S.faults out.new }
    ensures stays { S.made_with out.new ≡ S.made_with out.old }
{
    let bytes = console.len() as u64;
    let mut header = header(line.name.as_slice(), line.status, line.steps, bytes);
    header.try_extend_from_slice(b"\n").unwrap();
    match put_both(header.as_slice(), console, out) {
        Ok(()) => out.put(b"\n"),
        Err(e) => Err(e),
    }
}
