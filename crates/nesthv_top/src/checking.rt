// What a plan needs, as a check tells it.

ghost use Rattle.std.specs.Prelude.{◌≡◌, ◌≤◌, length, is_ok, OnErr};
ghost use Rattle.std.specs.List.{All};
ghost use Rattle.guest_turns.specs.Sources.{IsBootableSource};
ghost use Rattle.nesthv_top.specs.Plans.{name_of_source};
ghost use Rattle.outside.specs.Faults.{Rose};
ghost use Rattle.outside.specs.Pieces.{Puts};
ghost use Rattle.nesthv_top.specs.Seen.{plan_seen, IsJob};
ghost use Rattle.nesthv_top.specs.Texts.{check_text, file_length, frames_check, guest_check, guest_checks};
ghost use Rattle.outside.specs.Texts.{PutsText};

use crate::ends::Job;
use arrayvec::ArrayVec;
use guest_turns::Source;
use itoa::Buffer;
use outside::{Sink, SinkFault};

/// Puts what the guests of a job need, a line for each, and one for all.
#[tactic(auto, using(outside::proofs::Pieces::pieces, crate::proofs::CheckLines::jobs))]
pub fn check<O: Sink>(job: &Job, out: &mut O) -> Result<(), SinkFault>
    requires { IsJob job.now }
    ensures { PutsText O.Sink result out.old out.new (check_text (plan_seen job.now)) }
{
    put_guests(job.sources.as_slice(), out)?;
    out.put(frames_line(job.frames).as_slice())
}

// Puts the line of each guest, in order.
fn put_guests<O: Sink>(guests: &[Source], out: &mut O) -> Result<(), SinkFault>
    requires names { All (λ guest. length (name_of_source guest) ≤ 32) guests.now }
    requires bootable { All IsBootableSource guests.now }
    ensures { PutsText O.Sink result out.old out.new (guest_checks guests.now) }
{
    for guest in guests {
        out.put(guest_line(guest).as_slice())?;
    }
    Ok(())
}

// The name of a guest.
fn name_of(source: &Source) -> &[u8]
    ensures { result.now ≡ name_of_source source.now }
{
    match source {
        Source::Fresh(spec) => spec.name.as_slice(),
        Source::Kept(name, _) => name.as_slice(),
    }
}

// How long the file is that a guest comes from.
fn file_length(source: &Source) -> u64
    ensures { result ≡ file_length source.now }
{
    match source {
        Source::Fresh(spec) => spec.image.as_slice().len() as u64,
        Source::Kept(_, saved) => saved.size(),
    }
}

// The line of a guest. At most 94 bytes: a name of 32, two numbers of 20 digits, and 22 bytes between them.
#[tactic(auto, unfolding(crate::specs::Texts::guest_check))]
fn guest_line(source: &Source) -> ArrayVec<u8, 128>
    requires name { length (name_of_source source.now) ≤ 32 }
    requires bootable { IsBootableSource source.now }
    ensures { result.items ≡ guest_check source.now }
{
    let mut digits = Buffer::new();
    let mut line = ArrayVec::new();
    line.try_extend_from_slice(b"guest ").unwrap();
    line.try_extend_from_slice(name_of(source)).unwrap();
    line.try_extend_from_slice(b" image ").unwrap();
    line.try_extend_from_slice(digits.format(file_length(source)).as_bytes())
        .unwrap();
    line.try_extend_from_slice(b" frames ").unwrap();
    line.try_extend_from_slice(digits.format(source.need().frames()).as_bytes())
        .unwrap();
    line.try_extend_from_slice(b"\n").unwrap();
    line
}

// The line of all guests.
#[tactic(auto, unfolding(crate::specs::Texts::frames_check))]
fn frames_line(frames: u64) -> ArrayVec<u8, 64>
    ensures { result.items ≡ frames_check frames }
{
    let mut digits = Buffer::new();
    let mut line = ArrayVec::new();
    line.try_extend_from_slice(b"frames ").unwrap();
    line.try_extend_from_slice(digits.format(frames).as_bytes())
        .unwrap();
    line.try_extend_from_slice(b"\n").unwrap();
    line
}
