// Questions about a guest as it is.

ghost use Rattle.std.specs.Prelude.{◌≡◌};
ghost use Rattle.guest_exit.specs.View.{machine_of};
ghost use Rattle.guest_turns.specs.Hosting.{IsHosted};
ghost use Rattle.machine_defs.specs.Machine.{Machine};

use guest_exit::Guest;
use phys_mem::{PhysMem, Ram};

/// A question about a guest, which its registers, its cached translations and its RAM answer.
pub trait Question {
    type Answer;

    // What its answer says of a machine.
    ghost answers: { Self → Machine → Self.Answer → Type 0 };

    /// Gives the answer for a guest that has this RAM, in place of another.
    fn answer(&self, guest: &Guest, ram: &Ram<'_>, answer: &mut Self::Answer)
        requires hosted { IsHosted guest.now ram.now.mem.now }
        requires ram { ram.now.part.now ≡ guest.now.part }
        ensures { answers self.now (machine_of guest.now ram.now.mem.now) answer.new };
}

/// Gives the answer to a question about a guest in this memory.
pub fn answer_in<Q: Question>(
    memory: &mut PhysMem,
    guest: &Guest,
    question: &Q,
    answer: &mut Q::Answer,
)
    requires { IsHosted guest.now memory.old }
    ensures answer { Q.answers question.now (machine_of guest.now memory.old) answer.new }
    ensures stays { memory.new ≡ memory.old }
{
    let ram = Ram::new(memory, &guest.part);
    question.answer(guest, &ram, answer);
}
