// What runs a machine.

ghost use Rattle.std.specs.Prelude.{◌≡◌, ◌+◌, ◌^◌, ◌≤◌, ℕ, List, [], slice_index, OnErr, OnOk};
ghost use Rattle.guest_settings.specs.declared.statuses.Status.{Status};
ghost use Rattle.machine_defs.specs.Machine.{Machine};
ghost use Rattle.machine_defs.specs.Runs.{run};
ghost use Rattle.run_positions.specs.Looks.{offset_of};

use arch_defs::Virtual;
use form_pool::FormPool;
use machine_defs::Status;
use no_memory::NoMemory;
use std::alloc::Global;

/// What runs a machine, shows it, keeps it as bytes, and brings it back from them.
pub trait Runner {
    ghost machine: { Self → Machine };

    // Which bytes it has given for a machine, and the machine of such bytes.
    ghost is_form: { List ℕ → Type 0 };

    ghost machine_in: { List ℕ → Machine };

    /// Makes at most `k` steps: fewer only where the machine does not go on.
    fn run(&mut self, k: u64)
        requires few { k ≤ 2 ^ 52 }
        requires early { (machine self.old).platform.steps + k ≤ 2 ^ 61 }
        ensures machine { machine self.new ≡ run (machine self.old) k }
        ensures most { (machine self.new).platform.steps ≤ (machine self.old).platform.steps + k };

    /// How many steps the machine has made.
    fn steps(&self) -> u64
        ensures { result ≡ (machine self.now).platform.steps };

    /// Whether it goes on.
    fn status(&self) -> Status
        ensures { result ≡ (machine self.now).platform.status };

    /// Its registers, its mode and its reservation.
    fn state(&self) -> &Virtual
        ensures { result.now ≡ (machine self.now).platform.virt };

    /// The byte at an offset into its RAM, and 0 behind its end.
    fn byte(&self, offset: u64) -> u8
        ensures { result ≡ slice_index (machine self.now).ram offset };

    /// The offset into RAM of an address, by the walk of the present mode, if it has one. Nothing changes.
    fn offset(&mut self, va: u64) -> Option<u64>
        ensures offset { result ≡ offset_of (machine self.old) va }
        ensures stays { machine self.new ≡ machine self.old };

    /// Makes the partial form of a pool bytes that bring the machine back.
    fn keep(&self, forms: &mut FormPool) -> Result<(), NoMemory>
        requires early { (machine self.now).platform.steps ≤ 2 ^ 60 }
        requires none { forms.old.partial ≡ [] }
        ensures form { OnOk result (is_form forms.new.partial) }
        ensures machine { OnOk result (machine_in forms.new.partial ≡ machine self.now) }
        ensures kept { forms.new.kept ≡ forms.old.kept };

    /// The machine of such bytes is the one that it runs then. Where there is no memory, nothing changes.
    fn bring_back(&mut self, alloc: Global, form: &[u8]) -> Result<(), NoMemory>
        requires { is_form form.now }
        ensures machine { OnOk result (machine self.new ≡ machine_in form.now) }
        ensures stays { OnErr result (machine self.new ≡ machine self.old) };
}
