// What runs a machine try by try.

ghost use Rattle.std.specs.Prelude.{◌≡◌, ◌+◌, ◌^◌, ◌<◌, ◌≤◌, option_map, IfOk};
ghost use Rattle.guest_settings.specs.declared.statuses.Status.TheVariants.{Running};
ghost use Rattle.machine_defs.specs.Fills.{needed};
ghost use Rattle.machine_defs.specs.Machine.{Machine};
ghost use Rattle.machine_defs.specs.Runs.{events, plain_count, run};
ghost use Rattle.machine_defs.specs.Tries.{found_by_try, stages_of};
ghost use Rattle.rv64_hart.specs.Leaves.{LeavesFit, leaves_list};
ghost use Rattle.caching_steps.specs.Remembering.{cached_names};
ghost use Rattle.run_log.specs.Fences.{second_count};
ghost use Rattle.run_log.specs.Seen.{step_outcome};
ghost use Rattle.run_log.specs.Stale.{leaf_now};
ghost use Rattle.run_log.specs.Steps.{access_made, step_word, value_in};
ghost use Rattle.run_log.specs.Uses.{uses};
ghost use Rattle.step_lines.specs.Acts.{act_in};
ghost use Rattle.step_lines.specs.MadeAccesses.{made_seen};
ghost use Rattle.step_logs.specs.Tries.{IsOneTry};

use arch_defs::{Entry, Virtual};
use arrayvec::ArrayVec;
use caching_steps::CachedName;
use log_lines::{Leaf, MemoryValue};
use machine_defs::{Event, Status};
use no_memory::NoMemory;
use run_log::Use;
use rv64_hart::Leaves;
use std::alloc::Global;
use step_lines::{Act, MadeAccess};

/// What runs a machine, and shows what its next try is about to do.
pub trait TryRunner {
    ghost machine: { Self → Machine };

    /// Makes at most `k` steps: fewer only where the machine does not go on.
    fn run(&mut self, k: u64)
        requires early { (machine self.old).platform.steps + k ≤ 2 ^ 61 }
        ensures machine { machine self.new ≡ run (machine self.old) k }
        ensures most { (machine self.new).platform.steps ≤ (machine self.old).platform.steps + k };

    /// Makes plain steps alone, at most `k`, and answers how many. It may make fewer, and none.
    fn run_plain(&mut self, k: u64) -> u64
        requires early { (machine self.old).platform.steps + k ≤ 2 ^ 61 }
        ensures machine { machine self.new ≡ run (machine self.old) result }
        ensures plain { plain_count (events (machine self.old) result) ≡ result }
        ensures within { result ≤ k }
        ensures most { (machine self.new).platform.steps ≤ (machine self.old).platform.steps + result };

    /// Whether it goes on.
    fn status(&self) -> Status
        ensures { result ≡ (machine self.now).platform.status };

    /// Its registers, its mode and its cached translations of the first stage.
    fn state(&self) -> &Virtual
        ensures { result.now ≡ (machine self.now).platform.virt };

    /// Where its clock is.
    fn time(&self) -> u64
        ensures { result ≡ (machine self.now).platform.clock.time };

    /// The bytes on its console.
    fn console(&self) -> &[u8]
        ensures { result.now ≡ (machine self.now).platform.console.bytes };

    /// The inputs that it has not read.
    fn inputs(&self) -> &[(u64, u8)]
        ensures { result.now ≡ (machine self.now).platform.console.inputs };

    /// How many translations of the second stage it has cached.
    fn second_count(&self) -> u64
        ensures { result ≡ second_count (machine self.now) };

    /// The number in RAM at the place of an access.
    fn value(&self, made: &MadeAccess) -> MemoryValue
        ensures { result ≡ value_in (machine self.now).ram (made_seen made.now) };

    /// The word of its next instruction. Nothing changes.
    fn word(&mut self) -> Option<u32>
        ensures word { result ≡ step_word (machine self.old) }
        ensures stays { machine self.new ≡ machine self.old };

    /// The translations of the first stage that its next try finds. Nothing changes.
    fn found(&mut self) -> Leaves
        ensures found { leaves_list result
            ≡ found_by_try (stages_of (machine self.old)) (machine self.old) }
        ensures fits { LeavesFit result }
        ensures stays { machine self.new ≡ machine self.old };

    /// Gives the cached translations by which its next try goes in place of others, and answers what it finds
    /// of the first stage. Nothing changes.
    fn uses(&mut self, used: &mut ArrayVec<Use, 10>) -> Leaves
        ensures uses { used.new.items ≡ uses (machine self.old) }
        ensures found { leaves_list result
            ≡ found_by_try (stages_of (machine self.old)) (machine self.old) }
        ensures stays { machine self.new ≡ machine self.old };

    /// What its tables give now for the access of a use. Nothing changes.
    fn leaf_now(&mut self, used: &Use) -> Option<Leaf>
        ensures leaf { result ≡ leaf_now (machine self.old) used.now }
        ensures stays { machine self.new ≡ machine self.old };

    /// The names of all translations that it has cached. It may answer out of memory.
    fn names(&self, alloc: Global) -> Result<Vec<CachedName>, NoMemory>
        ensures { IfOk result (λ v. v.items ≡ cached_names (machine self.now)) };

    /// The access to data in RAM that its next instruction makes, which does this beside. Nothing changes.
    fn access(&mut self, act: &Act) -> Option<MadeAccess>
        requires { act.now ≡ act_in (step_outcome (machine self.old)) }
        ensures access { option_map made_seen result ≡ access_made (machine self.old) }
        ensures stays { machine self.new ≡ machine self.old };

    /// Makes one try of its next step. Answers what the step was, or nothing where it waits for good, and the
    /// translation of the second stage that has been cached in its place.
    fn make_try(&mut self) -> Result<Option<Event>, Entry>
        requires running { (machine self.old).platform.status ≡ Running }
        requires early { (machine self.old).platform.steps < 2 ^ 61 }
        ensures tried { IsOneTry (machine self.old) result (machine self.new) }
        ensures most { (machine self.new).platform.steps ≤ (machine self.old).platform.steps + 1 }
        ensures room { needed ≤ (machine self.old).entry_room };
}
