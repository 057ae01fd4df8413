// What the last try of a step is about to do, as far as the log tells it.

ghost use Rattle.std.specs.Prelude.{◌≡◌, ◌⊎◌, None, false, option_map};
ghost use Rattle.arch_defs.specs.Interrupts.{due};
ghost use Rattle.machine_defs.specs.Tries.{found_by_try, stages_of, with_found};
ghost use Rattle.rv64_hart.specs.Leaves.{LeavesFit, leaves_list};
ghost use Rattle.run_log.specs.Seen.{step_outcome};
ghost use Rattle.run_log.specs.Steps.{memory_read, step_word};
ghost use Rattle.step_lines.specs.Acts.{act_in};
ghost use Rattle.step_lines.specs.MadeAccesses.{made_seen};
ghost use Rattle.step_lines.specs.declared.acts.Act.TheVariants.{Other};
ghost use Rattle.step_logs.specs.Tries.{If, IsData, IsHeldBeforeFence, IsTry, held_of, needs_word, writes_by};

use crate::runners::TryRunner;
use log_lines::{Kinds, MemoryValue};
use rv64_hart::Leaves;
use step_lines::{Act, Held, MadeAccess, act_of, is_reading, is_writing};

/// The access to data in RAM that a try makes, what it reads there, and whether it writes.
#[derive(Drop)]
pub struct Data {
    pub made: Option<MadeAccess>,
    pub read: Option<MemoryValue>,
    pub writes: bool,
}

/// A try: its word, what it finds, what its instruction does beside, the access to data that it makes, and
/// how many translations are cached before it drops some.
#[derive(Drop)]
pub struct Try {
    pub word: Option<u32>,
    pub act: Act,
    pub found: Leaves,
    pub own: Data,
    pub held: Held,
}

// Whether the word of a try is of use.
fn is_read(kinds: &Kinds) -> bool
    ensures { result ≡ needs_word kinds.now }
{
    kinds.steps || kinds.calls || kinds.fences
}

/// How many translations of each stage are cached.
pub fn held_by<R: TryRunner>(runner: &R) -> Held
    ensures { result ≡ held_of (R.machine runner.now) }
{
    Held {
        first: runner.state().first.as_slice().len() as u64,
        second: runner.second_count(),
    }
}

// The same once a try has cached what it finds.
fn held_with<R: TryRunner>(runner: &mut R) -> Held
    requires none { due (R.machine runner.old).platform.virt.csrs (R.machine runner.old).platform.virt.mode
        ≡ None }
    ensures held { result ≡ held_of (with_found (stages_of (R.machine runner.old)) (R.machine runner.old)) }
    ensures stays { R.machine runner.new ≡ R.machine runner.old }
{
    let mut first = runner.state().first;
    let found = runner.found();
    found.fill(&mut first);
    Held {
        first: first.as_slice().len() as u64,
        second: runner.second_count(),
    }
}

// How many are cached before a fence drops some.
fn held_before<R: TryRunner>(runner: &mut R, act: &Act) -> Held
    requires act { (act.now ≡ Other) ⊎ (act.now ≡ act_in (step_outcome (R.machine runner.old))) }
    ensures held { IsHeldBeforeFence act.now (R.machine runner.old) result }
    ensures stays { R.machine runner.new ≡ R.machine runner.old }
{
    match act {
        Act::Fences(..) => held_with(runner),
        Act::Calls | Act::Waits | Act::Accesses(_) | Act::Other => Held {
            first: 0,
            second: 0,
        },
    }
}

// What an access reads.
fn read_by<R: TryRunner>(runner: &R, made: &Option<MadeAccess>) -> Option<MemoryValue>
    ensures { result ≡ memory_read (R.machine runner.now) (option_map made_seen made.now) }
{
    match made {
        Some(made) => {
            if is_reading(made.access.purpose) {
                Some(runner.value(made))
            } else {
                None
            }
        }
        None => None,
    }
}

// Whether it writes.
fn writes_by<R: TryRunner>(runner: &R, made: &Option<MadeAccess>) -> bool
    ensures { result ≡ writes_by (R.machine runner.now) (option_map made_seen made.now) }
{
    match made {
        Some(made) => is_writing(made, runner.state().reservation),
        None => false,
    }
}

// The access of a try, where steps are asked for.
fn data_of<R: TryRunner>(runner: &mut R, steps: bool, act: &Act) -> Data
    requires act { If steps (act.now ≡ act_in (step_outcome (R.machine runner.old))) }
    ensures data { If steps (IsData (R.machine runner.old) result) }
    ensures stays { R.machine runner.new ≡ R.machine runner.old }
{
    if steps {
        let made = runner.access(act);
        let read = read_by(runner, &made);
        let writes = writes_by(runner, &made);
        Data { made, read, writes }
    } else {
        Data {
            made: None,
            read: None,
            writes: false,
        }
    }
}

// The word, where it is of use.
fn word_of<R: TryRunner>(runner: &mut R, kinds: &Kinds) -> Option<u32>
    ensures word { If (needs_word kinds.now) (result ≡ step_word (R.machine runner.old)) }
    ensures none { needs_word kinds.now ≡ false → result ≡ None }
    ensures stays { R.machine runner.new ≡ R.machine runner.old }
{
    if is_read(kinds) { runner.word() } else { None }
}

// What it finds, where fills are asked for.
fn found_by<R: TryRunner>(runner: &mut R, fills: bool) -> Leaves
    ensures found { If fills (leaves_list result
        ≡ found_by_try (stages_of (R.machine runner.old)) (R.machine runner.old)) }
    ensures stays { R.machine runner.new ≡ R.machine runner.old }
{
    if fills {
        runner.found()
    } else {
        Leaves::none()
    }
}

impl Try {
    /// The next one of a machine that is run.
    pub fn next<R: TryRunner>(runner: &mut R, kinds: &Kinds) -> Try
        ensures tried { IsTry kinds.now (R.machine runner.old) result }
        ensures stays { R.machine runner.new ≡ R.machine runner.old }
    {
        let word = word_of(runner, kinds);
        let act = act_of(runner.state(), word);
        let held = held_before(runner, &act);
        Try {
            word,
            found: found_by(runner, kinds.fills),
            own: data_of(runner, kinds.steps, &act),
            act,
            held,
        }
    }
}
