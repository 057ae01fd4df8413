// The cases of a file, one step after the other.

use crate::asks::{Ask, Run};
use crate::calls::{Left, call};
use crate::files::Files;
use crate::numbers::Numbers;
use crate::outcomes::Outcome;
use crate::sums::sum;
use std::alloc::Global;

// The kinds of steps.
const BEGIN: u64 = 0;

const APPEND: u64 = 1;

const REPEAT: u64 = 2;

const NOISE: u64 = 3;

const SAVED: u64 = 4;

const COMPLETE: u64 = 5;

const ASK: u64 = 6;

// The kinds of what is counted.
const READS: u64 = 0;

const TRACE: u64 = 1;

const ENTRIES: u64 = 2;

const TAKEN: u64 = 3;

const MOVES: u64 = 4;

const CAME: u64 = 5;

const OUT_LENGTH: u64 = 6;

const OUT_SUM: u64 = 7;

/// Where the cases of a file differ, and how many there are.
pub fn told(alloc: Global, name: &str, file: &[u8]) -> String {
    let mut front = Numbers::new(file);
    let strings = front.strings(alloc);
    let is_damaged = front.is_damaged();
    told_behind(alloc, name, front.rest(), strings.as_slice(), is_damaged)
}

// The same of what is left of a file behind these strings.
fn told_behind<'a>(
    alloc: Global,
    name: &'a str,
    rest: &'a [u8],
    strings: &'a [Vec<u8>],
    is_damaged: bool,
) -> String {
    let mut numbers = Numbers::behind(rest, strings, is_damaged);
    let mut outcome = Outcome::new(alloc, name);
    for _ in 0..numbers.count() {
        tell_case(alloc, &mut numbers, &mut outcome);
    }
    outcome.end(numbers.is_damaged() || !numbers.rest().is_empty())
}

fn tell_case<'a>(alloc: Global, numbers: &mut Numbers<'a>, outcome: &mut Outcome<'a>) {
    let mut files = Files::new(alloc);
    outcome.begin_case(numbers.string());
    for _ in 0..numbers.count() {
        take_step(alloc, numbers, &mut files, outcome);
    }
    if files.lacks_memory {
        outcome.lack_memory();
    }
}

fn take_step<'a>(
    alloc: Global,
    numbers: &mut Numbers<'a>,
    files: &mut Files<'a>,
    outcome: &mut Outcome<'a>,
) {
    match numbers.next() {
        BEGIN => files.begin(numbers.string()),
        APPEND => files.append(numbers.string()),
        REPEAT => files.repeat(numbers),
        NOISE => files.append_noise(numbers),
        SAVED => files.append_saved(numbers),
        COMPLETE => files.is_complete = true,
        ASK => tell_ask(alloc, numbers, files, outcome),
        _ => numbers.fail(),
    }
}

// What is the same in all runs of an ask: the trace, and where it is not known, what is on `out`.
#[derive(Clone, Copy)]
struct Shared {
    trace: u64,
    reads: u64,
    out: u64,
}

fn tell_ask<'a>(
    alloc: Global,
    numbers: &mut Numbers<'a>,
    files: &mut Files<'a>,
    outcome: &mut Outcome<'a>,
) {
    let ask = Ask::of(alloc, numbers);
    let mut first = None;
    outcome.begin_ask();
    for _ in 0..numbers.count() {
        let run = Run::of(numbers);
        files.configure(run.head, ask.tail);
        let left = call(alloc, &ask, &run, files);
        check(&run, &left, numbers, outcome);
        let shared = shared_of(&run, &left);
        check_shared(first.unwrap_or(shared), shared, outcome);
        if ask.is_kept && first.is_none() {
            files.keep(left.out);
        }
        first = Some(first.unwrap_or(shared));
    }
}

// Tells what a run has left otherwise than it must.
fn check<'a>(run: &Run<'a>, left: &Left, numbers: &mut Numbers<'a>, outcome: &mut Outcome<'a>) {
    outcome.begin_run();
    outcome.check_number("status", u64::from(left.status), run.status, run.status);
    outcome.check_text("err", left.err.as_slice(), run.err);
    if run.out.is_known {
        outcome.check_bytes("out", left.out.as_slice(), run.out);
    }
    if !run.asked.is_empty() {
        outcome.check_text("asked", left.asked.as_bytes(), run.asked);
    }
    outcome.check_number("prompt", u64::from(left.counts.is_prompt), 1, 1);
    for _ in 0..numbers.count() {
        check_count(left, numbers, outcome);
    }
}

// Tells a count that is not in its bounds.
fn check_count<'a>(left: &Left, numbers: &mut Numbers<'a>, outcome: &mut Outcome<'a>) {
    let counts = left.counts;
    let (what, came) = match numbers.next() {
        READS => ("reads", counts.reads),
        TRACE => ("trace", counts.trace),
        ENTRIES => ("entries", counts.entries),
        TAKEN => ("taken", counts.taken),
        MOVES => ("moves", counts.moves),
        CAME => ("came", counts.came),
        OUT_LENGTH => ("out bytes", left.out.len() as u64),
        OUT_SUM => ("out sum", sum(left.out.as_slice())),
        _ => ("", 0),
    };
    let least = numbers.next();
    let most = numbers.bound() as u64;
    outcome.check_number(what, came, least, most);
}

fn shared_of(run: &Run<'_>, left: &Left) -> Shared {
    let is_open = !run.out.is_known;
    Shared {
        trace: left.counts.trace,
        reads: if is_open { left.counts.reads } else { 0 },
        out: if is_open { sum(left.out.as_slice()) } else { 0 },
    }
}

fn check_shared(first: Shared, shared: Shared, outcome: &mut Outcome<'_>) {
    outcome.check_number("trace", shared.trace, first.trace, first.trace);
    outcome.check_number("reads", shared.reads, first.reads, first.reads);
    outcome.check_number("out sum", shared.out, first.out, first.out);
}
