// What the words ask for beside the guest.

ghost use Rattle.std.specs.Prelude.{◌≡◌, ◌≤◌, IfSome};
ghost use Rattle.trace_top.specs.Tracing.{asked_in, first_step, last_step, most_steps, step_number};

use command_line::number_of;
use log_lines::{Kinds, kinds_of};
use outside::Word;

/// The kinds that are asked for, and the steps from which and up to which the log goes.
#[derive(Clone, Copy)]
pub struct Asked {
    pub kinds: Kinds,
    pub from: u64,
    pub to: u64,
}

/// The most steps of the turns of a guest.
const MOST_STEPS: u64 = 0x20_0000_0000_0000;

fn step_number(word: &Word) -> Option<u64>
    ensures number { result ≡ step_number word.now }
    ensures few { IfSome result (λ n. n ≤ most_steps) }
{
    number_of(word.as_str(), 16, 0, MOST_STEPS)
}

// The step from which, by the words after those of the kinds.
fn first_step(words: &[Word]) -> Option<u64>
    ensures number { result ≡ first_step words.now }
    ensures few { IfSome result (λ n. n ≤ most_steps) }
{
    match words {
        [] => Some(0),
        [from, ..] => step_number(from),
    }
}

// The step up to which.
fn last_step(words: &[Word]) -> Option<u64>
    ensures number { result ≡ last_step words.now }
{
    match words {
        [_, to, ..] => step_number(to),
        _ => Some(MOST_STEPS),
    }
}

/// What words ask for, if they are words of this command.
pub fn asked_in(words: &[Word]) -> Option<Asked>
    ensures asked { result ≡ asked_in words.now }
    ensures few { IfSome result (λ asked. asked.from ≤ most_steps) }
{
    match words {
        [_, _, _, kinds, steps @ ..] if steps.len() <= 2 => {
            let kinds = kinds_of(kinds.as_str().as_bytes())?;
            let from = first_step(steps)?;
            let to = last_step(steps)?;
            Some(Asked { kinds, from, to })
        }
        _ => None,
    }
}
