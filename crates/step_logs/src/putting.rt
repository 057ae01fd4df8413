// Lines, put one by one.

ghost use Rattle.std.specs.Prelude.{◌≡◌, ◌≤◌, [], ◌∷◌, is_ok, OnErr};
ghost use Rattle.outside.specs.Faults.{Rose};
ghost use Rattle.outside.specs.Pieces.{Puts};
ghost use Rattle.run_log.specs.Log.{if_asked, text_of_lines};
ghost use Rattle.std.specs.Option.{option_to_list};

use log_lines::{Line, text_of};
use outside::{Sink, SinkFault};

/// Puts a line.
#[tactic(auto, using(crate::proofs::Texts::one_line))]
pub fn put_line<O: Sink>(out: &mut O, line: &Line) -> Result<(), SinkFault>
    ensures bytes { Puts O.stands_for out.old out.new (is_ok result) (text_of_lines (line.now ∷ [])) }
    ensures cause { OnErr result (Rose (O.faults out.old) (O.faults out.new)) }
    ensures count { O.faults out.old ≤ O.faults out.new }
{
    out.put(text_of(line).as_slice())
}

/// Puts a line, if there is one.
#[tactic(auto, using(crate::proofs::Texts::none_put))]
pub fn put_optional<O: Sink>(out: &mut O, line: &Option<Line>) -> Result<(), SinkFault>
    ensures bytes { Puts O.stands_for out.old out.new (is_ok result)
        (text_of_lines (option_to_list line.now)) }
    ensures cause { OnErr result (Rose (O.faults out.old) (O.faults out.new)) }
    ensures count { O.faults out.old ≤ O.faults out.new }
{
    match line {
        Some(line) => put_line(out, line),
        None => Ok(()),
    }
}
