// Laws of a step.

ghost use Rattle.step_logs.specs.StepTexts.{StepsReadOneInput};

/// A step reads one input of its console at most.
#[tactic(auto, using(crate::proofs::Inputs::try_reads_one))]
pub fn steps_read_one_input()
    ensures { StepsReadOneInput }
{}
