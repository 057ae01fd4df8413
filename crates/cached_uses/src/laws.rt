// Laws of the definitions.

ghost use Rattle.cached_uses.specs.Serving.{FilledLeadInto, MachinesGoThrough};
ghost use Rattle.cached_uses.specs.StepUses.{StepsUse};

/// The accesses of a machine go through its own registers, front space and RAM.
pub fn machines_go_through()
    ensures { MachinesGoThrough }
{}

/// The uses of a machine's next try are those of a step through them.
#[tactic(auto, using(crate::proofs::OwnUses::steps_use))]
pub fn steps_use()
    ensures { StepsUse }
{}

/// Each entry that can be filled for a guest has its frame in RAM, or the device page.
#[tactic(auto, using(crate::proofs::Leading::filled_lead_into))]
pub fn filled_lead_into()
    ensures { FilledLeadInto }
{}
