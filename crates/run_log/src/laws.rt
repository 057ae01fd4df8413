// Laws of the definitions.

ghost use Rattle.run_log.specs.Laws.{LogIsOne, TellsCause, TellsHs, TellsValue, UncachedUsesNone, UsesAreFew};

/// The line of a trap tells the trap that was taken: its cause as the level sees it, tval, and of one into HS
/// the guest physical address of a guest-page fault, GVA and htinst.
pub fn trap_lines_tell()
    ensures cause { TellsCause }
    ensures value { TellsValue }
    ensures hs { TellsHs }
{}

/// The definition of a log gives one text.
pub fn log_is_one()
    ensures { LogIsOne }
{}

/// A machine that has cached nothing uses nothing cached.
#[tactic(auto, using(crate::proofs::Uncached::uncached_uses_none))]
pub fn uncached_uses_none()
    ensures { UncachedUsesNone }
{}

/// A step uses few cached translations.
#[tactic(auto, using(crate::proofs::FewUses::uses_are_few))]
pub fn uses_are_few()
    ensures { UsesAreFew }
{}
