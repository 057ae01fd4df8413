// A law of the hart's steps.

ghost use Rattle.rv64_hart.specs.Laws.{GuestPageFaultsExit};

/// No guest-page fault of the hart's own second stage is a trap into VS, since hedeleg has no bit for one:
/// the hart stops before it.
#[tactic(auto, using(crate::proofs::Targets::guest_page_fault_exits))]
pub fn guest_page_faults_exit()
    ensures { GuestPageFaultsExit }
{}
