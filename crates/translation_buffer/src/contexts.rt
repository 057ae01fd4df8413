// What translations are made under.

ghost use Rattle.std.specs.Prelude.{◌≡◌, IsTrue};
ghost use Rattle.arch_defs.specs.Translation.{supervisor_of};
ghost use Rattle.translation_buffer.specs.Places.{context_of};

use arch_defs::{Csrs, GuestRoot, Mode, SupervisorCsrs, SupervisorRoot};
use two_stage_walk::second_root_of;

/// What translations are made under: the roots of both stages, and sstatus.MXR, which counts in the second
/// stage too.
#[derive(Clone, Copy)]
pub struct Context {
    pub first: SupervisorRoot,
    pub second: GuestRoot,
    pub mxr: bool,
}

// The registers of the level whose table translates for a mode, lent.
#[inline]
fn supervisor_of(csrs: &Csrs, mode: Mode) -> &SupervisorCsrs
    ensures { result.now ≡ supervisor_of csrs.now mode }
{
    if mode.is_virtual() {
        &csrs.vs
    } else {
        &csrs.hs
    }
}

impl Context {
    /// That of a mode, as the registers are.
    pub fn of(csrs: &Csrs, mode: Mode) -> Context
        ensures { result ≡ context_of csrs.now mode }
    {
        Context {
            first: supervisor_of(csrs, mode).atp,
            second: second_root_of(csrs, mode),
            mxr: csrs.hs.status.mxr,
        }
    }

    /// Becomes that of a mode, as the registers are.
    #[inline]
    pub fn set(&mut self, csrs: &Csrs, mode: Mode)
        ensures { self.new ≡ context_of csrs.now mode }
    {
        self.first = supervisor_of(csrs, mode).atp;
        self.second = second_root_of(csrs, mode);
        self.mxr = csrs.hs.status.mxr;
    }

    /// Whether `other` is the same.
    #[inline]
    #[tactic(auto, using(crate::proofs::SameContexts::same_context))]
    pub fn is_context(&self, other: &Context) -> bool
        ensures { IsTrue result → self.now ≡ other.now }
    {
        self.first.is_root(other.first)
            && self.second.is_root(other.second)
            && self.mxr == other.mxr
    }
}
