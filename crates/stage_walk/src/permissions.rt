// Whether a leaf permits an access.

ghost use Rattle.std.specs.Prelude.{◌≡◌};
ghost use Rattle.arch_defs.specs.Permits.{has_right, may_touch_user_page, permits_first, permits_second};

use arch_defs::{Access, LeafPte, Privilege};

// Whether a leaf has the right that an access needs.
fn has_right(mxr: bool, access: Access, leaf: &LeafPte) -> bool
    ensures { result ≡ has_right mxr access leaf.now }
{
    match access {
        Access::Load => leaf.r || (mxr && leaf.x),
        Access::Store => leaf.w,
        Access::Implicit => leaf.r,
        Access::Fetch | Access::ExecLoad => leaf.x,
    }
}

// Whether supervisor mode may make an access to a page with U.
fn may_touch_user_page(sum: bool, access: Access) -> bool
    ensures { result ≡ may_touch_user_page sum access }
{
    match access {
        Access::Fetch => false,
        _ => sum,
    }
}

/// Whether a leaf of the first stage permits an access.
#[tactic(auto, unfolding(arch_defs::specs::Permits::permits_first))]
pub fn permits_first(privilege: Privilege, access: Access, leaf: &LeafPte) -> bool
    ensures { result ≡ permits_first privilege access leaf.now }
{
    if leaf.u {
        (privilege.user || may_touch_user_page(privilege.sum, access))
            && has_right(privilege.mxr, access, leaf)
    } else {
        !privilege.user && has_right(privilege.mxr, access, leaf)
    }
}

/// Whether a leaf of the second stage permits an access.
#[tactic(auto, unfolding(arch_defs::specs::Permits::permits_second))]
pub fn permits_second(mxr: bool, access: Access, leaf: &LeafPte) -> bool
    ensures { result ≡ permits_second mxr access leaf.now }
{
    leaf.u && has_right(mxr, access, leaf)
}
