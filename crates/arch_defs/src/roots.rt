// The roots of tables: what satp, vsatp and hgatp hold.

ghost use Rattle.std.specs.Prelude.{◌≡◌, ◌<◌};
ghost use Rattle.arch_defs.specs.CsrBits.{guest_root_of, hgatp_bits};
ghost use Rattle.arch_defs.specs.Roots.{asid_of, guest_mode_number, guest_mode_of, guest_shape, is_atp, is_root, is_table, supervisor_mode_number, supervisor_mode_of, supervisor_shape, vmid_of};

use crate::walks::Shape;

/// A MODE of satp and vsatp that names a table (Privileged Architecture 20211203, 4.1.11).
#[derive(Clone, Copy, PartialEq, Eq)]
pub enum SupervisorMode {
    Sv39,
    Sv48,
}

impl SupervisorMode {
    /// The mode of a number of MODE. None is 0, which is Bare, and each that names no table here.
    pub fn of(number: u64) -> Option<SupervisorMode>
        ensures { result ≡ supervisor_mode_of number }
    {
        match number {
            8 => Some(SupervisorMode::Sv39),
            9 => Some(SupervisorMode::Sv48),
            _ => None,
        }
    }

    /// The number of MODE.
    pub fn number(self) -> u64
        ensures value { result ≡ supervisor_mode_number self }
        ensures small { result < 16 }
    {
        match self {
            SupervisorMode::Sv39 => 8,
            SupervisorMode::Sv48 => 9,
        }
    }

    /// The shape of its tables.
    pub fn shape(self) -> Shape
        ensures { result ≡ supervisor_shape self }
    {
        match self {
            SupervisorMode::Sv39 => Shape::Sv39,
            SupervisorMode::Sv48 => Shape::Sv48,
        }
    }
}

/// satp or vsatp: the first-stage table, if any (Privileged Architecture 20211203, 4.1.11).
#[derive(Clone, Copy, PartialEq, Eq)]
pub enum SupervisorRoot {
    Bare,
    Table {
        mode: SupervisorMode,
        asid: u64,
        ppn: u64,
    },
}

impl SupervisorRoot {
    /// Its ASID, 0 under Bare.
    pub fn asid(self) -> u64
        ensures { result ≡ asid_of self }
    {
        match self {
            SupervisorRoot::Bare => 0,
            SupervisorRoot::Table { asid, .. } => asid,
        }
    }

    /// Whether `other` has the same MODE, ASID and PPN.
    pub fn is_root(self, other: SupervisorRoot) -> bool
        ensures { result ≡ is_atp self other }
    {
        match (self, other) {
            (SupervisorRoot::Bare, SupervisorRoot::Bare) => true,
            (
                SupervisorRoot::Table { mode, asid, ppn },
                SupervisorRoot::Table {
                    mode: other_mode,
                    asid: other_asid,
                    ppn: other_ppn,
                },
            ) => mode.number() == other_mode.number() && asid == other_asid && ppn == other_ppn,
            _ => false,
        }
    }
}

/// A MODE of hgatp that names a table (Privileged Architecture 20211203, 8.2.10).
#[derive(Clone, Copy, PartialEq, Eq)]
pub enum GuestMode {
    Sv39x4,
    Sv48x4,
}

impl GuestMode {
    /// The mode of a number of MODE. None is 0, which is Bare, and each that names no table here.
    pub fn of(number: u64) -> Option<GuestMode>
        ensures { result ≡ guest_mode_of number }
    {
        match number {
            8 => Some(GuestMode::Sv39x4),
            9 => Some(GuestMode::Sv48x4),
            _ => None,
        }
    }

    /// The number of MODE.
    pub fn number(self) -> u64
        ensures value { result ≡ guest_mode_number self }
        ensures small { result < 16 }
    {
        match self {
            GuestMode::Sv39x4 => 8,
            GuestMode::Sv48x4 => 9,
        }
    }

    /// The shape of its tables.
    pub fn shape(self) -> Shape
        ensures { result ≡ guest_shape self }
    {
        match self {
            GuestMode::Sv39x4 => Shape::Sv39x4,
            GuestMode::Sv48x4 => Shape::Sv48x4,
        }
    }
}

/// The mode of a guest's host table.
pub const HOST_MODE: GuestMode = GuestMode::Sv39x4;

/// The mode of a folded table, whatever the mode of the guest's own table is.
pub const FOLDED_MODE: GuestMode = GuestMode::Sv48x4;

/// hgatp: the second-stage table, if any (Privileged Architecture 20211203, 8.2.10).
#[derive(Clone, Copy, PartialEq, Eq)]
pub enum GuestRoot {
    Bare,
    Table {
        mode: GuestMode,
        vmid: u64,
        ppn: u64,
    },
}

impl GuestRoot {
    /// Whether it names a table.
    pub fn is_table(self) -> bool
        ensures { result ≡ is_table self }
    {
        matches!(self, GuestRoot::Table { .. })
    }

    /// hgatp as a number (Privileged Architecture 20211203, 8.2.10).
    #[tactic(auto, unfolding(crate::specs::CsrBits::hgatp_bits))]
    pub fn bits(self) -> u64
        ensures { result ≡ hgatp_bits self }
    {
        match self {
            GuestRoot::Bare => 0,
            GuestRoot::Table { mode, vmid, ppn } => {
                mode.number() * 0x1000_0000_0000_0000
                    + (vmid & 0x7F) * 0x1000_0000_0000
                    + ((ppn >> 2) & 0x3FF_FFFF_FFFF) * 4
            }
        }
    }

    /// hgatp after a write of this number: a MODE that names no table is Bare.
    #[tactic(auto, unfolding(crate::specs::CsrBits::guest_root_of))]
    pub fn of(value: u64) -> GuestRoot
        ensures { result ≡ guest_root_of value }
    {
        match GuestMode::of(value >> 60) {
            Some(mode) => GuestRoot::Table {
                mode,
                vmid: (value >> 44) & 0x7F,
                ppn: ((value >> 2) & 0x3FF_FFFF_FFFF) * 4,
            },
            None => GuestRoot::Bare,
        }
    }

    /// Its VMID, 0 under Bare.
    pub fn vmid(self) -> u64
        ensures { result ≡ vmid_of self }
    {
        match self {
            GuestRoot::Bare => 0,
            GuestRoot::Table { vmid, .. } => vmid,
        }
    }

    /// Whether `other` has the same MODE, VMID and PPN.
    pub fn is_root(self, other: GuestRoot) -> bool
        ensures { result ≡ is_root self other }
    {
        match (self, other) {
            (GuestRoot::Bare, GuestRoot::Bare) => true,
            (
                GuestRoot::Table { mode, vmid, ppn },
                GuestRoot::Table {
                    mode: other_mode,
                    vmid: other_vmid,
                    ppn: other_ppn,
                },
            ) => mode.number() == other_mode.number() && vmid == other_vmid && ppn == other_ppn,
            _ => false,
        }
    }
}
