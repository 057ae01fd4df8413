// Laws of what fences name.

ghost use Rattle.fence_handler.specs.Laws.{FenceNamesNoPage, FenceNamesNoVmid, FenceNamesPage, FenceNamesVmid, FirstFenceNamesAsid, FirstFenceNamesNoAsid, FirstFenceNamesNoPage, FirstFenceNamesPage, FirstInstructionsMakeFence, InstructionMakesFence};

/// What an HFENCE.GVMA names: a VMID by the low 7 bits of rs2, and a guest physical page by rs1, which has
/// the address shifted right by 2. Where the register is x0, it names none (Privileged Architecture 20211203,
/// 8.3.2).
pub fn instruction_makes_fence()
    ensures fence { InstructionMakesFence }
    ensures vmid { FenceNamesVmid }
    ensures no_vmid { FenceNamesNoVmid }
    ensures page { FenceNamesPage }
    ensures no_page { FenceNamesNoPage }
{}

/// What an SFENCE.VMA or an HFENCE.VVMA names: an ASID by the low 16 bits of rs2, and a virtual page by rs1,
/// which has the address. Where the register is x0, it names none (Privileged Architecture 20211203, 4.2.1
/// and 8.3.1).
pub fn first_instructions_make_fence()
    ensures fence { FirstInstructionsMakeFence }
    ensures asid { FirstFenceNamesAsid }
    ensures no_asid { FirstFenceNamesNoAsid }
    ensures page { FirstFenceNamesPage }
    ensures no_page { FirstFenceNamesNoPage }
{}
