// Each type that has public fields, taken apart, and each with variants, one by one.

use crate::machines::part;
use arch_defs::{
    Access, Csrs, Entry, Fence, GuestRoot, HartState, HypervisorStatus, Interrupts, Level, Mode,
    Regs, Shape, SupervisorCsrs, Tag, Trap, Virtual,
};
use guest_settings::{Bytes, GuestSpec, Inputs, Name, Need, Status};
use no_memory::NoMemory;
use std::alloc::Global;

#[test]
fn a_trap(rt: HostRuntime) {
    let trap = Trap {
        cause: 20,
        interrupt: false,
        tval: 1,
        tval2: 2,
        gva: true,
        implicit: true,
    };
    let Trap {
        cause,
        interrupt,
        tval,
        tval2,
        gva,
        implicit,
    } = trap;
    let numbers: (u64, u64, u64) = (cause, tval, tval2);
    let bits: (bool, bool, bool) = (interrupt, gva, implicit);
    assert!(rt; numbers == (20, 1, 2));
    assert!(rt; bits == (false, true, true));
}

fn number_of_mode(mode: Mode) -> u8 {
    match mode {
        Mode::HS => 0,
        Mode::U => 1,
        Mode::VS => 2,
        Mode::VU => 3,
    }
}

fn number_of_shape(shape: Shape) -> u8 {
    match shape {
        Shape::Sv39 => 0,
        Shape::Sv48 => 1,
        Shape::Sv39x4 => 2,
        Shape::Sv48x4 => 3,
    }
}

fn number_of_access(access: Access) -> u8 {
    match access {
        Access::Fetch => 0,
        Access::Load => 1,
        Access::Store => 2,
        Access::ExecLoad => 3,
        Access::Implicit => 4,
    }
}

fn number_of_level(level: Level) -> u8 {
    match level {
        Level::HS => 0,
        Level::VS => 1,
    }
}

fn number_of_status(status: Status) -> u8 {
    match status {
        Status::Running => 0,
        Status::Waiting => 1,
        Status::Stopped => 2,
    }
}

#[test]
fn variants(rt: HostRuntime) {
    assert!(rt; number_of_mode(Mode::VU) == 3);
    assert!(rt; number_of_shape(Shape::Sv48x4) == 3);
    assert!(rt; number_of_access(Access::Implicit) == 4);
    assert!(rt; number_of_level(Level::VS) == 1);
    assert!(rt; number_of_status(Status::Stopped) == 2);
}

#[test]
fn an_entry_and_a_fence(rt: HostRuntime) {
    let entry = Entry {
        page: 1,
        frame: 2,
        r: true,
        w: false,
        x: true,
        level: 3,
    };
    let Entry {
        page,
        frame,
        r,
        w,
        x,
        level,
    } = entry;
    let numbers: (u64, u64, u8) = (page, frame, level);
    assert!(rt; numbers == (1, 2, 3));
    assert!(rt; (r, w, x) == (true, false, true));
    let Fence { vmid, page } = Fence {
        vmid: Some(1),
        page: None,
    };
    let named: (Option<u64>, Option<u64>) = (vmid, page);
    assert!(rt; named == (Some(1), None));
}

#[test]
fn a_need(rt: HostRuntime) {
    let Need {
        blocks,
        spaces,
        entries,
    } = Need {
        blocks: 1,
        spaces: 2,
        entries: 16,
    };
    let numbers: (u64, u64, u64) = (blocks, spaces, entries);
    assert!(rt; numbers == (1, 2, 16));
}

fn spec(alloc: Global) -> Result<GuestSpec, NoMemory> {
    Ok(GuestSpec {
        name: Name::from_vec(vec![in alloc; b'a']?),
        image: Bytes::from_vec(vec![in alloc; 7u8]?),
        blocks: 1,
        spaces: 2,
        entries: 16,
        console: 100,
        inputs: Inputs::from_vec(vec![in alloc; (5u64, 7u8)]?),
        device: true,
    })
}

#[test]
fn a_guest(rt: HostRuntime) {
    let spec = spec(rt.alloc()).expect(&rt, "memory");
    let need: Need = spec.need();
    assert!(rt; need.spaces == 2);
    let GuestSpec {
        name,
        image,
        blocks,
        spaces,
        entries,
        console,
        inputs,
        device,
    } = spec;
    let numbers: (u64, u64, u64, u64) = (blocks, spaces, entries, console);
    assert!(rt; numbers == (1, 2, 16, 100));
    assert!(rt; device);
    let lent: (&[u8], &[u8], &[(u64, u8)]) = (name.as_slice(), image.as_slice(), inputs.as_slice());
    assert!(rt; (lent.0.len(), lent.1.len(), lent.2.len()) == (1, 1, 1));
    let name: Vec<u8> = name.into_vec();
    let image: Vec<u8> = image.into_vec();
    let inputs: Vec<(u64, u8)> = inputs.into_vec();
    assert!(rt; (name.len(), image.len(), inputs.len()) == (1, 1, 1));
}

#[test]
fn registers(rt: HostRuntime) {
    let Regs { x, pc } = Regs::starting_at(5);
    let x: [u64; 32] = x;
    let pc: u64 = pc;
    assert!(rt; (x[31], pc) == (0, 5));
}

// The registers that are one number each, and the pairs that HS and VS have.
fn numbers_of(csrs: Csrs) -> ([u64; 5], [SupervisorCsrs; 2]) {
    let Csrs {
        hs,
        vs,
        sie,
        sip,
        scounteren_tm,
        senvcfg_fiom,
        hstatus,
        hedeleg,
        hideleg,
        hie,
        hvip,
        hcounteren_tm,
        henvcfg_fiom,
        htimedelta,
        htval,
        htinst,
        hgatp,
        time,
    } = csrs;
    let _enabled: [Interrupts; 5] = [sie, sip, hideleg, hie, hvip];
    let _bits: [bool; 4] = [scounteren_tm, senvcfg_fiom, hcounteren_tm, henvcfg_fiom];
    let _status: HypervisorStatus = hstatus;
    let _root: GuestRoot = hgatp;
    ([hedeleg, htimedelta, htval, htinst, time], [hs, vs])
}

#[test]
fn control_and_status_registers(rt: HostRuntime) {
    let mut csrs: Csrs = Csrs::at_reset();
    csrs.time = 3;
    let (numbers, supervisors) = numbers_of(csrs);
    assert!(rt; numbers == [0, 0, 0, 0, 3]);
    assert!(rt; supervisors[0].scratch == 0);
}

fn twice<T: Copy>(value: T) -> (T, T) {
    (value, value)
}

// All of them are plain data, which a copy leaves as it was.
#[test]
fn plain_data_is_copied(rt: HostRuntime) {
    let virt = Virtual::starting_at(Mode::HS, 7);
    let (first, second) = twice(HartState {
        virt,
        tag: Tag::Flat,
    });
    assert!(rt; (first.virt.regs.pc, second.virt.regs.pc) == (7, 7));
    let (one, other) = twice(part(&[5], 8, 16, 1, 0));
    assert!(rt; (one.host_root(), other.host_root()) == (8, 8));
}
