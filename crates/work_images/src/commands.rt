// The commands of a generated guest hypervisor.

ghost use Rattle.std.specs.Prelude.{◌≡◌, ◌+◌, ◌*◌, ◌≤◌, ◌<◌, ◌++◌, length, IfOk, OnOk};
ghost use Rattle.work_images.specs.Numbers.{number};
ghost use Rattle.work_images.specs.Commands.{command, command_bytes, command_from, commands_from, list_bytes};
ghost use Rattle.work_images.specs.Commands.{mapping};

use crate::numbers::Numbers;
use no_memory::NoMemory;
use std::alloc::Global;

/// A command: the value to store at an address, the guest physical address divided by 4 whose page to fence,
/// or 0, and the pointer of the nested guest.
#[derive(Clone, Copy)]
pub struct Command {
    pub address: u64,
    pub value: u64,
    pub fence: u64,
    pub pointer: u64,
}

impl Command {
    /// The command of the next four draws.
    #[tactic(auto, unfolding(crate::specs::Numbers::number))]
    pub fn drawn(numbers: &mut Numbers) -> Command
        ensures numbers { numbers.new ≡ number numbers.old 4 }
        ensures command { result ≡ command_from numbers.old }
    {
        let slot = 1 + numbers.draw(32);
        let page = numbers.draw(16);
        let fenced = numbers.draw(4);
        let read = 1 + numbers.draw(32);
        Command::of(slot, page, fenced, read)
    }

    fn of(slot: u64, page: u64, fenced: u64, read: u64) -> Command
        requires slot { slot ≤ 32 }
        requires page { page < 16 }
        requires read { read ≤ 32 }
        ensures { result ≡ command slot page fenced read }
    {
        Command {
            address: 0x8000_9000 + 8 * slot,
            value: mapping(page),
            fence: if fenced == 0 { slot * 0x400 } else { 0 },
            pointer: read * 0x1000,
        }
    }

    // Appends its doublewords.
    fn append(&self, bytes: &mut Vec<u8>) -> Result<(), NoMemory>
        ensures { OnOk result (bytes.new.items ≡ bytes.old.items ++ command_bytes self.now) }
    {
        bytes.extend_from_slice(&self.address.to_le_bytes())?;
        bytes.extend_from_slice(&self.value.to_le_bytes())?;
        bytes.extend_from_slice(&self.fence.to_le_bytes())?;
        bytes.extend_from_slice(&self.pointer.to_le_bytes())?;
        Ok(())
    }
}

// An entry for one of the 15 pages of data, or none.
fn mapping(page: u64) -> u64
    requires { page < 16 }
    ensures { result ≡ mapping page }
{
    if page == 15 {
        0
    } else {
        (0x8000A + page) * 0x400 + 0xD7
    }
}

/// The bytes of that many commands that are drawn, and of the doubleword 0 at their end.
pub fn drawn_bytes(alloc: Global, numbers: &mut Numbers, count: u64) -> Result<Vec<u8>, NoMemory>
    ensures numbers { OnOk result (numbers.new ≡ number numbers.old (4 * count)) }
    ensures bytes { IfOk result (λ v. v.items ≡ list_bytes (commands_from numbers.old count)) }
    ensures size { IfOk result (λ v. length v.items ≡ 32 * count + 8) }
{
    let mut bytes = Vec::new(alloc);
    for _done in 0..count {
        let command = Command::drawn(numbers);
        command.append(&mut bytes)?;
    }
    bytes.extend_from_slice(&0u64.to_le_bytes())?;
    Ok(bytes)
}
