// Loads and stores of the device page.

ghost use Rattle.std.specs.Prelude.{◌≡◌, ◌==◌, ◌&&◌};
ghost use Rattle.arch_defs.specs.Devices.{device_loaded, device_status, device_stored};
ghost use Rattle.device_page.specs.Ends.{IsPageAccess, device_accessed};

use console_dev::Console;

/// What a store of a value, or else a load, of that many bytes gives at an offset of the page, by the clock
/// of the console's machine. A store gives 0. None, and nothing changes, exactly where the page does not
/// serve it.
pub fn access(
    offset: u64,
    width: u8,
    store: Option<u64>,
    console: &mut Console,
    clock: u64,
) -> Option<u64>
    ensures { IsPageAccess (device_accessed offset width store console.old clock)
        console.old result console.new }
{
    match store {
        Some(value) => stored(offset, width, value, console),
        None => loaded(offset, width, console, clock),
    }
}

// Whether an access is of the byte at 0.
fn is_byte(offset: u64, width: u8) -> bool
    ensures { result ≡ (offset == 0 && width == 1) }
{
    offset == 0 && width == 1
}

// A store.
#[tactic(auto, unfolding(arch_defs::specs::Devices::device_stored))]
fn stored(offset: u64, width: u8, value: u64, console: &mut Console) -> Option<u64>
    ensures { IsPageAccess (device_stored offset width value console.old) console.old result console.new }
{
    if is_byte(offset, width) {
        let _ = console.put((value % 256) as u8);
        Some(0)
    } else {
        None
    }
}

// A load.
#[tactic(auto, unfolding(arch_defs::specs::Devices::device_loaded))]
fn loaded(offset: u64, width: u8, console: &mut Console, clock: u64) -> Option<u64>
    ensures { IsPageAccess (device_loaded offset width console.old clock) console.old result console.new }
{
    if is_byte(offset, width) {
        match console.get(clock) {
            Some(byte) => Some(byte as u64),
            None => Some(0),
        }
    } else if offset == 8 && width == 8 {
        Some(status(console, clock))
    } else {
        None
    }
}

// Whether an input has come, and whether the console has room.
fn status(console: &Console, clock: u64) -> u64
    ensures { result ≡ device_status console.now clock }
{
    let ready = if console.has_input(clock) { 1 } else { 0 };
    let room = if console.is_full() { 0 } else { 2 };
    ready + room
}
