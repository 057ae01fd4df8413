// The generated guests.

ghost use Rattle.std.specs.Prelude.{◌≡◌, ◌<◌, ◌≤◌, ◌^◌, ◌*◌, IfOk, OnOk};
ghost use Rattle.work_images.specs.Numbers.{number};
ghost use Rattle.work_images.specs.Guests.{guest_name, guest_with, guests, image_from};

use crate::commands::drawn_bytes;
use crate::numbers::Numbers;
use crate::program::image_with;
use machine_defs::{Bytes, GuestSpec, Inputs, Name};
use no_memory::NoMemory;
use std::alloc::Global;

/// The guests of a seed, each with `size` commands: g0 to g3.
pub fn guests(alloc: Global, seed: u64, size: u64) -> Result<Vec<GuestSpec>, NoMemory>
    requires seed { seed < 2 ^ 31 }
    requires some { 1 ≤ size }
    requires most { size ≤ 10000 }
    ensures { IfOk result (λ v. v.items ≡ guests seed size) }
{
    let mut numbers = Numbers::new(seed);
    let mut guests = Vec::new(alloc);
    for g in 0..4u8 {
        let image = drawn_image(alloc, &mut numbers, size)?;
        guests.push(guest_with(alloc, g, image)?)?;
    }
    Ok(guests)
}

// The image whose commands are drawn next.
fn drawn_image(alloc: Global, numbers: &mut Numbers, size: u64) -> Result<Vec<u8>, NoMemory>
    requires { size ≤ 10000 }
    ensures numbers { OnOk result (numbers.new ≡ number numbers.old (4 * size)) }
    ensures image { IfOk result (λ v. v.items ≡ image_from numbers.old size) }
{
    let commands = drawn_bytes(alloc, numbers, size)?;
    image_with(alloc, commands.as_slice())
}

// The guest of this number, with its image.
fn guest_with(alloc: Global, g: u8, image: Vec<u8>) -> Result<GuestSpec, NoMemory>
    requires { g < 10 }
    ensures { IfOk result (λ guest. guest ≡ guest_with (guest_name g) image.items) }
{
    Ok(GuestSpec {
        name: Name::from_vec(vec![in alloc; b'g', b'0' + g]?),
        image: Bytes::from_vec(image),
        blocks: 1,
        spaces: 1,
        entries: 16,
        console: 0x10_0000,
        inputs: Inputs::from_vec(Vec::new(alloc)),
        device: false,
    })
}
