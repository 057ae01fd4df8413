// Bytes without a meaning.

ghost use Rattle.std.specs.Prelude.{◌≡◌, ◌<◌, ◌≤◌, ◌^◌, IfOk};
ghost use Rattle.work_images.specs.Noise.{noise};

use crate::numbers::Numbers;
use no_memory::NoMemory;
use std::alloc::Global;

/// The given number of bytes that are drawn from a seed on.
pub fn noise(alloc: Global, seed: u64, len: u64) -> Result<Vec<u8>, NoMemory>
    requires seed { seed < 2 ^ 31 }
    requires most { len ≤ 2093056 }
    ensures { IfOk result (λ v. v.items ≡ noise seed len) }
{
    let mut numbers = Numbers::new(seed);
    let mut bytes = Vec::new(alloc);
    for _done in 0..len {
        let byte = numbers.draw(256) as u8;
        bytes.push(byte)?;
    }
    Ok(bytes)
}
