// The device page.

/// Its frame: that of the page from 0x10000000 on.
pub const DEVICE_FRAME: u64 = 0x10000;
