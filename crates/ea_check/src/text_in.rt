//! A text in memory as a device.
ghost use Rattle.std.specs.Prelude.{◌≡◌, Some};

use ea_bytes::{ByteIn, Device, DeviceFault};

/// A text as a device that never fails: the bytes that it still gives.
#[derive(Clone, Copy)]
pub(crate) struct TextIn<'a> {
    left: &'a [u8],
}

impl<'a> TextIn<'a> {
    /// A device that gives the bytes of a text.
    pub(crate) fn new(text: &'a [u8]) -> TextIn<'a>
        ensures { result.left.now ≡ text.now }
    {
        TextIn { left: text }
    }
}

impl<'a> Device for TextIn<'a> {
    ghost use Rattle.std.specs.Prelude.{Some};
    ghost use Rattle.ea_bytes.specs.Device.{Seen};

    ghost seen = { λ text. record { bytes = Some text.left.now; failed = 0; interrupted = 0 } };

    fn failures(&self) -> u64 {
        0
    }

    fn interruptions(&self) -> u64 {
        0
    }
}

impl<'a> ByteIn for TextIn<'a> {
    fn read(&mut self, buf: &mut [u8]) -> Result<usize, DeviceFault> {
        let count = self.left.len().min(buf.len());
        let (front, back) = self.left.split_at(count);
        buf[..count].copy_from_slice(front);
        self.left = back;
        Ok(count)
    }
}
