//! Whole texts.
ghost use Rattle.std.specs.Prelude.{◌≡◌, ℕ, take, false, is_err, OnOk, OnErr};
ghost use Rattle.std.specs.Io.KnownBytes.{Appends};
ghost use Rattle.cdm_files.specs.Device.{Passes};

use crate::device::Device;
use std::io::Write;
use thiserror::Error;

/// A text could not be written or flushed.
#[derive(Clone, Copy, PartialEq, Eq, Debug, Error)]
#[error("the text cannot be written")]
pub struct WriteFault;

/// Writes a text after what a writer already has, and then flushes the writer, which may not have
/// failed before.
///
/// Answers a fault at the first write or flush that fails, for whatever reason, or at the first
/// write that takes no byte; nothing is tried again. A prefix of the text was written then, and
/// where the flush failed all of it. No clause can say that the writer was flushed: tests show it.
pub fn write_text<W: Write>(device: &mut Device<W>, text: &[u8]) -> Result<(), WriteFault>
    requires { device.old.failed ≡ false }
    ensures whole { OnOk result
        (Appends (W.contents device.old.inner) (W.contents device.new.inner) text.now) }
    ensures passed { OnOk result (Passes device.old device.new text.now) }
    ensures prefix { OnErr result ((n : ℕ) × Passes device.old device.new (take n text.now)
        × Appends (W.contents device.old.inner) (W.contents device.new.inner) (take n text.now)) }
    ensures failed { device.new.failed ≡ is_err result }
{
    let mut written = 0;
    while written < text.len() {
        match device.write(&text[written..]) {
            Ok(0) | Err(_) => return Err(WriteFault),
            Ok(count) => written += count,
        }
    }
    device.flush().map_err(|_| WriteFault)
}
