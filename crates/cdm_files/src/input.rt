//! Whole inputs.
ghost use Rattle.std.specs.Prelude.{◌≡◌, ◌≤◌, ◌+◌, ℕ, List, length, false, vec_len, IfOk, OnOk, IfSome, IsErrOf};
ghost use Rattle.std.specs.Io.KnownBytes.{Consumes, IsAtEnd};
ghost use Rattle.cdm_files.specs.Device.{Passes};
ghost use Rattle.cdm_files.specs.Input.{input_limit, is_failed_input};
ghost use Rattle.cdm_files.specs.declared.input.InputFault.TheVariants as fault;

use crate::device::Device;
use std::alloc::{AllocError, Global};
use std::io::Read;
use thiserror::Error;

/// The most bytes that an input may have (local profile).
pub const INPUT_LIMIT: usize = 8_388_608;

/// The most bytes that one read asks for.
const CHUNK: usize = 16_384;

/// Why an input could not be read.
#[derive(Clone, Copy, PartialEq, Eq, Debug, Error)]
pub enum InputFault {
    /// A read failed.
    #[error("the input cannot be read")]
    Failed,
    /// The input has more than [`INPUT_LIMIT`] bytes.
    #[error("the input is longer than {INPUT_LIMIT} bytes")]
    TooLong,
    /// There is no memory for the input.
    #[error("no memory is left for the input")]
    Memory,
}

impl From<AllocError> for InputFault {
    ghost from_gives = { λ _ e. e ≡ fault.Memory };

    fn from(_error: AllocError) -> InputFault {
        InputFault::Memory
    }
}

/// Reads all the bytes that a reader has left, up to a read of no bytes. The reader may not have
/// failed before.
///
/// Answers `Failed` at the first read that fails, for whatever reason; it isn't tried again.
/// Answers `TooLong` as soon as the reader has given one byte more than [`INPUT_LIMIT`], and asks
/// for no byte after that one. Answers `Memory` where there is none for the bytes.
pub fn read_input<R: Read>(alloc: Global, device: &mut Device<R>) -> Result<Vec<u8>, InputFault>
    requires { device.old.failed ≡ false }
    ensures whole { IfOk result (λ input.
        IfSome (R.remaining device.old.inner) (λ bytes. input.items ≡ bytes)) }
    ensures passed { IfOk result (λ input. Passes device.old device.new input.items) }
    ensures end { OnOk result (IsAtEnd (R.remaining device.new.inner)) }
    ensures limit { IfOk result (λ input. vec_len input ≤ input_limit) }
    ensures failed { device.new.failed ≡ is_failed_input result }

    // One byte past the limit was given, or else no byte past it.
    ensures too_long { IsErrOf result InputFault.TooLong →
        (given : List ℕ) × Passes device.old device.new given × Consumes (R.remaining device.old.inner) (R.remaining device.new.inner) given
        × (length given ≡ input_limit + 1) }
    ensures within { ¬ IsErrOf result InputFault.TooLong →
        (given : List ℕ) × Passes device.old device.new given × Consumes (R.remaining device.old.inner) (R.remaining device.new.inner) given
        × (length given ≤ input_limit) }
{
    let mut input = Vec::new(alloc);
    let mut chunk = [0u8; CHUNK];
    loop {
        let room = CHUNK.min(INPUT_LIMIT + 1 - input.len());
        let Ok(count) = device.read(&mut chunk[..room]) else {
            return Err(InputFault::Failed);
        };
        if count == 0 {
            return Ok(input);
        }
        if input.len() + count > INPUT_LIMIT {
            return Err(InputFault::TooLong);
        }
        input.extend_from_slice(&chunk[..count])?;
    }
}
