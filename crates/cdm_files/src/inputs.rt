//! The inputs of a run, read whole and in order.
ghost use Rattle.std.specs.Prelude.{◌≡◌, ◌≤◌, false, vec_len, IfOk, IfErr, OnOk, IfSome};
ghost use Rattle.cdm_files.specs.Device.{Passes};
ghost use Rattle.cdm_files.specs.Input.{input_limit};
ghost use Rattle.cdm_files.specs.Readings.{AreRead, IsRead, reading};
ghost use Rattle.cdm_files.specs.CommonFaults.{IsFirstInputFault, IsInputFault};

use crate::common_fault::{CommonFault, Input};
use crate::device::Device;
use crate::input::{InputFault, read_input};
use std::alloc::Global;
use std::io::Read;

/// Reads one input of a run, by its name, to its end, or answers its fault, which is `Read`, `TooLong` or
/// `Memory`.
pub fn read_whole<R: Read>(
    alloc: Global,
    input: Input,
    device: &mut Device<R>,
) -> Result<Vec<u8>, CommonFault>
    requires { device.old.failed ≡ false }
    ensures whole { IfOk result (λ bytes. IfSome (R.remaining device.old.inner) (λ all. bytes.items ≡ all)) }
    ensures passed { IfOk result (λ bytes. Passes device.old device.new bytes.items) }
    ensures limit { IfOk result (λ bytes. vec_len bytes ≤ input_limit) }
    ensures read { OnOk result (IsRead (reading input R.remaining device.old device.new)) }
    ensures fault { IfErr result (IsInputFault (reading input R.remaining device.old device.new)) }
{
    match read_input(alloc, device) {
        Ok(bytes) => Ok(bytes),
        Err(InputFault::Failed) => Err(CommonFault::Read(input)),
        Err(InputFault::TooLong) => Err(CommonFault::TooLong(input)),
        Err(InputFault::Memory) => Err(CommonFault::Memory),
    }
}

/// The bytes of all inputs of a run: those of the airport file, and of the two that are read after it.
#[derive(Drop)]
pub struct Inputs {
    /// The airport file.
    pub airport: Vec<u8>,
    /// The input that is read next.
    pub second: Vec<u8>,
    /// The last input.
    pub third: Vec<u8>,
}

/// Reads the airport file and two more inputs of these names, in this order, up to the first fault,
/// which is `Read`, `TooLong` or `Memory`.
pub fn read_inputs<A: Read, S: Read, T: Read>(
    alloc: Global,
    names: (Input, Input),
    airport: &mut Device<A>,
    second: &mut Device<S>,
    third: &mut Device<T>,
) -> Result<Inputs, CommonFault>
    requires airport { airport.old.failed ≡ false }
    requires second { second.old.failed ≡ false }
    requires third { third.old.failed ≡ false }
    ensures airport { IfOk result (λ inputs. IfSome (A.remaining airport.old.inner) (λ all. inputs.airport.items ≡ all)) }
    ensures second { IfOk result (λ inputs. IfSome (S.remaining second.old.inner) (λ all. inputs.second.items ≡ all)) }
    ensures third { IfOk result (λ inputs. IfSome (T.remaining third.old.inner) (λ all. inputs.third.items ≡ all)) }
    ensures airport_passed { IfOk result (λ inputs. Passes airport.old airport.new inputs.airport.items) }
    ensures second_passed { IfOk result (λ inputs. Passes second.old second.new inputs.second.items) }
    ensures third_passed { IfOk result (λ inputs. Passes third.old third.new inputs.third.items) }
    ensures second_limit { IfOk result (λ inputs. vec_len inputs.second ≤ input_limit) }
    ensures third_limit { IfOk result (λ inputs. vec_len inputs.third ≤ input_limit) }
    ensures read { OnOk result (AreRead
        (reading Input.Airport A.remaining airport.old airport.new)
        (reading names.0 S.remaining second.old second.new)
        (reading names.1 T.remaining third.old third.new)) }
    ensures fault { IfErr result (IsFirstInputFault
        (reading Input.Airport A.remaining airport.old airport.new)
        (reading names.0 S.remaining second.old second.new)
        (reading names.1 T.remaining third.old third.new)) }
{
    let airport = read_whole(alloc, Input::Airport, airport)?;
    let second = read_whole(alloc, names.0, second)?;
    let third = read_whole(alloc, names.1, third)?;
    Ok(Inputs {
        airport,
        second,
        third,
    })
}
