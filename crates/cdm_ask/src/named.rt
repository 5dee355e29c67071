//! An input by the path at which it was opened.
ghost use Rattle.std.specs.Prelude.{◌≡◌};
ghost use Rattle.std.specs.Option.{option_copied};
ghost use Rattle.cdm_ask.specs.Opening.{OpenedFile, unread};

use crate::ending::Ending;
use cdm_feed::{Device, Input};
use std::marker::Model;

/// A reader in a device, by the path at which it was opened, and as which input. That it has no byte without a path is to be read in
/// `file_or_empty`.
#[derive(Drop)]
pub struct Named<'a, F> {
    path: Option<&'a str>,
    input: Input,
    pub(crate) device: Device<Ending<F>>,
}

impl<'a, F> Model for Named<'a, F> {
    ghost Value = { OpenedFile };

    ghost view = { λ n. record { path = option_copied n.path; input = n.input; failed = n.device.failed; given = n.device.passed } };
}

impl<'a, F> Named<'a, F> {
    // What was opened at this path, as this input. Nothing of it was read yet.
    pub(crate) fn new(path: Option<&'a str>, input: Input, file: F) -> Named<'a, F>
        ensures { result ≡ unread (option_copied path.entry) input }
    {
        Named {
            path,
            input,
            device: Device::new(Ending::new(file)),
        }
    }

    /// What was opened, in its device.
    pub fn into_device(self) -> Device<Ending<F>>
        ensures failed { result.failed ≡ self.entry.failed }
        ensures passed { result.passed ≡ self.entry.given }
    {
        self.device
    }
}

impl<F: Drop> Named<'_, F> {
    /// Whether all was read, and the last line has no LF.
    pub fn lacks_end(self) -> bool {
        self.device.into_inner().lacks_end()
    }
}
