//! The paths of a check.

use cdm_ask::shown_path;
use cdm_check::FilePaths;
use cdm_command::Command;
use std::alloc::{AllocError, Global};

/// The paths of the files of a check, as its lines show them. Of any other command it has none.
#[derive(Drop)]
pub(crate) struct ShownPaths {
    airport: String,
    feed: String,
    scenarios: Option<String>,
}

impl ShownPaths {
    /// Those of a command.
    pub(crate) fn of(alloc: Global, command: &Command<'_>) -> Result<ShownPaths, AllocError> {
        let Command::Check { files, .. } = command else {
            return Ok(ShownPaths {
                airport: String::new(alloc),
                feed: String::new(alloc),
                scenarios: None,
            });
        };
        let scenarios = match files.third {
            Some(path) => Some(shown_path(alloc, path)?),
            None => None,
        };
        Ok(ShownPaths {
            airport: shown_path(alloc, files.airport)?,
            feed: shown_path(alloc, files.feed)?,
            scenarios,
        })
    }

    /// The same, borrowed.
    pub(crate) fn paths(&self) -> FilePaths<'_> {
        FilePaths {
            airport: &self.airport,
            feed: &self.feed,
            scenarios: self.scenarios.as_deref(),
        }
    }
}
