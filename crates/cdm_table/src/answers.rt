//! The answers to scenarios, one after another.
ghost use Rattle.std.specs.Prelude.{◌≡◌, ◌++◌, OnOk};
ghost use Rattle.std.specs.List.{concat};

use cdm_flight::Listed;
use std::alloc::AllocError;

// How many bytes the texts have.
fn room_for(answers: &[Listed<u8>]) -> usize {
    answers.iter().fold(
        0,
        |room: usize, answer| room.saturating_add(answer.as_slice().len()),
    )
}

/// Puts the texts behind what is there, one after another. Each is let go once it is there, so that not all are held twice.
pub(crate) fn push_all(text: &mut Vec<u8>, answers: Vec<Listed<u8>>) -> Result<(), AllocError>
    ensures { OnOk result (text.new.items ≡ text.old.items ++ concat answers.items) }
{
    text.reserve(room_for(&answers))?;
    for answer in answers {
        text.extend_from_slice(answer.as_slice())?;
    }
    Ok(())
}
