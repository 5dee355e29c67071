//! The time from which a feed is traced.
ghost use Rattle.std.specs.Prelude.{◌≡◌, Some, None, if◌then◌else◌};
ghost use Rattle.cdm_time.specs.Times.{is_time_text};
ghost use Rattle.cdm_trace.specs.Traces.{from_minute};

use cdm_time::{Day, Minute, TimeFault};
use std::marker::Model;

/// A time as files write it, YYYY-MM-DDTHH:MMZ, of whatever day.
#[derive(Clone, Copy, PartialEq, Eq, Debug)]
pub struct Since {
    text: [u8; 17],
}

impl Model for Since {
    ghost use Rattle.std.specs.Prelude.{ℕ, List};

    ghost Value = { List ℕ };

    ghost view = { λ s. s.text };

    ghost inverse = { λ text. record { text = text } };
}

// Whether the bytes write a time.
fn is_time(text: &[u8]) -> bool
    ensures { result ≡ is_time_text text.now }
{
    let day = Day::of_text(b"2000-01-01").unwrap();
    match day.minute_of(text) {
        Ok(_) => true,
        Err(TimeFault::Range) => true,
        Err(TimeFault::Text) => false,
    }
}

impl Since {
    /// The time that the bytes write, or `None` where they have another form.
    #[tactic(auto, unfolding(cdm_time::specs::Times::is_time_text))]
    pub fn new(text: &[u8]) -> Option<Since>
        ensures { result ≡ (if is_time_text text.now then Some text.now else None) }
    {
        if !is_time(text) {
            return None;
        }
        let mut own = [0; 17];
        own.copy_from_slice(text);
        Some(Since { text: own })
    }
}

/// The minute of the two days from this day on that a time names, and the first where none is named.
///
/// `Range` where it is a time of another day.
pub fn from_minute(day: Day, since: Option<Since>) -> Result<Minute, TimeFault>
    ensures { result ≡ from_minute day since }
{
    match since {
        None => Ok(Minute::FIRST),
        Some(since) => day.minute_of(&since.text),
    }
}
