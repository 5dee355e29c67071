//! The hours that a picture shows, and where a minute of them lies.
ghost use Rattle.std.specs.Prelude.{◌≡◌, ◌<◌, ◌≤◌, ℕ};

use cdm_time::HORIZON_MINUTES;

/// A half hour, in minutes.
pub(crate) const HALF_HOUR: u16 = 30;

/// The hours of a picture: from a first minute up to an end, which has no part in them.
#[derive(Clone, Copy, Debug, PartialEq, Eq)]
pub struct Hours {
    pub first: u16,
    pub end: u16,
    ghost ordered: { first < end },
    ghost within: { end ≤ 2880 },
}

impl Hours {
    ghost use Rattle.cdm_picture.specs.Places.{IsWithin, x_of};

    /// The first day of the horizon.
    pub(crate) const DAY: Hours = Hours {
        first: 0,
        end: 1440,
    };

    /// The hours round the minutes from the first up to the end: half an hour more on both sides, and then
    /// whole half hours.
    pub(crate) fn around(first: u16, end: u16) -> Hours
        requires order { first < end }
        requires within { end ≤ 2880 }
        ensures { (minute : ℕ) → first ≤ minute → minute < end → IsWithin result minute }
    {
        let first = first.saturating_sub(HALF_HOUR) / HALF_HOUR * HALF_HOUR;
        let end = ((end / HALF_HOUR + 2) * HALF_HOUR).min(HORIZON_MINUTES);
        Hours { first, end }
    }

    /// Where the minute lies from left to right, in tenths of a pixel.
    pub(crate) fn x_of(self, minute: u16) -> u32
        ensures { result ≡ x_of self minute }
    {
        let past = u32::from(minute.saturating_sub(self.first));
        let minutes = u32::from(self.end - self.first);
        1000 + past * 14_000 / minutes
    }

    /// How wide the minutes from one up to another are, in tenths of a pixel.
    pub(crate) fn width(self, from: u16, to: u16) -> u32 {
        self.x_of(to).saturating_sub(self.x_of(from))
    }

    /// The minute within the hours, or the nearest of them.
    pub(crate) fn nearest(self, minute: u16) -> u16 {
        minute.max(self.first).min(self.end)
    }
}
