//! Updates as the next day has them.
ghost use Rattle.std.specs.Prelude.{◌≡◌, ◌<◌, ◌≤◌, ◌-◌};
ghost use Rattle.cdm_carry.specs.Carry.{goes_on, moved};
ghost use Rattle.cdm_carry.specs.Texts.{window_end};
ghost use Rattle.cdm_carry.specs.inner.Leaving.{LeaveOnce};

use crate::staying::{NEXT_DAY, stays};
use cdm_flight::Update;
use cdm_scenario::Overlay;
use cdm_time::{Bound, Minute};

// The minute as the next day has it, or its first where the minute was before it.
fn moved_minute(minute: Minute) -> Minute
    ensures { result ≡ minute - 1440 }
{
    Minute::at(minute.get().saturating_sub(NEXT_DAY))
}

// The end of a window as the next day has it.
fn moved_bound(bound: Bound) -> Bound
    ensures value { result ≡ bound - 1440 }
    ensures short { result ≤ 1440 }
{
    Bound::from(Minute::at(bound.get().saturating_sub(NEXT_DAY)))
}

/// The update as the next day has it: with its first minute in place of each minute that was before it.
pub(crate) fn moved(update: &Update) -> Update
    ensures value { result ≡ moved update.now }
    ensures short { window_end result < 2880 }
{
    match *update {
        Update::Tobt { flight, tobt } => Update::Tobt {
            flight,
            tobt: moved_minute(tobt),
        },
        Update::Ctot { flight, ctot } => Update::Ctot {
            flight,
            ctot: ctot.map(moved_minute),
        },
        Update::Off { flight, aobt } => Update::Off {
            flight,
            aobt: moved_minute(aobt),
        },
        Update::Air { flight, atot } => Update::Air {
            flight,
            atot: moved_minute(atot),
        },
        Update::Rate {
            runway,
            from,
            to,
            cap,
        } => Update::Rate {
            runway,
            from: moved_minute(from),
            to: moved_bound(to),
            cap,
        },
        Update::Close { runway, from, to } => Update::Close {
            runway,
            from: moved_minute(from),
            to: moved_bound(to),
        },
        Update::Reopen { runway, from, to } => Update::Reopen {
            runway,
            from: moved_minute(from),
            to: moved_bound(to),
        },
        Update::Clock { now } => Update::Clock {
            now: moved_minute(now),
        },
        Update::Flt { .. }
        | Update::Stand { .. }
        | Update::Rwy { .. }
        | Update::Ice { .. }
        | Update::Prio { .. }
        | Update::Group { .. }
        | Update::Cnl { .. }
        | Update::Taxi { .. }
        | Update::Tol { .. } => *update,
    }
}

/// Whether an update of a day goes on: it is of a flight that stays, a window that ends after the next day begins, a CLOCK
/// in the next day, a TAXI or a TOL.
pub(crate) fn goes_on(day: &Overlay<'_>, update: &Update) -> bool
    requires { LeaveOnce day.now.journal }
    ensures { result ≡ goes_on day.now.journal update.now }
{
    match *update {
        Update::Flt { flight, .. }
        | Update::Tobt { flight, .. }
        | Update::Stand { flight, .. }
        | Update::Rwy { flight, .. }
        | Update::Ctot { flight, .. }
        | Update::Ice { flight, .. }
        | Update::Prio { flight, .. }
        | Update::Group { flight, .. }
        | Update::Off { flight, .. }
        | Update::Air { flight, .. }
        | Update::Cnl { flight } => stays(day, flight),
        Update::Rate { to, .. } | Update::Close { to, .. } | Update::Reopen { to, .. } => {
            to.get() > NEXT_DAY
        }
        Update::Clock { now } => now.get() >= NEXT_DAY,
        Update::Taxi { .. } | Update::Tol { .. } => true,
    }
}
