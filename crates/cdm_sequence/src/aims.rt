//! Whether a planned flight can be sequenced.
ghost use Rattle.std.specs.Prelude.{◌≡◌, ◌≤◌, true, IfSome};
ghost use Rattle.std.specs.Option.{ForSome};
ghost use Rattle.std.specs.FinMap as map;
ghost use Rattle.cdm_flight.specs.Record.{is_planned};

use crate::{Rule, Target};
use cdm_flight::{DayValues, Flight};
use cdm_taxi::TaxiTable;
use cdm_time::{Bound, Minute, Tolerance, Window, ctot_window};

/// What a planned flight could have before the traffic of its runway is asked.
#[derive(Clone, Copy, Debug, PartialEq, Eq)]
pub enum AimResult {
    /// It can be sequenced.
    Ready(Target),
    /// It is blocked by one of the first five rules: Tobt, Runway, Exot, Horizon or Ctot.
    Early(Rule),
}

ghost use Rattle.cdm_sequence.specs.Aims.{IsAim, TaxiTimes, own_exot};
ghost use Rattle.cdm_sequence.specs.inner.Candidates.{AreCandidates};

// The minutes of the horizon from the earliest on that keep the tolerance of the CTOT, if there are
// any.
fn candidates(earliest: Minute, ctot: Option<Minute>, tolerance: Tolerance) -> Option<Window>
    ensures minutes { AreCandidates tolerance earliest ctot result }
    ensures reachable { IfSome result (λ window. earliest ≤ window.start) }
{
    let (from, to) = match ctot {
        Some(ctot) => {
            let slot = ctot_window(ctot, tolerance);
            (earliest.max(slot.from()), slot.to())
        }
        None => (earliest, Bound::END),
    };
    Window::new(from, to)
}

/// The estimated taxi-out time (EXOT) of a flight to the runway that it has, if it has one and there is a taxi time to it.
pub fn own_exot(flight: &Flight, taxi: &TaxiTable) -> Option<u16>
    ensures value { result ≡ own_exot (λ place runway. map.get taxi.now (place, runway)) flight.now }
    ensures range { ForSome result (λ minutes. minutes ≤ 180) }
{
    let runway = flight.runway?;
    taxi.exot(flight.stand, runway, flight.ice)
}

/// When a planned flight may take off: its target, or the first of these rules that leaves it
/// none. Tobt, Runway, Exot: it has no TOBT, no runway, or no taxi-out time to it. Horizon: no
/// minute of the horizon is at or after its readiness and EXOT. Ctot: none of those is within the
/// day's tolerance of its CTOT. It is ready after its TOBT and de-icing on the stand, and not before the clock
/// (local profile).
pub fn aim(flight: &Flight, taxi: &TaxiTable, values: DayValues) -> AimResult
    requires { is_planned flight.now.status ≡ true }
    ensures { IsAim flight.now (λ place runway. map.get taxi.now (place, runway)) values result }
{
    aim_by(flight, own_exot(flight, taxi), values)
}

/// The same by the flight's taxi-out time to its runway, as any taxi times give it.
pub fn aim_by(flight: &Flight, exot: Option<u16>, values: DayValues) -> AimResult
    requires { is_planned flight.now.status ≡ true }
    ensures { (times : TaxiTimes) → own_exot times flight.now ≡ exot → IsAim flight.now times values result }
{
    let Some(key) = flight.key() else {
        return AimResult::Early(Rule::Tobt);
    };
    let Some(runway) = flight.runway else {
        return AimResult::Early(Rule::Runway);
    };
    let Some(exot) = exot else {
        return AimResult::Early(Rule::Exot);
    };
    let ready = (key.tobt.get() + flight.ice.minutes_on_stand()).max(values.clock.get());
    let Some(earliest) = Minute::new(ready.saturating_add(exot)) else {
        return AimResult::Early(Rule::Horizon);
    };
    let Some(window) = candidates(earliest, flight.ctot, values.tolerance) else {
        return AimResult::Early(Rule::Ctot);
    };
    AimResult::Ready(Target {
        key,
        runway,
        ctot: flight.ctot,
        group: flight.group,
        exot,
        ready: Minute::new(ready).unwrap(),
        window,
    })
}
