//! Changes of a runway and of taxi times, in copies of the base's where they are the first.
ghost use Rattle.std.specs.Prelude.{◌≡◌, ℕ, List, true, false, unwrap_or, Some, OnOk, OnErr};
ghost use Rattle.std.specs.FinMap as map;
ghost use Rattle.indexmap.specs.IndexMap.{Updates, get};
ghost use Rattle.cdm_flight.specs.Names.{same_name};
ghost use Rattle.cdm_flight.specs.Taxi.{is_one_stand_too_many, stands_in};
ghost use Rattle.cdm_day.specs.Changes.{has_window, with_change};

use cdm_day::{RunwayChange, change_runway, set_taxi};
use cdm_flight::{Place, RunwayName, TaxiMinutes};
use cdm_runway::Runway;
use cdm_taxi::TaxiTable;
use indexmap::IndexMap;
use std::alloc::{AllocError, Global};

/// Changes the runway of this name, in a copy of the base's where it has none of its own.
pub(crate) fn change_over(
    alloc: Global,
    own: &mut IndexMap<RunwayName, Runway>,
    name: RunwayName,
    base: &Runway,
    change: RunwayChange,
) -> Result<(), AllocError>
    requires { has_window change (unwrap_or (get same_name own.old name) base.now) ≡ true }
    ensures ok { OnOk result (Updates same_name own.old own.new name
        (Some (with_change change (unwrap_or (get same_name own.old name) base.now)))) }
    ensures err { OnErr result ((r : List ℕ) → get same_name own.new r ≡ get same_name own.old r) }
{
    if let Some(runway) = own.get_mut(&name) {
        return change_runway(runway, change);
    }
    let mut runway = base.copy(alloc)?;
    change_runway(&mut runway, change)?;
    own.insert(name, runway)?;
    Ok(())
}

/// Sets a taxi time, of which there is room for its stand, in a copy of the base's taxi times where there
/// are none of their own.
pub(crate) fn set_over(
    own: &mut Option<TaxiTable>,
    base: &TaxiTable,
    place: Place,
    runway: RunwayName,
    minutes: TaxiMinutes,
) -> Result<(), AllocError>
    requires { is_one_stand_too_many (stands_in (unwrap_or own.old base.now)) place ≡ false }
    ensures ok { OnOk result (own.new ≡ Some (map.insert (unwrap_or own.old base.now) (place, runway) minutes)) }
    ensures err { OnErr result (own.new ≡ own.old) }
{
    match own {
        Some(taxi) => set_taxi(taxi, place, runway, minutes),
        None => {
            let mut taxi = base.copy()?;
            set_taxi(&mut taxi, place, runway, minutes)?;
            *own = Some(taxi);
            Ok(())
        }
    }
}
