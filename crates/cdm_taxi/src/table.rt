//! Taxi times by place and runway.
ghost use Rattle.std.specs.Prelude.{◌≡◌, ℕ, ◌≤◌, ◌↔◌, ◌&&◌, List, false, not, Ok, Err, None, Some, IfOk, IfSome, OnOk, OnErr, IsTrue, if◌then◌else◌};
ghost use Rattle.std.specs.FinMap as map;
ghost use Rattle.cdm_flight.specs.declared.place.Place.TheVariants as place;
ghost use Rattle.cdm_flight.specs.Names.{same_name};
ghost use Rattle.cdm_flight.specs.Journal.{same_place};
ghost use Rattle.cdm_flight.specs.Taxi.{is_new_stand, is_one_stand_too_many, stands_in, taxi_out};
ghost use Rattle.cdm_taxi.specs.Stands.{has_row, stand_count};

use cdm_flight::{Ice, Place, RunwayName, StandName, TaxiMinutes};
use std::alloc::{AllocError, Global};
use std::collections::{BTreeMap, BTreeSet};
use std::marker::Model;

/// How many stands may have taxi times (local profile).
pub const MOST_STANDS: usize = 400;

/// Why a taxi time was not set.
#[derive(Clone, Copy, PartialEq, Eq, Debug)]
pub enum TaxiFault {
    /// The stand has no taxi time, and 400 others have.
    Full,
    /// There was no memory for the row.
    Memory,
}

impl From<AllocError> for TaxiFault {
    ghost use Rattle.cdm_taxi.specs.declared.table.TaxiFault.{TaxiFault};

    ghost from_gives = { λ _ fault. fault ≡ TaxiFault.Memory };

    fn from(_: AllocError) -> TaxiFault {
        TaxiFault::Memory
    }
}

/// The taxi times from places to runways, one at most for each place and runway (the manual's
/// variable taxi times).
#[derive(Debug)]
pub struct TaxiTable {
    minutes: BTreeMap<(Place, RunwayName), TaxiMinutes>,
    // The stands that have taxi times.
    stands: BTreeSet<StandName>,
}

// One call drops it, in place of its fields one by one at each exit of each function that owns it.
impl Drop for TaxiTable {
    fn drop(self) {
        let TaxiTable {
            minutes: _,
            stands: _,
        } = self;
    }
}

impl Model for TaxiTable {
    ghost use Rattle.std.specs.FinMap as map;
    ghost use Rattle.std.specs.Coded.{coded_ℕ};
    ghost use Rattle.cdm_flight.specs.Taxi.{TaxiRows};
    ghost use Rattle.cdm_taxi.specs.inner.Keys.{key_code};
    ghost use Rattle.cdm_taxi.specs.inner.StandSet.{AreStandsOf};

    ghost Value = { TaxiRows };

    ghost coded = { map.code key_code coded_ℕ };

    ghost view = { λ t. map.from_entries t.minutes.entries };

    ghost invariant = { λ t. AreStandsOf (map.from_entries t.minutes.entries) t.stands };
}

// Whether the taxi times are those of the other.
fn is_same_times(
    one: &BTreeMap<(Place, RunwayName), TaxiMinutes>,
    other: &BTreeMap<(Place, RunwayName), TaxiMinutes>,
) -> bool
    ensures { IsTrue result ↔ (one.now.entries ≡ other.now.entries) }
{
    one == other
}

impl TaxiTable {
    /// A table without taxi times.
    pub fn empty(alloc: Global) -> TaxiTable
        ensures { result ≡ map.empty }
    {
        TaxiTable {
            minutes: BTreeMap::new(alloc),
            stands: BTreeSet::new(alloc),
        }
    }

    /// The taxi time from the place to the runway, if there is a row of these two.
    pub fn minutes(&self, place: Place, runway: RunwayName) -> Option<TaxiMinutes>
        ensures { result ≡ map.get self.now (place, runway) }
    {
        self.minutes.get(&(place, runway)).copied()
    }

    // How many stands have rows.
    fn stands(&self) -> usize
        ensures { result ≡ stand_count self.now }
    {
        self.stands.len()
    }

    // Whether the stand has a row.
    fn has_row(&self, stand: StandName) -> bool
        ensures { result ≡ has_row self.now stand }
    {
        self.stands.contains(&stand)
    }

    // Whether the place is a stand without a row.
    fn is_new_stand(&self, place: &Place) -> bool
        ensures { result ≡ is_new_stand (stands_in self.now) place.now }
    {
        match place {
            Place::Default => false,
            Place::Stand(stand) => !self.has_row(*stand),
        }
    }

    /// Whether a taxi time from the place may be set: not from a stand without one where 400 stands
    /// have one.
    pub fn fits(&self, place: Place) -> bool
        ensures { result ≡ not (is_one_stand_too_many (stands_in self.now) place) }
    {
        self.stands() < MOST_STANDS || !self.is_new_stand(&place)
    }

    // Writes a row, in place of an older one.
    fn put(
        &mut self,
        place: Place,
        runway: RunwayName,
        minutes: TaxiMinutes,
    ) -> Result<(), AllocError>
        ensures ok { OnOk result (self.new ≡ map.insert self.old (place, runway) minutes) }
        ensures err { OnErr result (self.new ≡ self.old) }
        ensures new_row { OnErr result (map.get self.old (place, runway) ≡ None) }
    {
        if !self.is_new_stand(&place) {
            self.minutes.insert((place, runway), minutes)?;
            return Ok(());
        }
        let Place::Stand(stand) = place else {
            unreachable!()
        };
        self.put_first(stand, runway, minutes)
    }

    // Writes the first row of a stand.
    fn put_first(
        &mut self,
        stand: StandName,
        runway: RunwayName,
        minutes: TaxiMinutes,
    ) -> Result<(), AllocError>
        requires { has_row self.old stand ≡ false }
        ensures ok { OnOk result (self.new ≡ map.insert self.old (place.Stand stand, runway) minutes) }
        ensures err { OnErr result (self.new ≡ self.old) }
        ensures new_row { OnErr result (map.get self.old (place.Stand stand, runway) ≡ None) }
    {
        self.stands.insert(stand)?;
        match self.minutes.insert((Place::Stand(stand), runway), minutes) {
            Ok(_) => Ok(()),
            Err(_) => {
                self.stands.remove(&stand);
                Err(AllocError)
            }
        }
    }

    /// Sets the taxi time from the place to the runway, in place of an older one.
    ///
    /// `Full` where the place is a stand without a taxi time and 400 stands have one, `Memory` where
    /// there is none for a new row.
    pub fn set(
        &mut self,
        place: Place,
        runway: RunwayName,
        minutes: TaxiMinutes,
    ) -> Result<(), TaxiFault>
        ensures ok { OnOk result (self.new ≡ map.insert self.old (place, runway) minutes) }
        ensures full { (result ≡ Err TaxiFault.Full) ↔ IsTrue (is_one_stand_too_many (stands_in self.old) place) }
        ensures memory { result ≡ Err TaxiFault.Memory → map.get self.old (place, runway) ≡ None }
        ensures err { OnErr result (self.new ≡ self.old) }
        ensures rows { OnOk result ((p : Place) (r : List ℕ) → map.get self.new (p, r) ≡
            (if same_place place p && same_name runway r then Some minutes else map.get self.old (p, r))) }
    {
        if self.is_new_stand(&place) && self.stands() >= MOST_STANDS {
            return Err(TaxiFault::Full);
        }
        self.put(place, runway, minutes)?;
        Ok(())
    }

    /// The estimated taxi-out time (EXOT) to the runway: the taxi time from the stand, or the
    /// runway's default where the flight has no stand or its stand has no row, and the minutes of
    /// remote de-icing. None where there is neither row.
    pub fn exot(&self, stand: Option<StandName>, runway: RunwayName, ice: Ice) -> Option<u16>
        ensures value { result ≡ taxi_out (λ place. map.get self.now (place, runway)) stand ice }
        ensures range { IfSome result (λ minutes. minutes ≤ 180) }
    {
        let own = match stand {
            Some(stand) => self.minutes(Place::Stand(stand), runway),
            None => None,
        };
        let taxi = match own {
            Some(minutes) => minutes,
            None => self.minutes(Place::Default, runway)?,
        };
        let remote = match ice {
            Ice::Remote(minutes) => minutes.get(),
            _ => 0,
        };
        Some(taxi.get() + remote)
    }

    /// Whether both tables have the same taxi times.
    pub fn is_same(&self, other: &TaxiTable) -> bool
        ensures { IsTrue result ↔ (self.now ≡ other.now) }
    {
        self.minutes.len() == other.minutes.len() && is_same_times(&self.minutes, &other.minutes)
    }

    /// A copy of the table. Its memory comes from where the table's own does.
    pub fn copy(&self) -> Result<TaxiTable, AllocError>
        ensures { IfOk result (λ t. t ≡ self.now) }
    {
        let minutes = self.minutes.clone()?;
        let stands = self.stands.clone()?;
        Ok(TaxiTable { minutes, stands })
    }
}
