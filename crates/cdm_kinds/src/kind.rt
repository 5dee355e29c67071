//! The kinds of updates: the one table of their records.
ghost use Rattle.std.specs.Prelude.{◌≡◌, bytes_eq};
ghost use Rattle.std.specs.List.{find};
ghost use Rattle.std.specs.Option.{option_copied};
ghost use Rattle.cdm_kinds.specs.Kinds.{all_kinds, fields_of, kind_name, kind_named, kind_of, roles_of, subject_of};

use crate::field::Field;
use crate::subject::Subject;
use cdm_flight::{Role, Update};

/// A kind of updates, and of the records that make them.
#[derive(Clone, Copy, Debug, PartialEq, Eq)]
pub enum Kind {
    /// FLT: a flight becomes known.
    Flt,
    /// TOBT: its target off-block time.
    Tobt,
    /// STAND: where it is parked.
    Stand,
    /// RWY: its runway.
    Rwy,
    /// CTOT: its calculated take-off time, or none any more.
    Ctot,
    /// ICE: its de-icing.
    Ice,
    /// PRIO: its priority.
    Prio,
    /// GROUP: how heavy it is.
    Group,
    /// OFF: its actual off-block time.
    Off,
    /// AIR: its actual take-off time.
    Air,
    /// CNL: it is cancelled.
    Cnl,
    /// RATE: the capacity of a runway's cells in a window.
    Rate,
    /// CLOSE: a runway is closed in a window.
    Close,
    /// OPEN: it is open in a window.
    Reopen,
    /// TAXI: the taxi time from a stand to a runway.
    Taxi,
    /// CLOCK: the time that it is.
    Clock,
    /// TOL: the tolerance of every CTOT.
    Tol,
}

impl Kind {
    /// All kinds, in the order of the table: those of flights, of runways, of taxi times and of the day.
    pub fn all() -> &'static [Kind]
        ensures { result.now ≡ all_kinds }
    {
        &[
            Kind::Flt,
            Kind::Tobt,
            Kind::Stand,
            Kind::Rwy,
            Kind::Ctot,
            Kind::Ice,
            Kind::Prio,
            Kind::Group,
            Kind::Off,
            Kind::Air,
            Kind::Cnl,
            Kind::Rate,
            Kind::Close,
            Kind::Reopen,
            Kind::Taxi,
            Kind::Clock,
            Kind::Tol,
        ]
    }

    /// The word that names it in a record.
    pub fn name(self) -> &'static str
        ensures { result.now ≡ kind_name self }
    {
        match self {
            Kind::Flt => "FLT",
            Kind::Tobt => "TOBT",
            Kind::Stand => "STAND",
            Kind::Rwy => "RWY",
            Kind::Ctot => "CTOT",
            Kind::Ice => "ICE",
            Kind::Prio => "PRIO",
            Kind::Group => "GROUP",
            Kind::Off => "OFF",
            Kind::Air => "AIR",
            Kind::Cnl => "CNL",
            Kind::Rate => "RATE",
            Kind::Close => "CLOSE",
            Kind::Reopen => "OPEN",
            Kind::Taxi => "TAXI",
            Kind::Clock => "CLOCK",
            Kind::Tol => "TOL",
        }
    }

    /// The kind that a field of a record names, byte by byte.
    pub fn named(text: &[u8]) -> Option<Kind>
        ensures { result ≡ kind_named text.now }
    {
        find_named(Kind::all(), text).copied()
    }

    /// The kind of an update.
    pub fn of(update: &Update) -> Kind
        ensures { result ≡ kind_of update.now }
    {
        match update {
            Update::Flt { .. } => Kind::Flt,
            Update::Tobt { .. } => Kind::Tobt,
            Update::Stand { .. } => Kind::Stand,
            Update::Rwy { .. } => Kind::Rwy,
            Update::Ctot { .. } => Kind::Ctot,
            Update::Ice { .. } => Kind::Ice,
            Update::Prio { .. } => Kind::Prio,
            Update::Group { .. } => Kind::Group,
            Update::Off { .. } => Kind::Off,
            Update::Air { .. } => Kind::Air,
            Update::Cnl { .. } => Kind::Cnl,
            Update::Rate { .. } => Kind::Rate,
            Update::Close { .. } => Kind::Close,
            Update::Reopen { .. } => Kind::Reopen,
            Update::Taxi { .. } => Kind::Taxi,
            Update::Clock { .. } => Kind::Clock,
            Update::Tol { .. } => Kind::Tol,
        }
    }

    /// What it is of.
    pub fn subject(self) -> Subject
        ensures { result ≡ subject_of self }
    {
        match self {
            Kind::Flt
            | Kind::Tobt
            | Kind::Stand
            | Kind::Rwy
            | Kind::Ctot
            | Kind::Ice
            | Kind::Prio
            | Kind::Group
            | Kind::Off
            | Kind::Air
            | Kind::Cnl => Subject::Flight,
            Kind::Rate | Kind::Close | Kind::Reopen => Subject::Runway,
            Kind::Taxi => Subject::Taxi,
            Kind::Clock | Kind::Tol => Subject::Day,
        }
    }

    /// The roles that may send it.
    pub fn roles(self) -> &'static [Role]
        ensures { result.now ≡ roles_of self }
    {
        match self {
            Kind::Flt | Kind::Stand | Kind::Group => &[Role::AirportOperator],
            Kind::Tobt => &[Role::AircraftOperator, Role::GroundHandler],
            Kind::Rwy
            | Kind::Prio
            | Kind::Off
            | Kind::Air
            | Kind::Rate
            | Kind::Close
            | Kind::Reopen
            | Kind::Taxi
            | Kind::Clock => &[Role::AirTrafficControl],
            Kind::Ctot | Kind::Tol => &[Role::NetworkManager],
            Kind::Ice => &[Role::GroundHandler],
            Kind::Cnl => &[Role::AircraftOperator],
        }
    }

    /// The fields that follow its word. The first one of a flight's kind is the flight.
    pub fn fields(self) -> &'static [Field]
        ensures { result.now ≡ fields_of self }
    {
        match self {
            Kind::Flt | Kind::Prio => &[Field::Flight, Field::Priority],
            Kind::Tobt | Kind::Off | Kind::Air => &[Field::Flight, Field::Time],
            Kind::Stand => &[Field::Flight, Field::Stand],
            Kind::Rwy => &[Field::Flight, Field::Runway],
            Kind::Ctot => &[Field::Flight, Field::Ctot],
            Kind::Ice => &[Field::Flight, Field::IceKind, Field::IceMinutes],
            Kind::Group => &[Field::Flight, Field::Group],
            Kind::Cnl => &[Field::Flight],
            Kind::Rate => &[Field::Runway, Field::From, Field::To, Field::Cap],
            Kind::Close | Kind::Reopen => &[Field::Runway, Field::From, Field::To],
            Kind::Taxi => &[Field::Place, Field::Runway, Field::TaxiMinutes],
            Kind::Clock => &[Field::Time],
            Kind::Tol => &[Field::Before, Field::After],
        }
    }
}

// The first of the kinds that has this word.
fn find_named<'a>(kinds: &'a [Kind], word: &[u8]) -> Option<&'a Kind>
    ensures { option_copied result ≡ find (λ kind. bytes_eq (kind_name kind) word.now) kinds.now }
{
    kinds.iter().find(|kind| kind.name().as_bytes() == word)
}
