//! Airport files: what their records spell, and the airport that they say.
ghost use Rattle.std.specs.Prelude.{◌≡◌, Ok, Some, IfOk, IfErr, OnOk};
ghost use Rattle.csv.specs.Records.{fields_of};
ghost use Rattle.cdm_flight.specs.Cells.{is_cell_length};
ghost use Rattle.cdm_files.specs.AirportFile.{airport_in, airport_record_of, with_record};
ghost use Rattle.cdm_files.specs.CommonFaults.{IsAirportFault};
ghost use Rattle.cdm_files.specs.Fields.{and_then, from_to, number_field};
ghost use Rattle.cdm_files.specs.Files.{IsFaultOf};
ghost use Rattle.cdm_files.specs.inner.RecordFaults.{IsRecordFaultOf, row_fault};

use crate::common_fault::CommonFault;
use crate::field::{
    all_three, cap_field, day_field, field_at, group_field, name_field, number_field, place_field,
    taxi_field,
};
use crate::file_fault::{FileFault, RecordFault};
use crate::record_reader::RecordReader;
use cdm_day::{Airport, AirportFault};
use cdm_flight::{Cap, CellLength, Group, Occupancy, Place, RefusalWord, RunwayName, TaxiMinutes};
use cdm_time::Day;
use csv::ByteRecord;
use std::alloc::Global;

/// What a record of the airport file says (local profile).
#[derive(Clone, Copy, PartialEq, Eq)]
pub(crate) enum AirportRecord {
    /// DAY: the horizon's first day.
    Day(Day),
    /// RUNWAY: a runway, the length of its cells and the capacity of each.
    Runway {
        runway: RunwayName,
        cell: CellLength,
        cap: Cap,
    },
    /// TAXI: the taxi time from a place to a runway.
    Taxi {
        place: Place,
        runway: RunwayName,
        minutes: TaxiMinutes,
    },
    /// SPACE: for how long a departure of a group occupies a runway.
    Space {
        runway: RunwayName,
        group: Group,
        occupancy: Occupancy,
    },
}

/// The length of a runway's cells, a divisor of the hour.
#[tactic(auto, unfolding(crate::specs::Fields::number_field))]
pub fn cell_field(text: &[u8]) -> Result<CellLength, RefusalWord>
    ensures { result ≡ number_field is_cell_length text.now }
{
    CellLength::new(number_field(text)?).ok_or(RefusalWord::Range)
}

/// For how long a departure occupies a runway, 0 to 5 minutes.
#[tactic(auto, unfolding(crate::specs::Fields::number_field))]
pub fn occupancy_field(text: &[u8]) -> Result<Occupancy, RefusalWord>
    ensures { result ≡ number_field (from_to 0 5) text.now }
{
    Occupancy::new(number_field(text)?).ok_or(RefusalWord::Range)
}

// What a record of the airport file spells, or the first word that refuses it: Fields where a
// known kind has another number of fields, Kind, Text or Range.
#[tactic(auto, using(crate::proofs::SeveralLemmas::of_all_three), unfolding(crate::specs::AirportFile::airport_record_of))]
fn airport_record(row: &ByteRecord) -> Result<AirportRecord, RefusalWord>
    ensures { result ≡ airport_record_of (fields_of row.now) }
{
    let kind = field_at(row, 0);
    let (first, second, third) = (field_at(row, 1), field_at(row, 2), field_at(row, 3));
    if kind == b"DAY".as_slice() {
        if row.len() != 2 {
            return Err(RefusalWord::Fields);
        }
        Ok(AirportRecord::Day(day_field(first)?))
    } else if kind == b"RUNWAY".as_slice() {
        if row.len() != 4 {
            return Err(RefusalWord::Fields);
        }
        let (runway, cell, cap) = all_three(
            name_field(first),
            cell_field(second),
            cap_field(third),
        )?;
        Ok(AirportRecord::Runway { runway, cell, cap })
    } else if kind == b"TAXI".as_slice() {
        if row.len() != 4 {
            return Err(RefusalWord::Fields);
        }
        let (place, runway, minutes) = all_three(
            place_field(first),
            name_field(second),
            taxi_field(third),
        )?;
        Ok(AirportRecord::Taxi {
            place,
            runway,
            minutes,
        })
    } else if kind == b"SPACE".as_slice() {
        if row.len() != 4 {
            return Err(RefusalWord::Fields);
        }
        let (runway, group, occupancy) = all_three(
            name_field(first),
            group_field(second),
            occupancy_field(third),
        )?;
        Ok(AirportRecord::Space {
            runway,
            group,
            occupancy,
        })
    } else {
        Err(RefusalWord::Kind)
    }
}

// Why a row can't be added to an airport.
fn row_fault(fault: AirportFault) -> RecordFault
    ensures { result ≡ row_fault fault }
{
    match fault.word() {
        Some(word) => RecordFault::Refused(word),
        None => RecordFault::Memory,
    }
}

// Adds a record to an airport whose day is known.
#[tactic(auto, unfolding(crate::specs::AirportFile::with_record), using(crate::proofs::RowLemmas::row_refused))]
fn add_row(airport: &mut Airport, said: AirportRecord) -> Result<(), RecordFault>
    ensures added { OnOk result (with_record (Some airport.old) said ≡ Ok (Some airport.new)) }
    ensures refused { IfErr result (λ e. IsRecordFaultOf (with_record (Some airport.old) said) e) }
{
    match said {
        AirportRecord::Day(_) => Err(RecordFault::Refused(RefusalWord::Order)),
        AirportRecord::Runway { runway, cell, cap } => {
            match airport.add_runway(runway, cell, cap) {
                Ok(()) => Ok(()),
                Err(fault) => Err(row_fault(fault)),
            }
        }
        AirportRecord::Taxi {
            place,
            runway,
            minutes,
        } => match airport.add_taxi(place, runway, minutes) {
            Ok(()) => Ok(()),
            Err(fault) => Err(row_fault(fault)),
        },
        AirportRecord::Space {
            runway,
            group,
            occupancy,
        } => match airport.add_space(runway, group, occupancy) {
            Ok(()) => Ok(()),
            Err(fault) => Err(row_fault(fault)),
        },
    }
}

// The airport after one more record.
#[tactic(auto, unfolding(crate::specs::AirportFile::with_record))]
fn add(alloc: Global, airport: Option<Airport>, said: AirportRecord) -> Result<Airport, RecordFault>
    ensures added { IfOk result (λ g. with_record airport said ≡ Ok (Some g)) }
    ensures refused { IfErr result (λ e. IsRecordFaultOf (with_record airport said) e) }
{
    let Some(mut airport) = airport else {
        return match said {
            AirportRecord::Day(day) => Ok(Airport::new(alloc, day)),
            AirportRecord::Runway { .. } => Err(RecordFault::Refused(RefusalWord::Order)),
            AirportRecord::Taxi { .. } | AirportRecord::Space { .. } => {
                Err(RecordFault::Refused(RefusalWord::Unknown))
            }
        };
    };
    add_row(&mut airport, said)?;
    Ok(airport)
}

// The airport after one more record, as its fields spell it.
fn add_record(
    alloc: Global,
    airport: Option<Airport>,
    row: &ByteRecord,
) -> Result<Airport, RecordFault>
    ensures added { IfOk result (λ g. and_then (airport_record_of (fields_of row.now)) (with_record airport) ≡ Ok (Some g)) }
    ensures refused { IfErr result (λ e. IsRecordFaultOf (and_then (airport_record_of (fields_of row.now)) (with_record airport)) e) }
{
    match airport_record(row) {
        Ok(said) => add(alloc, airport, said),
        Err(word) => Err(RecordFault::Refused(word)),
    }
}

/// The airport that a file says: its day, its runways with their occupancies, and its taxi times. Records
/// are numbered from 1, and a blank line is none.
///
/// `Refused` with the number and the word of the first faulty record, the first that holds of Fields,
/// Kind, Text, Range, Unknown, Exists, Order and Full; a file without records is refused with record 1
/// and Order (local profile). `Memory` where there is none.
#[tactic(auto, unfolding(crate::specs::AirportFile::airport_in, crate::specs::Files::after_records))]
pub fn read_airport(alloc: Global, text: &[u8]) -> Result<Airport, FileFault>
    ensures said { IfOk result (λ g. airport_in text.now ≡ Ok g) }
    ensures fault { IfErr result (λ e. IsFaultOf (airport_in text.now) e) }
{
    let mut reader = RecordReader::new(alloc, text);
    let mut row = ByteRecord::new(alloc);
    let mut airport = None;
    let mut number = 0;
    'records: while reader.read(&mut row)? {
        number += 1;
        match add_record(alloc, airport, &row) {
            Ok(next) => airport = Some(next),
            Err(fault) => return Err(fault.at(number)),
        }
    }
    airport.ok_or(FileFault::Refused(1, RefusalWord::Order))
}

/// The airport that the file of a run says, or the fault of the run: `Airport`, the number and the word of
/// its first faulty record, or `Memory`.
pub fn airport_of(alloc: Global, text: &[u8]) -> Result<Airport, CommonFault>
    ensures said { IfOk result (λ g. airport_in text.now ≡ Ok g) }
    ensures fault { IfErr result (IsAirportFault text.now) }
{
    match read_airport(alloc, text) {
        Ok(airport) => Ok(airport),
        Err(FileFault::Refused(number, word)) => Err(CommonFault::Airport(number, word)),
        Err(FileFault::Memory) => Err(CommonFault::Memory),
    }
}
