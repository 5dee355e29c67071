//! Laws of a check.
ghost use Rattle.std.specs.Prelude.{◌≡◌, true, ℕ, List, length};
ghost use Rattle.cdm_flight.specs.Journal.{AirportRows};
ghost use Rattle.cdm_files.specs.FeedDay.{refusals_in};
ghost use Rattle.cdm_files.specs.Records.{records_of};
ghost use Rattle.cdm_check.specs.Findings.{is_no_feed};

/// All records of a file that is no feed are refused, as the hint says that stands for them.
pub fn no_feed_is_refused()
    ensures { (g : AirportRows) (bytes : List ℕ) → is_no_feed bytes ≡ true → length (refusals_in g bytes) ≡ length (records_of bytes) }
{}
