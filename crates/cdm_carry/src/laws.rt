//! Laws of what is carried.
ghost use Rattle.std.specs.Prelude.{ℕ, List};
ghost use Rattle.cdm_carry.specs.CarriedFeed.{HaveOneFeed};
ghost use Rattle.cdm_carry.specs.Laws.{StaysTheSame};

/// Of a flight that stays, the records that are carried say what all records said, before the next airport refuses some: its
/// priority, stand, runway, de-icing and group, and its TOBT, CTOT, AOBT and ATOT, each as a minute of the next day, or its first minute
/// where it was before.
pub fn flights_that_stay_are_the_same()
    ensures { StaysTheSame }
{}

/// The bytes of an airport file, of a feed and of the next airport file make one feed of the next day at most.
pub fn one_carried_feed()
    ensures { (airport feed next : List ℕ) → HaveOneFeed airport feed next }
{}
