//! Laws of a change of day.
ghost use Rattle.cdm_change.specs.AllAccepted.{AllAccepted};
ghost use Rattle.cdm_change.specs.Flights.{FlightsGoOn};
ghost use Rattle.cdm_change.specs.Unnoticed.{NobodyNotices};

/// A next airport with the airport's runways, cells, capacities, spacing times and taxi times accepts each record that is
/// carried, in its place.
pub fn all_accepted()
    ensures { AllAccepted }
{}

/// Such an airport has, behind what is carried, exactly the flights that stay, in their order, each as it was: its minutes less
/// 1440, or 0 where they were before that, and its priority, stand, runway, de-icing, group and taxi time the same, also one that its
/// off-block has fixed.
pub fn flights_go_on()
    ensures { FlightsGoOn }
{}

/// Nobody notices a change of day. Let the next airport have the runways, with their cells, capacities and spacing times, and
/// the taxi times of the airport. Let no flight be LEFT and none EARLIER, and let each flight that is airborne and stays behind
/// have taken off at least 60 minutes ago. Let no take-off of the next day's plan be past the horizon of the day before. Then
/// each flight that stays has in the next day's plan the slot that it had, with each minute less 1440, or 0 where it was before that, or is
/// blocked in both plans.
pub fn nobody_notices()
    ensures { NobodyNotices }
{}
