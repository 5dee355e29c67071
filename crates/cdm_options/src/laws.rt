//! Laws of options.
ghost use Rattle.cdm_options.specs.Laws.{AreWhatIfs};

/// Each record that is told is a what-if: alone, as a scenario, it gives the flight the take-off and the day the indicators that
/// are told of it, and the flight takes off sooner than without it, or at all.
pub fn each_option_is_a_what_if()
    ensures { AreWhatIfs }
{}
