//! Laws of the texts that a run writes.
ghost use Rattle.std.specs.Prelude.{ℕ, List};
ghost use Rattle.cdm_feed.specs.Made.{HaveOne};
ghost use Rattle.cdm_feed.specs.Output.{HaveOneText};
ghost use Rattle.cdm_feed.specs.declared.asked.Asked.{Asked};

/// For the bytes of an airport file, a feed and a scenario file there is at most one text.
pub fn one_text()
    ensures { (airport feed scenarios : List ℕ) → HaveOneText airport feed scenarios }
{}

/// For the bytes of three files there is at most one text of whatever is asked for, except of a picture and of a check.
pub fn one_text_each()
    ensures { (asked : Asked) (airport feed third : List ℕ) → HaveOne asked airport feed third }
{}
