//! Groups of flights.
ghost use Rattle.std.specs.Prelude.{◌≡◌};
ghost use Rattle.cdm_flight.specs.Spacing.{group_of};

/// How heavy a flight is, as the airport spaces departures behind one another (local profile).
#[derive(Clone, Copy, Debug, PartialEq, Eq)]
pub enum Group {
    /// L.
    Light,
    /// M, that of a flight of which nothing else is known.
    Medium,
    /// H.
    Heavy,
}

impl Group {
    /// The group of this letter: L, M or H; None for another text.
    pub fn new(text: &[u8]) -> Option<Group>
        ensures { result ≡ group_of text.now }
    {
        match text {
            b"L" => Some(Group::Light),
            b"M" => Some(Group::Medium),
            b"H" => Some(Group::Heavy),
            _ => None,
        }
    }
}
