//! Laws of the kinds.
ghost use Rattle.std.specs.Prelude.{◌≡◌, ◌∷◌, List, filter};
ghost use Rattle.cdm_flight.specs.Authority.{may_make};
ghost use Rattle.cdm_flight.specs.declared.update.Update.{Update};
ghost use Rattle.cdm_kinds.specs.Kinds.{all_roles, fields_of, kind_of, roles_of, subject_of};
ghost use Rattle.cdm_kinds.specs.declared.field.Field.{Field};
ghost use Rattle.cdm_kinds.specs.declared.field.Field.TheVariants as field;
ghost use Rattle.cdm_kinds.specs.declared.kind.Kind.{Kind};
ghost use Rattle.cdm_kinds.specs.declared.subject.Subject.TheVariants as subject;

/// The roles that the table has for a kind are those that may make its updates (`allows`), and no others.
pub fn kinds_have_their_roles()
    ensures { (u : Update) → roles_of (kind_of u) ≡ filter (λ role. may_make role u) all_roles }
{}

/// The first field of a flight's kind is the flight.
pub fn flights_come_first()
    ensures { (kind : Kind) → subject_of kind ≡ subject.Flight → (others : List Field) × (fields_of kind ≡ field.Flight ∷ others) }
{}
