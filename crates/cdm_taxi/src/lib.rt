//! Variable taxi times: the taxi-out minutes from each place to each runway.
#![tactic(auto)]

mod table;

pub use table::{MOST_STANDS, TaxiFault, TaxiTable};
