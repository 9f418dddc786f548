//! The standing of a series explained: for each race and each boat the numbers that lead to the
//! table, and the rule that separates boats with the same series score.
//!
//! A document is one JSON object. It has sails, numbers and fixed words alone.
#![tactic(auto)]

mod after_parts;
mod averaging;
mod boat_parts;
mod boats;
mod documents;
mod fields;
mod makers;
mod neighbour_parts;
mod parts;
mod race_parts;
mod races;
mod separations;
mod series;
mod sums;
mod ties;
mod whole;

pub use averaging::averaged_races;
pub use documents::write_document;
pub use makers::{last_entry, place_of};
pub use parts::{
    BoatPart, BoatRows, Compared, Document, GroupPart, HeldPart, NeighbourPart, RacePart, RaceRows,
    RankPart, RanksAfter, RulesPart, ScorePart, Separation,
};
pub use separations::{first_difference, last_difference, separation_of};
pub use whole::{document_of, write_explained};
