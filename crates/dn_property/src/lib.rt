//! Properties of a zone, how they are stored, and the rules of aging that they give.
#![tactic(auto)]

mod error;
pub mod ids;
mod laws;
mod number;
mod property;
mod rules;
mod stored;
mod threads;

pub use error::{PropertyError, PropertyFault, PropertyReadError};
pub use laws::{
    first_faults_are_one, properties_are_in_range, properties_are_spelled_once,
    properties_have_one_spelling,
};
pub use property::Property;
pub use rules::{ZoneRules, is_due, is_stale, refresh_allowed, rules_of};
pub use stored::{read_property, write_property};
