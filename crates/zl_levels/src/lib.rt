//! Initialisation of flat forms: levels of places and occurrences, and what they are for.
#![tactic(auto)]

pub mod laws;
