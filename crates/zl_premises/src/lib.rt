//! From what the passes find of a flat form to the premises of the law of normal forms.
#![tactic(auto)]

pub mod laws;
