//! The tests of the calls of the front, from a text to its flat form.
#![tactic(auto)]

#[cfg(test)]
mod causality;
#[cfg(test)]
mod constructs;
#[cfg(test)]
mod files;
#[cfg(test)]
mod front;
#[cfg(test)]
mod lexing;
#[cfg(test)]
mod models;
#[cfg(test)]
mod parsing;
#[cfg(test)]
mod rules;
#[cfg(test)]
mod trees;
#[cfg(test)]
mod wide;
