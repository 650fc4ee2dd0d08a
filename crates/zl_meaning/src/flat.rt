use crate::{Auto, Block, Choice, Occ, PlaceInfo, SiteInfo};
use std::marker::Model;
use zl_value::Sequence;

/// A program without calls: each call is a copy of the called body. Everything is named by its number in one of these
/// lists, from 0.
#[derive(Debug, Drop)]
pub struct Flat {
    pub blocks: Sequence<Block>,
    pub places: Sequence<PlaceInfo>,
    pub occs: Sequence<Occ>,
    pub sites: Sequence<SiteInfo>,
    pub choices: Sequence<Choice>,
    pub automata: Sequence<Auto>,
    /// Occurrences of type bool, each of which demands a further step where it is true at a step.
    pub again: Sequence<u32>,
    /// The places of the inputs.
    pub ins: Sequence<u32>,
    /// The places of the outputs.
    pub outs: Sequence<u32>,
}

impl Model for Flat {
    ghost use Rattle.zl_meaning.specs.FlatForm.{FlatForm};
    ghost use Rattle.zl_meaning.specs.WellFormed.{IsWellFormed};

    ghost Value = { FlatForm };

    ghost view = { λ f. record {
      blocks = f.blocks;
      places = f.places;
      occs = f.occs;
      sites = f.sites;
      choices = f.choices;
      automata = f.automata;
      again = f.again;
      ins = f.ins;
      outs = f.outs;
    } };

    ghost invariant = { λ f. IsWellFormed (record {
      blocks = f.blocks;
      places = f.places;
      occs = f.occs;
      sites = f.sites;
      choices = f.choices;
      automata = f.automata;
      again = f.again;
      ins = f.ins;
      outs = f.outs;
    }) };
}
