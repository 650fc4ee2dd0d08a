//! What a walk makes.
#![tactic(auto, using(crate::proofs::PartsLaws::appending), unfolding(zl_flat::specs::Parts::joined, zl_flat::specs::Parts::nothing, zl_flat::specs::Parts::some_places, zl_flat::specs::Parts::some_definers, zl_flat::specs::Parts::one_block, zl_flat::specs::Parts::one_place, zl_flat::specs::Parts::one_occ, zl_flat::specs::Parts::one_hidden, zl_flat::specs::Parts::one_site, zl_flat::specs::Parts::one_choice, zl_flat::specs::Parts::one_automaton, crate::specs::Kept::with_block, crate::specs::Kept::with_occ, crate::specs::Kept::with_hidden, crate::specs::Kept::with_site, crate::specs::Kept::with_choice, crate::specs::Kept::with_automaton))]

ghost use Rattle.std.specs.Prelude.{◌≡◌, ◌+◌, ◌^◌, ◌<◌, [], ◌∷◌, length, OnOk, IfOk};
ghost use Rattle.zl_flat.specs.Parts as spec;
ghost use Rattle.zl_expand.specs.Kept as kept;

use std::alloc::{AllocError, Global};
use std::marker::Model;
use zl_flat::Given;
use zl_meaning::{Auto, Block, BlockKind, Choice, Definer, Form, Occ, PlaceInfo, SiteInfo};
use zl_value::{Pos, Sequence, Ty, Value};

/// What was made so far. The hidden occurrences, which no token has, stand apart.
#[derive(Drop)]
pub(crate) struct Parts {
    pub(crate) blocks: Vec<Block>,
    pub(crate) places: Vec<PlaceInfo>,
    pub(crate) definers: Vec<Given>,
    pub(crate) occs: Vec<Occ>,
    pub(crate) hidden: Vec<Occ>,
    pub(crate) sites: Vec<SiteInfo>,
    pub(crate) choices: Vec<Choice>,
    pub(crate) automata: Vec<Auto>,
}

impl Model for Parts {
    ghost use Rattle.zl_flat.specs.Parts.{Parts as TheParts};

    ghost Value = { TheParts };

    ghost view = { λ p. record {
      blocks = p.blocks.items;
      places = p.places.items;
      definers = p.definers.items;
      occs = p.occs.items;
      hidden = p.hidden.items;
      sites = p.sites.items;
      choices = p.choices.items;
      automata = p.automata.items;
    } };
}

/// A count as a number of a table.
pub(crate) fn number(count: usize) -> u32
    requires { count < 2 ^ 32 }
    ensures { result ≡ count }
{
    count as u32
}

fn unset_occ(alloc: Global) -> Occ
    ensures { result ≡ kept.unset_occ }
{
    Occ {
        block: 0,
        call: None,
        ty: Ty::Bool,
        at: Pos { line: 0, column: 0 },
        form: Form::Fired(Sequence::from_vec(Vec::new(alloc))),
    }
}

impl Parts {
    pub(crate) fn new(alloc: Global) -> Parts
        ensures { result ≡ spec.nothing }
    {
        Parts {
            blocks: Vec::new(alloc),
            places: Vec::new(alloc),
            definers: Vec::new(alloc),
            occs: Vec::new(alloc),
            hidden: Vec::new(alloc),
            sites: Vec::new(alloc),
            choices: Vec::new(alloc),
            automata: Vec::new(alloc),
        }
    }

    pub(crate) fn next_place(&self) -> u32
        requires { length self.now.places < 2 ^ 32 }
        ensures { result ≡ length self.now.places }
    {
        number(self.places.len())
    }

    pub(crate) fn next_site(&self) -> u32
        requires { length self.now.sites < 2 ^ 32 }
        ensures { result ≡ length self.now.sites }
    {
        number(self.sites.len())
    }

    pub(crate) fn add_place(&mut self, place: PlaceInfo) -> Result<(), AllocError>
        ensures { OnOk result (self.new ≡ spec.joined self.old (spec.one_place place)) }
    {
        self.places.push(place)?;
        Ok(())
    }

    pub(crate) fn define(&mut self, place: u32, definer: Definer) -> Result<(), AllocError>
        ensures { OnOk result (self.new ≡ spec.joined self.old (spec.some_definers (kept.given_to place definer ∷ []))) }
    {
        self.definers.push(Given { place, definer })?;
        Ok(())
    }

    pub(crate) fn add_block(&mut self, block: Block) -> Result<u32, AllocError>
        requires { length self.old.blocks < 2 ^ 32 }
        ensures number { IfOk result (λ n. n ≡ length self.old.blocks) }
        ensures made { OnOk result (self.new ≡ spec.joined self.old (spec.one_block block)) }
    {
        let n = number(self.blocks.len());
        self.blocks.push(block)?;
        Ok(n)
    }

    pub(crate) fn add_occ(&mut self, occ: Occ) -> Result<u32, AllocError>
        requires { length self.old.occs < 2 ^ 32 }
        ensures number { IfOk result (λ n. n ≡ length self.old.occs) }
        ensures made { OnOk result (self.new ≡ spec.joined self.old (spec.one_occ occ)) }
    {
        let n = number(self.occs.len());
        self.occs.push(occ)?;
        Ok(n)
    }

    /// Leaves room for a block whose kind isn't known yet.
    pub(crate) fn leave_block(&mut self) -> Result<u32, AllocError>
        requires { length self.old.blocks < 2 ^ 32 }
        ensures number { IfOk result (λ n. n ≡ length self.old.blocks) }
        ensures made { OnOk result (self.new ≡ spec.joined self.old (spec.one_block kept.unset_block)) }
    {
        self.add_block(Block {
            parent: None,
            kind: BlockKind::Main,
            hybrid: false,
        })
    }

    pub(crate) fn set_block(&mut self, n: u32, block: Block)
        requires { n < length self.old.blocks }
        ensures { self.new ≡ kept.with_block self.old n block }
    {
        self.blocks[n as usize] = block;
    }

    /// Leaves room for an occurrence whose parts aren't made yet.
    pub(crate) fn leave_occ(&mut self, alloc: Global) -> Result<u32, AllocError>
        requires { length self.old.occs < 2 ^ 32 }
        ensures number { IfOk result (λ n. n ≡ length self.old.occs) }
        ensures made { OnOk result (self.new ≡ spec.joined self.old (spec.one_occ kept.unset_occ)) }
    {
        self.add_occ(unset_occ(alloc))
    }

    pub(crate) fn set_occ(&mut self, n: u32, occ: Occ)
        requires { n < length self.old.occs }
        ensures { self.new ≡ kept.with_occ self.old n occ }
    {
        self.occs[n as usize] = occ;
    }

    pub(crate) fn leave_hidden(&mut self, alloc: Global) -> Result<u32, AllocError>
        requires { length self.old.hidden < 2 ^ 32 }
        ensures number { IfOk result (λ n. n ≡ length self.old.hidden) }
        ensures made { OnOk result (self.new ≡ spec.joined self.old (spec.one_hidden kept.unset_occ)) }
    {
        let n = number(self.hidden.len());
        self.hidden.push(unset_occ(alloc))?;
        Ok(n)
    }

    pub(crate) fn set_hidden(&mut self, n: u32, occ: Occ)
        requires { n < length self.old.hidden }
        ensures { self.new ≡ kept.with_hidden self.old n occ }
    {
        self.hidden[n as usize] = occ;
    }

    pub(crate) fn leave_site(&mut self) -> Result<u32, AllocError>
        requires { length self.old.sites < 2 ^ 32 }
        ensures number { IfOk result (λ n. n ≡ length self.old.sites) }
        ensures made { OnOk result (self.new ≡ spec.joined self.old (spec.one_site kept.unset_site)) }
    {
        let n = number(self.sites.len());
        self.sites.push(SiteInfo {
            block: 0,
            arg: 0,
            at: Pos { line: 0, column: 0 },
        })?;
        Ok(n)
    }

    pub(crate) fn set_site(&mut self, n: u32, site: SiteInfo)
        requires { n < length self.old.sites }
        ensures { self.new ≡ kept.with_site self.old n site }
    {
        self.sites[n as usize] = site;
    }

    pub(crate) fn leave_choice(&mut self, alloc: Global) -> Result<u32, AllocError>
        requires { length self.old.choices < 2 ^ 32 }
        ensures number { IfOk result (λ n. n ≡ length self.old.choices) }
        ensures made { OnOk result (self.new ≡ spec.joined self.old (spec.one_choice kept.unset_choice)) }
    {
        let n = number(self.choices.len());
        self.choices.push(Choice {
            block: 0,
            conds: Sequence::from_vec(Vec::new(alloc)),
            other: false,
        })?;
        Ok(n)
    }

    pub(crate) fn set_choice(&mut self, n: u32, choice: Choice)
        requires { n < length self.old.choices }
        ensures { self.new ≡ kept.with_choice self.old n choice }
    {
        self.choices[n as usize] = choice;
    }

    pub(crate) fn leave_automaton(&mut self, alloc: Global) -> Result<u32, AllocError>
        requires { length self.old.automata < 2 ^ 32 }
        ensures number { IfOk result (λ n. n ≡ length self.old.automata) }
        ensures made { OnOk result (self.new ≡ spec.joined self.old (spec.one_automaton kept.unset_automaton)) }
    {
        let n = number(self.automata.len());
        self.automata.push(Auto {
            block: 0,
            states: Sequence::from_vec(Vec::new(alloc)),
        })?;
        Ok(n)
    }

    pub(crate) fn set_automaton(&mut self, n: u32, automaton: Auto)
        requires { n < length self.old.automata }
        ensures { self.new ≡ kept.with_automaton self.old n automaton }
    {
        self.automata[n as usize] = automaton;
    }
}
