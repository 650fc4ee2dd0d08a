use crate::{KMem, KSite, Wire};
use std::marker::Model;
use zl_value::{Input, Output, Sequence};

/// A program as wires and memories. Everything is named by its number in one of these lists, from 0. An output's `from` is a
/// wire. This project's own.
#[derive(Debug, Drop)]
pub struct Kernel {
    pub wires: Sequence<Wire>,
    pub mems: Sequence<KMem>,
    pub ins: Sequence<Input>,
    pub outs: Sequence<Output>,
    pub sites: Sequence<KSite>,
    /// A wire of type bool: a step at which it is true demands a further one.
    pub again: u32,
}

impl Model for Kernel {
    ghost use Rattle.zl_kernel.specs.KernelForm.{KernelForm};
    ghost use Rattle.zl_kernel.specs.WellFormed.{IsWellFormed};

    ghost Value = { KernelForm };

    ghost view = { λ k. record {
      wires = k.wires;
      mems = k.mems;
      ins = k.ins;
      outs = k.outs;
      sites = k.sites;
      again = k.again;
    } };

    ghost invariant = { λ k. IsWellFormed (record {
      wires = k.wires;
      mems = k.mems;
      ins = k.ins;
      outs = k.outs;
      sites = k.sites;
      again = k.again;
    }) };
}
