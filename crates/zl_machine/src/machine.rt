// The machine, call by call.
ghost use Rattle.std.specs.Prelude.{◌≡◌, ◌<◌, true, [], length, map, IfOk, Some, None};
ghost use Rattle.zl_value.specs.Instants.{Step, Left};
ghost use Rattle.zl_code.specs.System.{instant_of};
ghost use Rattle.zl_machine.specs.Calls.{made, outcome, after_instant, flow_outcome, after_flow, move_fault, move_answer, after_move, output_value, site_view, site_line};
ghost use Rattle.zl_machine.specs.MachineForm.{MachineForm, goes_on, has_instant, has_flow};

use crate::cells::{clear, empty, read, set_starts, set_values};
use crate::decoding::{Program, decode};
use crate::method::run_method;
use crate::mode::Mode;
use crate::moving::move_all;
use crate::operator::{as_float, slope, truth_of};
use crate::outcome::{
    FlowOutcome, Outcome, SiteView, after_left, after_step, flow_mode_of, in_flow, mode_of,
};
use std::alloc::{AllocError, Global};
use std::marker::Model;
use std::mem;
use zl_code::Code;
use zl_value::{Fault, Frac, Line, Value};

/// A machine that runs a code. Its buffers are made with it, and no other call takes memory.
#[derive(Drop)]
pub struct Machine<'c> {
    code: &'c Code,
    stepping: Program,
    leaving: Program,
    flowing: Program,
    mode: Mode,
    mems: Vec<Option<Value>>,
    /// The memories as a method under way leaves them.
    next: Vec<Option<Value>>,
    inputs: Vec<Option<Value>>,
    /// Empty registers, from which a method begins.
    blank: Vec<Option<Value>>,
    regs: Vec<Option<Value>>,
    /// The registers of a flow.
    rates: Vec<Option<Value>>,
}

impl<'c> Model for Machine<'c> {
    ghost use Rattle.zl_machine.specs.MachineForm.{MachineForm};
    ghost use Rattle.zl_machine.specs.Keeping.{IsMachine};

    ghost Value = { MachineForm };

    ghost view = { λ m. record {
      code = m.code.now;
      mode = m.mode;
      mems = m.mems.items;
      inputs = m.inputs.items;
      regs = m.regs.items;
      rates = m.rates.items;
    } };

    ghost invariant = { λ m. IsMachine (record {
      code = m.code.now;
      mode = m.mode;
      mems = m.mems.items;
      inputs = m.inputs.items;
      regs = m.regs.items;
      rates = m.rates.items;
    }) m.stepping m.leaving m.flowing m.blank.items m.next.items };
}

impl<'c> Machine<'c> {
    /// A machine on a code, before its first step: each memory holds its start value.
    pub fn make(alloc: Global, code: &'c Code) -> Result<Machine<'c>, AllocError>
        ensures { IfOk result (λ m. m ≡ made code.now) }
    {
        let stepping = decode(alloc, code.step.as_slice())?;
        let leaving = decode(alloc, code.left.as_slice())?;
        let flowing = decode(alloc, code.flow.as_slice())?;
        let mut mems = empty(alloc, code.mems.len())?;
        set_starts(mems.as_mut_slice(), code.mems.as_slice());
        Ok(Machine {
            code,
            stepping,
            leaving,
            flowing,
            mode: Mode::Fresh,
            mems,
            next: empty(alloc, code.mems.len())?,
            inputs: empty(alloc, code.ins.len())?,
            blank: empty(alloc, code.regs.len())?,
            regs: empty(alloc, code.regs.len())?,
            rates: empty(alloc, code.regs.len())?,
        })
    }

    /// As just made.
    pub fn restart(&mut self)
        ensures { self.new ≡ made self.old.code }
    {
        let code: &Code = self.code;
        set_starts(self.mems.as_mut_slice(), code.mems.as_slice());
        clear(self.inputs.as_mut_slice());
        clear(self.regs.as_mut_slice());
        clear(self.rates.as_mut_slice());
        self.mode = Mode::Fresh;
    }

    /// A step: `events` says of each site whether it fired, and `inputs` are the values of the inputs in their order.
    pub fn step(&mut self, events: &[bool], inputs: &[Value]) -> Outcome
        requires going { goes_on self.old.mode ≡ true }
        requires inputs { length inputs.now ≡ length self.old.code.ins }
        ensures answer { result ≡ outcome self.old.code Step (instant_of self.old.code Step self.old.mems (map Some inputs.now) events.now) }
        ensures after { self.new ≡ after_instant self.old Step (map Some inputs.now) (instant_of self.old.code Step self.old.mems (map Some inputs.now) events.now) }
    {
        set_values(self.inputs.as_mut_slice(), inputs);
        let found = run_method(
            &self.stepping,
            self.blank.as_slice(),
            self.mems.as_slice(),
            self.inputs.as_slice(),
            events,
            self.regs.as_mut_slice(),
            self.next.as_mut_slice(),
        );
        mem::swap(&mut self.mems, &mut self.next);
        let outcome = after_step(self.code, found, self.regs.as_slice());
        self.mode = mode_of(outcome);
        outcome
    }

    /// The left end of a flow: it has no events, keeps the inputs of the last step, and demands no step.
    pub fn left(&mut self) -> Outcome
        requires { has_instant self.old.mode ≡ true }
        ensures answer { result ≡ outcome self.old.code Left (instant_of self.old.code Left self.old.mems self.old.inputs []) }
        ensures after { self.new ≡ after_instant self.old Left self.old.inputs (instant_of self.old.code Left self.old.mems self.old.inputs []) }
    {
        let events: &[bool] = &[];
        let found = run_method(
            &self.leaving,
            self.blank.as_slice(),
            self.mems.as_slice(),
            self.inputs.as_slice(),
            events,
            self.regs.as_mut_slice(),
            self.next.as_mut_slice(),
        );
        mem::swap(&mut self.mems, &mut self.next);
        let outcome = after_left(self.code, found, self.regs.as_slice());
        self.mode = mode_of(outcome);
        outcome
    }

    /// The slopes of the flow after the last instant. Memories and what the instant shows stay.
    pub fn flow(&mut self) -> FlowOutcome
        requires { has_instant self.old.mode ≡ true }
        ensures answer { result ≡ flow_outcome self.old }
        ensures after { self.new ≡ after_flow self.old }
    {
        let found = run_method(
            &self.flowing,
            self.blank.as_slice(),
            self.mems.as_slice(),
            self.inputs.as_slice(),
            &[],
            self.rates.as_mut_slice(),
            self.next.as_mut_slice(),
        );
        let outcome = in_flow(
            self.code,
            found,
            self.regs.as_slice(),
            self.mems.as_slice(),
            self.rates.as_slice(),
        );
        self.mode = flow_mode_of(outcome);
        outcome
    }

    /// The line along which a site moves in the flow that was asked for last. `None` exactly where the site has no value.
    pub fn line(&self, k: usize) -> Option<Line>
        requires flows { has_flow self.now.mode ≡ true }
        requires inside { k < length self.now.code.sites }
        ensures { result ≡ site_line self.now k }
    {
        let code: &Code = self.code;
        let site = code.sites.as_slice()[k];
        match as_float(read(self.regs.as_slice(), site.value)) {
            Some(value) => Some(Line {
                value,
                slope: slope(read(self.rates.as_slice(), site.slope)),
            }),
            None => None,
        }
    }

    /// Moves the memories that have a slope by a time. A range fault is that of the first number that isn't in the width:
    /// of how far each memory moves, in their order, and then of where each comes to; it is at the position of the memory.
    pub fn advance(&mut self, by: Frac) -> Result<(), Fault>
        requires { has_flow self.old.mode ≡ true }
        ensures answer { result ≡ move_answer (move_fault self.old by) }
        ensures after { self.new ≡ after_move self.old by (move_fault self.old by) }
    {
        let code: &Code = self.code;
        let moved = move_all(
            code.mems.as_slice(),
            self.mems.as_slice(),
            self.rates.as_slice(),
            by,
            self.next.as_mut_slice(),
        );
        match moved {
            None => {
                mem::swap(&mut self.mems, &mut self.next);
                Ok(())
            }
            Some(fault) => {
                self.mode = Mode::Over;
                Err(fault)
            }
        }
    }

    /// The value of an output after the last instant.
    pub fn output(&self, k: usize) -> Value
        requires ready { has_instant self.now.mode ≡ true }
        requires inside { k < length self.now.code.outs }
        ensures { Some result ≡ output_value self.now k }
    {
        let code: &Code = self.code;
        match read(self.regs.as_slice(), code.outs.as_slice()[k].from) {
            Some(value) => value,
            None => unreachable!(),
        }
    }

    /// A site after the last instant.
    pub fn site(&self, k: usize) -> SiteView
        requires ready { has_instant self.now.mode ≡ true }
        requires inside { k < length self.now.code.sites }
        ensures { result ≡ site_view self.now k }
    {
        let code: &Code = self.code;
        let site = code.sites.as_slice()[k];
        let value = as_float(read(self.regs.as_slice(), site.value));
        SiteView {
            value,
            fresh: value.is_some() && truth_of(read(self.regs.as_slice(), site.fresh)),
        }
    }
}
