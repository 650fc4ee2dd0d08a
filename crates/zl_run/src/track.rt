// What a run keeps beside its machine.
ghost use Rattle.std.specs.Prelude.{◌≡◌, length, replicate, IfOk, None, pos, false};
ghost use Rattle.zl_value.specs.Fraction.{whole};
ghost use Rattle.zl_value.specs.declared.value.Value.TheVariants.{B};
ghost use Rattle.zl_run.specs.Tracks.{IsNewTrack};

use crate::clock::Clock;
use std::alloc::Global;
use zl_code::Code;
use zl_outside::Memory;
use zl_value::{Frac, Line, Mark, Value};

/// The clock, the first script line that isn't passed, the inputs, and of each site whether it was below zero at the
/// latest instant, whether it fired after that, and its line in a flow.
#[derive(Drop)]
pub(crate) struct Track {
    pub clock: Clock,
    pub next: usize,
    pub inputs: Vec<Value>,
    pub below: Vec<bool>,
    pub events: Vec<bool>,
    pub lines: Vec<Option<Line>>,
}

/// Before the first step.
pub(crate) fn new_track(alloc: Global, code: &Code) -> Result<Track, Memory>
    ensures { IfOk result (IsNewTrack code.now) }
{
    Ok(Track {
        clock: Clock {
            time: Frac::zero(),
            mark: Mark::Left,
            made: 0,
            here: 0,
        },
        next: 0,
        inputs: vec![in alloc; Value::B(false); code.ins.len()]?,
        below: vec![in alloc; false; code.sites.len()]?,
        events: vec![in alloc; false; code.sites.len()]?,
        lines: vec![in alloc; None; code.sites.len()]?,
    })
}
