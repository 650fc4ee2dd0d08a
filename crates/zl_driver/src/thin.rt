ghost use Rattle.std.specs.Prelude.{◌≡◌, IfOk};
ghost use Rattle.zl_value.specs.Fraction.{IsFrac};
ghost use Rattle.zl_driver.specs.ThinRun.{ThinAnswer, thin_lines, thin_end, end_of, value_at as value_at_horizon};

use crate::lines::{fault_line, horizon_line, value_line};
use crate::{End, RunAnswer, put_all};
use std::alloc::Global;
use zl_outside::{Memory, Sink};
use zl_value::{Arith, Fault, Frac, Mark, Sequence, Text, Thin};

/// The lines of a run and its end.
#[derive(Drop)]
struct Trace {
    lines: Sequence<Text>,
    end: End,
}

/// The value at the horizon, if the increment is in the width and then the value too.
fn value_at(thin: &Thin, horizon: Frac) -> Result<Frac, Arith>
    ensures value { result ≡ value_at_horizon thin.now horizon }
    ensures kept { IfOk result IsFrac }
{
    match thin.slope.mul(horizon) {
        Ok(increment) => thin.start.add(increment),
        Err(kind) => Err(kind),
    }
}

fn make_trace(alloc: Global, thin: &Thin, horizon: Frac) -> Result<Trace, Memory>
    ensures lines { IfOk result (λ t. t.lines ≡ thin_lines thin.now horizon) }
    ensures end { IfOk result (λ t. t.end ≡ end_of (thin_end thin.now horizon)) }
{
    let first = value_line(
        alloc,
        thin.name.bytes(),
        Frac::zero(),
        Mark::Step(0),
        thin.start,
    )?;
    if horizon.num() == 0 {
        let lines = vec![in alloc; first, horizon_line(alloc)?]?;
        return Ok(Trace {
            lines: Sequence::from_vec(lines),
            end: End::Horizon,
        });
    }
    match value_at(thin, horizon) {
        Ok(value) => {
            let left = value_line(alloc, thin.name.bytes(), horizon, Mark::Left, value)?;
            let lines = vec![in alloc; first, left, horizon_line(alloc)?]?;
            Ok(Trace {
                lines: Sequence::from_vec(lines),
                end: End::Horizon,
            })
        }
        Err(kind) => {
            let fault = Fault { kind, at: thin.at };
            let last = fault_line(alloc, fault, Frac::zero(), Mark::Flow)?;
            let lines = vec![in alloc; first, last]?;
            Ok(Trace {
                lines: Sequence::from_vec(lines),
                end: End::Fault(kind, thin.at),
            })
        }
    }
}

/// Runs one variable whose derivative is a constant up to the horizon, and puts its lines, one put each: the initial
/// step, the left end at the horizon, and the end. Where the increment or the value at the horizon isn't in the width
/// the run ends with a range fault at the variable. A write fault comes only where the sink failed. The form of the
/// lines is this project's own.
pub fn run_thin<K: Sink>(
    alloc: Global,
    thin: &Thin,
    horizon: Frac,
    sink: &mut K,
) -> Result<End, RunAnswer>
    ensures { ThinAnswer thin.now horizon (K.stands_for sink.old) (K.stands_for sink.new) (K.faults sink.old) (K.faults sink.new) result }
{
    let trace = make_trace(alloc, thin, horizon)?;
    match put_all(trace.lines.as_slice(), sink) {
        Ok(()) => Ok(trace.end),
        Err(_) => Err(RunAnswer::WriteFault),
    }
}
