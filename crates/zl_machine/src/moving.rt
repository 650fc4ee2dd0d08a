// The move of the memories in a flow.
ghost use Rattle.std.specs.Prelude.{◌≡◌, ◌++◌, [], ◌∷◌, length, IfNone, Some};
ghost use Rattle.zl_value.specs.Fraction.{add, mul};
ghost use Rattle.zl_value.specs.Widths.{first_wide};
ghost use Rattle.zl_value.specs.System.{increments, arrivals};
ghost use Rattle.zl_value.specs.declared.position.Pos.{Pos};
ghost use Rattle.zl_value.specs.declared.value.Value.TheVariants as value;
ghost use Rattle.zl_code.specs.System.{all_moved, motions, motion_of, moved};
ghost use Rattle.zl_machine.specs.declared.moving.Moved.TheVariants as verdict;
ghost use Rattle.zl_machine.specs.Moves.{HasMoved, first_of, out_of_width};

use crate::cells::read;
use crate::operator::as_float;
use zl_code::CMem;
use zl_value::{Arith, Fault, Frac, Pos, Value};

/// What moving a memory comes to: where it is then, or that this isn't in the width, or that how far it moves isn't.
#[derive(Clone, Copy, Debug)]
pub(crate) enum Moved {
    To(Option<Value>),
    Late,
    Wide,
}

fn out_of_the_width(at: Pos) -> Fault
    ensures { result ≡ out_of_width at }
{
    Fault {
        kind: Arith::Range,
        at,
    }
}

fn move_by(from: Frac, slope: Frac, by: Frac) -> Moved
    ensures { (at : Pos) → HasMoved by (record { from = from; slope = slope; at = at } ∷ []) at (Some (value.F (add from (mul by slope)))) result }
{
    match by.mul(slope) {
        Ok(increment) => match from.add(increment) {
            Ok(there) => Moved::To(Some(Value::F(there))),
            Err(_) => Moved::Late,
        },
        Err(_) => Moved::Wide,
    }
}

fn to(there: Option<Value>) -> Moved
    ensures { result ≡ verdict.To there }
{
    Moved::To(there)
}

/// A memory without a value or without a slope stays.
fn move_one(mem: &CMem, now: &Option<Value>, rates: &[Option<Value>], by: Frac) -> Moved
    ensures { HasMoved by (motion_of rates.now mem.now mem.now.slope now.now) mem.now.at (moved rates.now by mem.now.slope now.now) result }
{
    match mem.slope {
        Some(r) => match as_float(read(rates, r)) {
            Some(slope) => match as_float(*now) {
                Some(from) => move_by(from, slope, by),
                None => to(*now),
            },
            None => to(*now),
        },
        None => to(*now),
    }
}

fn earlier(late: Option<Fault>, at: Pos) -> Option<Fault>
    ensures { result ≡ first_of late (Some (out_of_width at)) }
{
    match late {
        Some(fault) => Some(fault),
        None => Some(out_of_the_width(at)),
    }
}

/// Moves the memories by `by` into `next`. The fault is of the first number that isn't in the width: of how far each moves,
/// and then of where each comes to.
pub(crate) fn move_all(
    mems: &[CMem],
    now: &[Option<Value>],
    rates: &[Option<Value>],
    by: Frac,
    next: &mut [Option<Value>],
) -> Option<Fault>
    requires now { length now.now ≡ length mems.now }
    requires next { length next.old ≡ length mems.now }
    ensures fault { result ≡ first_wide (increments by (motions rates.now mems.now now.now) ++ arrivals by (motions rates.now mems.now now.now)) }
    ensures moved { IfNone result (next.new ≡ all_moved rates.now by mems.now now.now) }
{
    let mut late: Option<Fault> = None;
    for i in 0..mems.len() {
        let mem = &mems[i];
        match move_one(mem, &now[i], rates, by) {
            Moved::To(there) => next[i] = there,
            Moved::Late => late = earlier(late, mem.at),
            Moved::Wide => return Some(out_of_the_width(mem.at)),
        }
    }
    late
}
