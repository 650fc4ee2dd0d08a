// Registers that have to hold a value.
ghost use Rattle.std.specs.Prelude.{◌≡◌, ◌&&◌, length, is_some, is_none};
ghost use Rattle.std.specs.List.{list_any};
ghost use Rattle.zl_code.specs.Method.{cell};
ghost use Rattle.zl_code.specs.System.{lacks_output, lacks_of, lack_slopes, lacks_slope};

use crate::cells::read;
use zl_code::{CMem, CSite};
use zl_value::{Output, Value};

/// Some output has no value.
pub(crate) fn lacks_outputs(outs: &[Output], regs: &[Option<Value>]) -> bool
    ensures { result ≡ list_any (lacks_output regs.now) outs.now }
{
    for i in 0..outs.len() {
        if read(regs, outs[i].from).is_none() {
            return true;
        }
    }
    false
}

fn lacks_at(regs: &[Option<Value>], value: u32, others: &[Option<Value>], other: u32) -> bool
    ensures { result ≡ (is_some (cell regs.now value) && is_none (cell others.now other)) }
{
    read(regs, value).is_some() && read(others, other).is_none()
}

/// It isn't said of some active site whether it is fresh.
pub(crate) fn lacks_fresh(sites: &[CSite], regs: &[Option<Value>]) -> bool
    ensures { result ≡ list_any (lacks_of (λ site. site.fresh) regs.now regs.now) sites.now }
{
    for i in 0..sites.len() {
        if lacks_at(regs, sites[i].value, regs, sites[i].fresh) {
            return true;
        }
    }
    false
}

/// Some active site has no slope.
pub(crate) fn lacks_rate(sites: &[CSite], regs: &[Option<Value>], rates: &[Option<Value>]) -> bool
    ensures { result ≡ list_any (lacks_of (λ site. site.slope) regs.now rates.now) sites.now }
{
    for i in 0..sites.len() {
        if lacks_at(regs, sites[i].value, rates, sites[i].slope) {
            return true;
        }
    }
    false
}

fn lacks_own(slope: Option<u32>, now: Option<Value>, rates: &[Option<Value>]) -> bool
    ensures { result ≡ lacks_slope rates.now slope now }
{
    match slope {
        Some(r) => now.is_some() && read(rates, r).is_none(),
        None => false,
    }
}

/// Some memory that holds a value and moves has no slope.
pub(crate) fn lacks_slopes(mems: &[CMem], now: &[Option<Value>], rates: &[Option<Value>]) -> bool
    requires { length now.now ≡ length mems.now }
    ensures { result ≡ lack_slopes rates.now mems.now now.now }
{
    for i in 0..mems.len() {
        if lacks_own(mems[i].slope, now[i], rates) {
            return true;
        }
    }
    false
}
