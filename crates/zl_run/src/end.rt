ghost use Rattle.std.specs.Prelude.{◌≡◌};
ghost use Rattle.zl_run.specs.Answers.{end_of as end_for};
ghost use Rattle.zl_run.specs.declared.end.RunAnswer.TheVariants.{Memory as NoMemory};

use zl_outside::Memory;
use zl_value::{Arith, Ending, Pos};

/// How a run ended.
#[derive(Clone, Copy, Debug, PartialEq, Eq)]
pub enum End {
    /// At the horizon.
    Horizon,
    /// A step was demanded after as many as may be made.
    Bound,
    /// With a fault at this place.
    Fault(Arith, Pos),
    /// The code had no value where one was asked for.
    Empty,
}

/// Why a run was not made to its end.
#[derive(Clone, Copy, Debug, PartialEq, Eq)]
pub enum RunAnswer {
    /// The sink failed.
    WriteFault,
    /// There is no memory.
    Memory,
}

impl From<Memory> for RunAnswer {
    ghost from_gives = { λ _ answer. answer ≡ NoMemory };

    fn from(_memory: Memory) -> RunAnswer {
        RunAnswer::Memory
    }
}

/// What is answered for the end of a run.
pub(crate) fn end_of(ending: &Ending) -> End
    ensures { result ≡ end_for ending.now }
{
    match ending {
        Ending::Horizon => End::Horizon,
        Ending::Bound => End::Bound,
        Ending::Empty => End::Empty,
        Ending::Fault { fault, .. } => End::Fault(fault.kind, fault.at),
    }
}
