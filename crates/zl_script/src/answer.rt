use std::alloc::{AllocError, AllocFailed};
use zl_outside::Memory;

/// Why a text is no script for a program's inputs. A line is its number in the text, from 1, skipped lines included.
#[derive(Clone, Copy, Debug, PartialEq, Eq)]
pub enum ScriptAnswer {
    /// The text has more than 1,048,576 bytes. The line is 1.
    Size { line: u32 },
    /// The line isn't UTF-8, or isn't one that may stand here. Where there is no line but skipped ones, it is the number
    /// behind the last line.
    Syntax { line: u32 },
    /// The line's time isn't greater than the one before, or is greater than the horizon.
    Order { line: u32 },
    /// The line has a name that is no input's, a name twice, or a value that its input's type doesn't take.
    Input { line: u32 },
    /// The line is that of time 0 and doesn't give all inputs, or, where there is none, that of the horizon.
    Missing { line: u32 },
    /// There is no memory, or more inputs than numbers of 32 bits.
    Memory,
}

impl From<Memory> for ScriptAnswer {
    ghost use Rattle.std.specs.Prelude.{◌≡◌};
    ghost use Rattle.zl_script.specs.declared.answer.ScriptAnswer.TheVariants.{Memory as NoMemory};

    ghost from_gives = { λ _ answer. answer ≡ NoMemory };

    fn from(_: Memory) -> ScriptAnswer {
        ScriptAnswer::Memory
    }
}

impl From<AllocError> for ScriptAnswer {
    ghost use Rattle.std.specs.Prelude.{◌≡◌};
    ghost use Rattle.zl_script.specs.declared.answer.ScriptAnswer.TheVariants.{Memory as NoMemory};

    ghost from_gives = { λ _ answer. answer ≡ NoMemory };

    fn from(_: AllocError) -> ScriptAnswer {
        ScriptAnswer::Memory
    }
}

impl<T: Drop> From<AllocFailed<T>> for ScriptAnswer {
    ghost use Rattle.std.specs.Prelude.{◌≡◌};
    ghost use Rattle.zl_script.specs.declared.answer.ScriptAnswer.TheVariants.{Memory as NoMemory};

    ghost from_gives = { λ _ answer. answer ≡ NoMemory };

    fn from(_: AllocFailed<T>) -> ScriptAnswer {
        ScriptAnswer::Memory
    }
}
