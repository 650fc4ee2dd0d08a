ghost use Rattle.std.specs.Prelude.{◌≡◌};
ghost use Rattle.zl_cli.specs.Files.{LoadsChecked, LoadsProgram, LoadsHorizon};
ghost use Rattle.zl_cli.specs.Loading.{GivesChecked, GivesProgram, GivesThin};

use crate::thin::thin_of;
use std::alloc::Global;
use zl_ast::Program;
use zl_compile::{CompileAnswer, accept, check};
use zl_driver::read_horizon;
use zl_outside::{ReadAnswer, Shelf};
use zl_value::{Frac, Pos, Rule, Thin};

/// How many bytes of a file are read: one more than a file has, so that a longer file is seen.
const READ_CAP: usize = 1_048_577;

/// Why a file gives nothing to go on with.
#[derive(Clone, Copy, Debug, PartialEq, Eq)]
pub enum Stop {
    /// The file could not be read.
    Unread,
    /// The file is refused by this rule, at this place.
    Refused { rule: Rule, at: Pos },
    Memory,
}

/// The first place of a file.
const START: Pos = Pos { line: 1, column: 1 };

/// Whether the bytes of a file break no rule, or the first that they break.
fn checked(alloc: Global, bytes: &[u8]) -> Result<(), Stop>
    ensures { GivesChecked bytes.now result }
{
    match check(alloc, bytes) {
        Ok(()) => Ok(()),
        Err(CompileAnswer::Refused { rule, at }) => Err(Stop::Refused { rule, at }),
        Err(CompileAnswer::Memory) => Err(Stop::Memory),
    }
}

/// The program of a tree, if it is of the form that is built.
fn built(alloc: Global, program: &Program) -> Result<Thin, Stop>
    ensures { GivesThin program.now result }
{
    match thin_of(alloc, program) {
        Ok(Some(thin)) => Ok(thin),
        Ok(None) => Err(Stop::Refused {
            rule: Rule::Unbuilt,
            at: START,
        }),
        Err(_) => Err(Stop::Memory),
    }
}

/// The program of a file's bytes, or why it isn't run.
#[tactic(auto, using(crate::proofs::Loads::gives_program))]
fn program_of(alloc: Global, bytes: &[u8]) -> Result<Thin, Stop>
    ensures { GivesProgram bytes.now result }
{
    match accept(alloc, bytes) {
        Ok(accepted) => built(alloc, &accepted.program),
        Err(CompileAnswer::Refused { rule, at }) => Err(Stop::Refused { rule, at }),
        Err(CompileAnswer::Memory) => Err(Stop::Memory),
    }
}

/// Reads a file and tries every rule.
pub fn load_checked<S: Shelf>(alloc: Global, name: &str, shelf: &mut S) -> Result<(), Stop>
    ensures told { S.told shelf.new ≡ S.told shelf.old }
    ensures checked { LoadsChecked (S.told shelf.old) (S.failed shelf.old) (S.failed shelf.new) name.now result }
{
    let mut bytes = Vec::new(alloc);
    match shelf.read(name, READ_CAP, &mut bytes) {
        Ok(()) => checked(alloc, &bytes),
        Err(ReadAnswer::Failed) => Err(Stop::Unread),
        Err(ReadAnswer::Memory) => Err(Stop::Memory),
    }
}

/// Reads the program of a file.
pub fn load_program<S: Shelf>(alloc: Global, name: &str, shelf: &mut S) -> Result<Thin, Stop>
    ensures told { S.told shelf.new ≡ S.told shelf.old }
    ensures program { LoadsProgram (S.told shelf.old) (S.failed shelf.old) (S.failed shelf.new) name.now result }
{
    let mut bytes = Vec::new(alloc);
    match shelf.read(name, READ_CAP, &mut bytes) {
        Ok(()) => program_of(alloc, &bytes),
        Err(ReadAnswer::Failed) => Err(Stop::Unread),
        Err(ReadAnswer::Memory) => Err(Stop::Memory),
    }
}

/// Reads the horizon of a script.
pub fn load_horizon<S: Shelf>(alloc: Global, name: &str, shelf: &mut S) -> Result<Frac, Stop>
    ensures told { S.told shelf.new ≡ S.told shelf.old }
    ensures horizon { LoadsHorizon (S.told shelf.old) (S.failed shelf.old) (S.failed shelf.new) name.now result }
{
    let mut bytes = Vec::new(alloc);
    match shelf.read(name, READ_CAP, &mut bytes) {
        Ok(()) => match read_horizon(&bytes) {
            Some(horizon) => Ok(horizon),
            None => Err(Stop::Refused {
                rule: Rule::Unbuilt,
                at: START,
            }),
        },
        Err(ReadAnswer::Failed) => Err(Stop::Unread),
        Err(ReadAnswer::Memory) => Err(Stop::Memory),
    }
}
