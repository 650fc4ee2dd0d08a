ghost use Rattle.std.specs.Prelude.{◌≡◌, true, IfOk, OnOk};
ghost use Rattle.std.specs.Borrow.{sem};
ghost use Rattle.std.specs.Io.BufRead.{Rests};
ghost use Rattle.zl_lines.specs.contracts.room.LineRoom.{the_row};
ghost use Rattle.zl_value.specs.Lines.{instant_line, ending_line};
ghost use Rattle.zl_machine.specs.MachineForm.{has_instant};
ghost use Rattle.zl_lines.specs.RoomForm.{IsRoomFor, shown_by};

use crate::names::copy_names;
use crate::pieces::{append_ending, append_instant};
use std::alloc::Global;
use std::marker::Model;
use zl_code::Code;
use zl_machine::Machine;
use zl_outside::Memory;
use zl_value::{Ending, Frac, Mark, Text};

/// Where the lines of a code's trace are written, one at a time. It takes memory only where a line is longer than all
/// those before it.
#[derive(Drop)]
pub struct LineRoom {
    names: Vec<Text>,
    line: Vec<u8>,
}

impl Model for LineRoom {
    ghost use Rattle.zl_lines.specs.RoomForm.{RoomForm};

    ghost Value = { RoomForm };

    ghost view = { λ r. record { names = r.names.items; line = r.line.items } };
}

impl LineRoom {
    /// A room for the lines of a code.
    pub fn make(alloc: Global, code: &Code) -> Result<LineRoom, Memory>
        ensures { IfOk result (λ room. IsRoomFor code.now room) }
    {
        Ok(LineRoom {
            names: copy_names(alloc, code.outs.as_slice())?,
            line: Vec::new(alloc),
        })
    }

    /// Writes the line of an instant into the room.
    pub fn write_instant(&mut self, time: Frac, mark: Mark, machine: &Machine) -> Result<(), Memory>
        requires room { IsRoomFor machine.now.code self.old }
        requires ready { has_instant machine.now.mode ≡ true }
        ensures line { OnOk result (self.new.line ≡ instant_line time mark (shown_by machine.now)) }
        ensures names { self.new.names ≡ self.old.names }
    {
        self.line.clear();
        append_instant(&mut self.line, self.names.as_slice(), time, mark, machine)
    }

    /// Writes the last line of a trace into the room.
    pub fn write_ending(&mut self, end: Ending) -> Result<(), Memory>
        ensures line { OnOk result (self.new.line ≡ ending_line end) }
        ensures names { self.new.names ≡ self.old.names }
    {
        self.line.clear();
        append_ending(&mut self.line, end)
    }

    /// The line that was written last.
    pub fn line(&self) -> &[u8]
        ensures { result.now ≡ self.now.line }
    {
        self.line.as_slice()
    }

    /// The line of an instant: its time, its mark, and each output of the machine with its name. Once the borrow ends
    /// the room serves for the next line.
    pub fn instant(&mut self, time: Frac, mark: Mark, machine: &Machine) -> Result<&[u8], Memory>
        requires room { IsRoomFor machine.now.code self.old }
        requires ready { has_instant machine.now.mode ≡ true }
        ensures line { IfOk result (λ line. line.now ≡ instant_line time mark (shown_by machine.now)) }
        ensures* after_borrow { sem 𝓛 (Rests the_row self.entry (λ new. new.names ≡ self.old.names)) }
    {
        self.write_instant(time, mark, machine)?;
        Ok(self.line.as_slice())
    }

    /// The last line of a trace. Once the borrow ends the room serves for the next line.
    pub fn ending(&mut self, end: Ending) -> Result<&[u8], Memory>
        ensures line { IfOk result (λ line. line.now ≡ ending_line end) }
        ensures* after_borrow { sem 𝓛 (Rests the_row self.entry (λ new. new.names ≡ self.old.names)) }
    {
        self.write_ending(end)?;
        Ok(self.line.as_slice())
    }
}
