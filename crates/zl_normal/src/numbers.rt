// Numbers of wires and memories by tables.
ghost use Rattle.std.specs.Prelude.{◌≡◌, ◌+◌, ◌^◌, ◌<◌, get_or, None, IfOk};
ghost use Rattle.zl_normal.specs.NumberTables as spec;

use crate::key::{Kept, Key};
use std::alloc::AllocError;
use std::marker::Model;
use zl_meaning::narrow;

/// The numbers of wires and memories by what they stand for.
#[derive(Debug, Drop)]
pub(crate) struct KeyTables {
    /// By occurrence, seven each, and by place, six each.
    pub(crate) occs: Vec<u32>,
    pub(crate) places: Vec<u32>,
    /// The first of those that join `again`.
    pub(crate) again: u32,
    /// Of memories by place, three each, and by occurrence.
    pub(crate) place_memories: Vec<u32>,
    pub(crate) occ_memories: Vec<u32>,
}

impl Model for KeyTables {
    ghost use Rattle.zl_normal.specs.NumberTables.{KeyTables as TablesOf};

    ghost Value = { TablesOf };

    ghost view = { λ t. record {
      occs = t.occs.items;
      places = t.places.items;
      again = t.again;
      place_memories = t.place_memories.items;
      occ_memories = t.occ_memories.items;
    } };
}

/// The wires of occurrences and places, and the guards of occurrences.
#[derive(Debug, Drop)]
pub(crate) struct WireTables {
    pub(crate) values: Vec<u32>,
    pub(crate) guards: Vec<Option<u32>>,
    pub(crate) places: Vec<u32>,
    pub(crate) slopes: Vec<u32>,
    pub(crate) motions: Vec<u32>,
}

impl Model for WireTables {
    ghost use Rattle.zl_normal.specs.NumberTables.{WireTables as TablesOf};

    ghost Value = { TablesOf };

    ghost view = { λ t. record {
      values = t.values.items;
      guards = t.guards.items;
      places = t.places.items;
      slopes = t.slopes.items;
      motions = t.motions.items;
    } };
}

/// The number in this place of a list, else 0.
pub(crate) fn number_at(numbers: &[u32], n: u32) -> u32
    ensures { result ≡ get_or numbers.now n 0 }
{
    match numbers.get(n as usize) {
        Some(number) => *number,
        None => 0,
    }
}

fn number_in(numbers: &[u32], index: u64) -> u32
    ensures { result ≡ get_or numbers.now index 0 }
{
    match numbers.get(index as usize) {
        Some(number) => *number,
        None => 0,
    }
}

fn behind(number: u32, offset: u64) -> Result<u32, AllocError>
    requires { offset < 2 ^ 35 }
    ensures { IfOk result (λ n. n ≡ number + offset) }
{
    narrow(number as u64 + offset)
}

impl KeyTables {
    /// The number of the wire that stands for this.
    pub(crate) fn wire(&self, key: Key) -> Result<u32, AllocError>
        ensures { IfOk result (λ n. n ≡ spec.wire_number self.now key) }
    {
        let occs = self.occs.as_slice();
        let places = self.places.as_slice();
        match key {
            Key::Step => Ok(0),
            Key::Fresh => Ok(1),
            Key::No => Ok(2),
            Key::Zero => Ok(3),
            Key::Value(j) => Ok(number_in(occs, j as u64 * 7)),
            Key::Rest(j, i) => behind(number_in(occs, j as u64 * 7 + 1), i as u64),
            Key::Next(j) => Ok(number_in(occs, j as u64 * 7 + 2)),
            Key::Other(j) => Ok(number_in(occs, j as u64 * 7 + 3)),
            Key::Guard(j) => Ok(number_in(occs, j as u64 * 7 + 4)),
            Key::Present(j) => Ok(number_in(occs, j as u64 * 7 + 5)),
            Key::Slope(j) => Ok(number_in(occs, j as u64 * 7 + 6)),
            Key::Place(p) => Ok(number_in(places, p as u64 * 6)),
            Key::Between(p) => Ok(number_in(places, p as u64 * 6 + 1)),
            Key::Motion(p) => Ok(number_in(places, p as u64 * 6 + 2)),
            Key::Last(p) => Ok(number_in(places, p as u64 * 6 + 3)),
            Key::Remembered(p) => Ok(number_in(places, p as u64 * 6 + 4)),
            Key::Taken(p, i) => behind(number_in(places, p as u64 * 6 + 5), i as u64 * 3),
            Key::Passed(p, i) => behind(number_in(places, p as u64 * 6 + 5), i as u64 * 3 + 1),
            Key::Chosen(p, i) => behind(number_in(places, p as u64 * 6 + 5), i as u64 * 3 + 2),
            Key::Again(i) => behind(self.again, i as u64),
        }
    }

    /// The number of the memory that stands for this.
    pub(crate) fn memory(&self, kept: Kept) -> u32
        ensures { result ≡ spec.memory_number self.now kept }
    {
        let places = self.place_memories.as_slice();
        match kept {
            Kept::First => 0,
            Kept::Before(p) => number_in(places, p as u64 * 3),
            Kept::Moving(p) => number_in(places, p as u64 * 3 + 1),
            Kept::Derivative(p) => number_in(places, p as u64 * 3 + 2),
            Kept::Pre(j) => number_at(self.occ_memories.as_slice(), j),
        }
    }
}

impl WireTables {
    /// The wire of an occurrence.
    pub(crate) fn value(&self, j: u32) -> u32
        ensures { result ≡ get_or self.now.values j 0 }
    {
        number_at(self.values.as_slice(), j)
    }

    /// The guard of an occurrence.
    pub(crate) fn guard(&self, j: u32) -> Option<u32>
        ensures { result ≡ get_or self.now.guards j None }
    {
        match self.guards.get(j as usize) {
            Some(guard) => *guard,
            None => None,
        }
    }

    /// The wire of a place.
    pub(crate) fn place(&self, p: u32) -> u32
        ensures { result ≡ get_or self.now.places p 0 }
    {
        number_at(self.places.as_slice(), p)
    }

    /// The wire of the slope of an occurrence.
    pub(crate) fn slope(&self, j: u32) -> u32
        ensures { result ≡ get_or self.now.slopes j 0 }
    {
        number_at(self.slopes.as_slice(), j)
    }

    /// The wire of the slope of a place.
    pub(crate) fn motion(&self, p: u32) -> u32
        ensures { result ≡ get_or self.now.motions p 0 }
    {
        number_at(self.motions.as_slice(), p)
    }
}
