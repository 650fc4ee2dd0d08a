// The wires of occurrences and places, of their slopes and of guards.
ghost use Rattle.std.specs.Prelude.{◌≡◌, true, if◌then◌else◌, Some, IfOk};
ghost use Rattle.zl_normal.specs.Table.{IsTable};
ghost use Rattle.zl_normal.specs.Origins as spec;
ghost use Rattle.zl_normal.specs.PlaceWires as places;
ghost use Rattle.zl_meaning.specs.FlatForm.{place_call};
ghost use Rattle.zl_normal.specs.Tables.{is_free};
ghost use Rattle.zl_normal.specs.NumberTables.{wire_number, numbers_of};
ghost use Rattle.zl_normal.specs.Layout.{IsWired, AreTables};
ghost use Rattle.zl_normal.specs.HaveTables.{HaveTables};
ghost use Rattle.zl_normal.specs.GuardRoots as guards;
ghost use Rattle.zl_normal.specs.declared.key.Key.TheVariants as keys;
ghost use Rattle.zl_normal.specs.declared.role.Role.TheVariants as roles;
ghost use Rattle.zl_normal.specs.declared.wiring.Table.TheVariants as table;
ghost use Rattle.zl_meaning.specs.declared.occurrence.Form.TheVariants as variant;
ghost use Rattle.zl_normal.specs.declared.joined.Origin.TheVariants as origin;

use crate::guards::{place_call, root_at};
use crate::joined::{Joined, Origin, join};
use crate::key::Key;
use crate::numbers::{KeyTables, WireTables, number_at};
use crate::role::Role;
use crate::tables::{Tables, definer_at, has_made_slope, is_blank, is_still, moves};
use std::alloc::{AllocError, Global};
use zl_meaning::{Definer, Flat, Form, Occ, PlaceInfo, narrow};
use zl_value::Op;

/// A table of wires: of occurrences, of places, of their slopes.
#[derive(Clone, Copy, Debug)]
pub(crate) enum Table {
    Values,
    Places,
    Slopes,
    Motions,
}

/// A form with its grades, what is known of it, and the numbers of its wires.
#[derive(Drop)]
pub(crate) struct Wiring<'a> {
    pub(crate) flat: &'a Flat,
    pub(crate) grades: &'a [u8],
    pub(crate) tables: &'a Tables,
    pub(crate) keys: &'a KeyTables,
}

impl Wiring<'_> {
    fn own(&self, key: Key) -> Result<Origin, AllocError>
        ensures { IfOk result (λ o. o ≡ spec.own self.now.flat.now self.now.grades.now self.now.tables.now self.now.keys.now key) }
    {
        let wire = self.keys.wire(key)?;
        Ok(Origin::Own(wire))
    }

    fn fired_origin(&self, j: u32, parts: &[u32]) -> Result<Origin, AllocError>
        ensures { IfOk result (λ o. o ≡ spec.value_origin self.now.flat.now self.now.grades.now self.now.tables.now self.now.keys.now j (variant.Fired parts.now)) }
    {
        match parts {
            [] => self.own(Key::No),
            [u] => Ok(Origin::OfOcc(*u)),
            _ => self.own(Key::Rest(j, 0)),
        }
    }

    fn value_origin(&self, j: u32, form: &Form) -> Result<Origin, AllocError>
        ensures { IfOk result (λ o. o ≡ spec.value_origin self.now.flat.now self.now.grades.now self.now.tables.now self.now.keys.now j form.now) }
    {
        match form {
            Form::Lit(_) => self.own(Key::Value(self.tables.first(j))),
            Form::Read(p) => Ok(Origin::OfPlace(*p)),
            Form::Last(p) => self.own(Key::Last(*p)),
            Form::Result(x) => Ok(Origin::OfOcc(*x)),
            Form::Fired(parts) => self.fired_origin(j, parts.as_slice()),
            Form::Step => self.own(Key::Step),
            _ => self.own(Key::Value(j)),
        }
    }

    fn shared_or_own(&self, shared: bool, j: u32, key: Key) -> Result<Origin, AllocError>
        ensures { IfOk result (λ o. o ≡ (if shared then origin.OfOcc j else spec.own self.now.flat.now self.now.grades.now self.now.tables.now self.now.keys.now key)) }
    {
        if shared {
            Ok(Origin::OfOcc(j))
        } else {
            self.own(key)
        }
    }

    fn place_origin(&self, p: u32, place: &PlaceInfo) -> Result<Origin, AllocError>
        ensures { IfOk result (λ o. o ≡ spec.place_origin self.now.flat.now self.now.grades.now self.now.tables.now self.now.keys.now p place.now.call (places.definer_of place.now.definers)) }
    {
        let definers = place.definers.as_slice();
        match definer_at(definers) {
            None => {
                if self.tables.is_free(place.call) {
                    self.own(Key::Last(p))
                } else {
                    self.own(Key::Place(p))
                }
            }
            Some(i) => match &definers[i] {
                Definer::Plain { block: _, occ } => {
                    let shared = self.tables.is_free(place.call)
                        || self.tables.is_guarded(self.flat, *occ);
                    self.shared_or_own(shared, *occ, Key::Place(p))
                }
                Definer::Input(_) => self.own(Key::Place(p)),
                Definer::Der {
                    block: _,
                    slope: _,
                    resets: _,
                } => self.own(Key::Place(p)),
                Definer::Start { block: _, occ: _ } => self.own(Key::Place(p)),
            },
        }
    }

    fn taken_origin(&self, op: Op, parts: &[u32]) -> Result<Origin, AllocError>
        ensures { IfOk result (λ o. o ≡ spec.taken_origin self.now.flat.now self.now.grades.now self.now.tables.now self.now.keys.now op parts.now) }
    {
        match (op, parts) {
            (Op::AddFloat, [a, b]) => {
                if is_still(self.grades, *b) {
                    Ok(Origin::OfOcc(*a))
                } else {
                    Ok(Origin::OfOcc(*b))
                }
            }
            (Op::SubFloat, [a, _]) => Ok(Origin::OfOcc(*a)),
            _ => self.own(Key::Zero),
        }
    }

    fn slope_origin(&self, j: u32, form: &Form) -> Result<Origin, AllocError>
        ensures { IfOk result (λ o. o ≡ spec.slope_origin self.now.flat.now self.now.grades.now self.now.tables.now self.now.keys.now j form.now) }
    {
        match form {
            Form::Read(p) => Ok(Origin::OfPlace(*p)),
            Form::Op(op, parts) => {
                if has_made_slope(self.grades, *op, parts.as_slice()) {
                    self.own(Key::Slope(j))
                } else {
                    self.taken_origin(*op, parts.as_slice())
                }
            }
            Form::If(_, x, y) => {
                if is_blank(self.flat, *y) {
                    Ok(Origin::OfOcc(*x))
                } else {
                    self.own(Key::Slope(j))
                }
            }
            Form::Arrow(_, y) => Ok(Origin::OfOcc(*y)),
            Form::Result(x) => Ok(Origin::OfOcc(*x)),
            _ => self.own(Key::Zero),
        }
    }

    fn moving_origin(&self, j: u32, occ: &Occ) -> Result<Origin, AllocError>
        ensures { IfOk result (λ o. o ≡ spec.occ_slope self.now.flat.now self.now.grades.now self.now.tables.now self.now.keys.now j (Some occ.now)) }
    {
        if moves(self.grades, j, occ) {
            self.slope_origin(j, &occ.form)
        } else {
            self.own(Key::Zero)
        }
    }

    fn motion_origin(&self, p: u32, place: &PlaceInfo) -> Result<Origin, AllocError>
        ensures { IfOk result (λ o. o ≡ spec.motion_origin self.now.flat.now self.now.grades.now self.now.tables.now self.now.keys.now p (places.definer_of place.now.definers)) }
    {
        let definers = place.definers.as_slice();
        match definer_at(definers) {
            None => self.own(Key::Zero),
            Some(i) => match &definers[i] {
                Definer::Plain { block: _, occ } => Ok(Origin::OfOcc(*occ)),
                Definer::Der {
                    block: _,
                    slope: _,
                    resets: _,
                } => self.own(Key::Motion(p)),
                Definer::Input(_) => self.own(Key::Zero),
                Definer::Start { block: _, occ: _ } => self.own(Key::Zero),
            },
        }
    }

    fn occ_value(&self, j: u32) -> Result<Origin, AllocError>
        ensures { IfOk result (λ o. o ≡ spec.origin self.now.flat.now self.now.grades.now self.now.tables.now self.now.keys.now table.Values j) }
    {
        let flat = self.flat;
        match flat.occs.as_slice().get(j as usize) {
            Some(occ) => self.value_origin(j, &occ.form),
            None => self.own(Key::Zero),
        }
    }

    fn occ_slope(&self, j: u32) -> Result<Origin, AllocError>
        ensures { IfOk result (λ o. o ≡ spec.origin self.now.flat.now self.now.grades.now self.now.tables.now self.now.keys.now table.Slopes j) }
    {
        let flat = self.flat;
        match flat.occs.as_slice().get(j as usize) {
            Some(occ) => self.moving_origin(j, occ),
            None => self.own(Key::Zero),
        }
    }

    fn place_value(&self, p: u32) -> Result<Origin, AllocError>
        ensures { IfOk result (λ o. o ≡ spec.origin self.now.flat.now self.now.grades.now self.now.tables.now self.now.keys.now table.Places p) }
    {
        let flat = self.flat;
        match flat.places.as_slice().get(p as usize) {
            Some(place) => self.place_origin(p, place),
            None => self.own(Key::Zero),
        }
    }

    fn place_motion(&self, p: u32) -> Result<Origin, AllocError>
        ensures { IfOk result (λ o. o ≡ spec.origin self.now.flat.now self.now.grades.now self.now.tables.now self.now.keys.now table.Motions p) }
    {
        let flat = self.flat;
        match flat.places.as_slice().get(p as usize) {
            Some(place) => self.motion_origin(p, place),
            None => self.own(Key::Zero),
        }
    }

    /// Where an entry of a table is from.
    fn origin(&self, of: Table, i: u32) -> Result<Origin, AllocError>
        ensures { IfOk result (λ o. o ≡ spec.origin self.now.flat.now self.now.grades.now self.now.tables.now self.now.keys.now of i) }
    {
        match of {
            Table::Values => self.occ_value(i),
            Table::Places => self.place_value(i),
            Table::Slopes => self.occ_slope(i),
            Table::Motions => self.place_motion(i),
        }
    }

    #[tactic(auto, using(crate::proofs::AreTables::no_table, crate::proofs::AreTables::more_table))]
    fn origins(&self, alloc: Global, of: Table, count: usize) -> Result<Vec<Origin>, AllocError>
        ensures { IfOk result (λ origins. IsTable origins.items count (spec.origin self.now.flat.now self.now.grades.now self.now.tables.now self.now.keys.now of)) }
    {
        let mut origins = Vec::new(alloc);
        for i in 0..count {
            let one = self.origin(of, narrow(i as u64)?)?;
            origins.push(one)?;
        }
        Ok(origins)
    }

    /// The wires of occurrences and of places, by the tables of where they are from.
    fn joined(&self, alloc: Global, of_occs: Table, of_places: Table) -> Result<Joined, AllocError>
        ensures { IfOk result (λ joined. spec.AreFrom self.now.flat.now self.now.grades.now self.now.tables.now self.now.keys.now of_occs of_places joined.occs.items joined.places.items) }
    {
        let flat = self.flat;
        let occs = self.origins(alloc, of_occs, flat.occs.len())?;
        let places = self.origins(alloc, of_places, flat.places.len())?;
        let joined = join(alloc, occs.as_slice(), places.as_slice())?;
        Ok(joined)
    }

    fn guard_by(&self, key: Key) -> Result<Option<u32>, AllocError>
        ensures { IfOk result (λ g. g ≡ Some (wire_number self.now.keys.now key)) }
    {
        let wire = self.keys.wire(key)?;
        Ok(Some(wire))
    }

    /// The guard by this key where the place stands in what is always evaluated, else one of its own.
    fn place_guard(&self, j: u32, p: u32, key: Key) -> Result<Option<u32>, AllocError>
        ensures { IfOk result (λ g. g ≡ Some (if is_free self.now.tables.now (place_call self.now.flat.now p) then wire_number self.now.keys.now key else wire_number self.now.keys.now (keys.Guard j))) }
    {
        if self.tables.is_free(place_call(self.flat, p)) {
            self.guard_by(key)
        } else {
            self.guard_by(Key::Guard(j))
        }
    }

    fn yes_guard(
        &self,
        values: &[u32],
        j: u32,
        whole: u32,
        c: u32,
    ) -> Result<Option<u32>, AllocError>
        ensures { IfOk result (λ g. g ≡ guards.own_guard self.now.flat.now self.now.tables.now self.now.keys.now values.now j (Some (roles.Branch whole c true))) }
    {
        if self.tables.is_always(whole) || self.tables.is_guarded(self.flat, c) {
            Ok(Some(number_at(values, c)))
        } else {
            self.guard_by(Key::Guard(j))
        }
    }

    fn own_guard(
        &self,
        values: &[u32],
        j: u32,
        role: Option<Role>,
    ) -> Result<Option<u32>, AllocError>
        ensures { IfOk result (λ g. g ≡ guards.own_guard self.now.flat.now self.now.tables.now self.now.keys.now values.now j role) }
    {
        match role {
            Some(
                Role::Branch {
                    whole,
                    condition,
                    side: true,
                },
            ) => self.yes_guard(values, j, whole, condition),
            Some(
                Role::Branch {
                    whole: _,
                    condition: _,
                    side: false,
                },
            ) => self.guard_by(Key::Guard(j)),
            Some(
                Role::Both {
                    whole: _,
                    condition: _,
                },
            ) => self.guard_by(Key::Guard(j)),
            Some(Role::Start(p)) => self.place_guard(j, p, Key::Fresh),
            Some(Role::Reset { place, arm }) => self.place_guard(j, place, Key::Taken(place, arm)),
            _ => Ok(None),
        }
    }

    fn guard_of(&self, values: &[u32], roots: &[u32], j: u32) -> Result<Option<u32>, AllocError>
        ensures { IfOk result (λ g. g ≡ guards.guard_by_root self.now.flat.now self.now.tables.now self.now.keys.now values.now roots.now j) }
    {
        let root = root_at(roots, j);
        self.own_guard(values, root, self.tables.role(root))
    }

    #[tactic(auto, using(crate::proofs::AreTables::no_table, crate::proofs::AreTables::more_table))]
    fn guards(
        &self,
        alloc: Global,
        values: &[u32],
        roots: &[u32],
        count: usize,
    ) -> Result<Vec<Option<u32>>, AllocError>
        ensures { IfOk result (λ found. IsTable found.items count (guards.guard_by_root self.now.flat.now self.now.tables.now self.now.keys.now values.now roots.now)) }
    {
        let mut found = Vec::new(alloc);
        for j in 0..count {
            let guard = self.guard_of(values, roots, narrow(j as u64)?)?;
            found.push(guard)?;
        }
        Ok(found)
    }

    /// The wires of occurrences and places, of their slopes and of guards.
    pub(crate) fn wires(&self, alloc: Global, roots: &[u32]) -> Result<WireTables, AllocError>
        requires known { HaveTables self.now.flat.now self.now.tables.now roots.now }
        ensures wired { IfOk result (λ wires. IsWired self.now.flat.now self.now.grades.now self.now.tables.now (numbers_of self.now.keys.now wires)) }
        ensures tables { IfOk result (λ wires. AreTables self.now.flat.now self.now.grades.now self.now.tables.now (numbers_of self.now.keys.now wires)) }
    {
        let flat = self.flat;
        let values = self.joined(alloc, Table::Values, Table::Places)?;
        let slopes = self.joined(alloc, Table::Slopes, Table::Motions)?;
        let guards = self.guards(alloc, values.occs.as_slice(), roots, flat.occs.len())?;
        let wires = WireTables {
            values: values.occs,
            guards,
            places: values.places,
            slopes: slopes.occs,
            motions: slopes.places,
        };
        Ok(wires)
    }
}
