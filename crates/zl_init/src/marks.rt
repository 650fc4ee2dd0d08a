ghost use Rattle.std.specs.Prelude.{◌≡◌, true, false, [], ◌↔◌, Some, None, length, slice_get, if◌then◌else◌, IfOk, IfSome, OnOk};
ghost use Rattle.zl_ast.specs.Levels.{Levels};
ghost use Rattle.zl_init.specs.declared.marks.Mark.TheVariants as mark;
ghost use Rattle.zl_init.specs.Marks.{mark_at, with_mark, late_place, is_mark, Agree, Late, MadeLate};

use indexmap::IndexMap;
use std::alloc::{AllocError, Global};
use std::marker::Model;
use zl_value::Pos;

/// What is known of the level of a variable or an occurrence.
#[derive(Clone, Copy, PartialEq, Eq)]
pub(crate) enum Mark {
    Early,
    Late,
}

/// The variables and occurrences whose level is known, in the order in which it came to be known.
#[derive(Drop)]
pub(crate) struct Marks {
    marks: IndexMap<(u32, u32), Mark>,
}

impl Model for Marks {
    ghost use Rattle.std.specs.Prelude.{ℕ, List};
    ghost use Rattle.zl_init.specs.declared.marks.Mark.{Mark};

    ghost Value = { List ((ℕ × ℕ) × Mark) };

    ghost view = { λ m. m.marks.entries };
}

impl Marks {
    pub(crate) fn new(alloc: Global) -> Marks
        ensures { result ≡ [] }
    {
        Marks {
            marks: IndexMap::new(alloc),
        }
    }

    pub(crate) fn at(&self, place: Pos) -> Option<Mark>
        ensures { result ≡ mark_at self.now place }
    {
        match self.marks.get(&(place.line, place.column)) {
            Some(mark) => Some(*mark),
            None => None,
        }
    }

    pub(crate) fn is_late(&self, place: Pos) -> bool
        ensures { result ≡ is_mark (mark_at self.now place) mark.Late }
    {
        match self.at(place) {
            Some(Mark::Late) => true,
            _ => false,
        }
    }

    /// The late variable or occurrence that is the `index`th with a mark.
    pub(crate) fn late(&self, index: usize) -> Option<Pos>
        ensures entry { result ≡ late_place (slice_get self.now index) }
        ensures late { IfSome result (λ p. mark_at self.now p ≡ Some mark.Late) }
    {
        match self.marks.get_index(index) {
            Some((place, mark)) => {
                let (line, column) = *place;
                match *mark {
                    Mark::Late => Some(Pos { line, column }),
                    Mark::Early => None,
                }
            }
            None => None,
        }
    }

    pub(crate) fn len(&self) -> usize
        ensures { result ≡ length self.now }
    {
        self.marks.len()
    }

    /// Gives a mark where there is none, and answers whether the mark is this one.
    pub(crate) fn mark(&mut self, place: Pos, mark: Mark) -> Result<bool, AllocError>
        ensures marked { OnOk result (self.new ≡ with_mark self.old place mark) }
        ensures fits { IfOk result (λ fits. fits ≡ is_mark (mark_at self.new place) mark) }
    {
        if let Some(known) = self.at(place) {
            return Ok(known == mark);
        }
        self.marks.insert((place.line, place.column), mark)?;
        Ok(true)
    }

    /// Marks places late, and answers whether all could be.
    pub(crate) fn mark_late(&mut self, places: &[Pos]) -> Result<bool, AllocError>
        ensures made { IfOk result (λ fits. fits ≡ true → MadeLate places.now self.old self.new) }
        ensures refused { IfOk result (λ fits. fits ≡ false → (levels : Levels) → Agree self.old levels → Late levels places.now → ⊥) }
    {
        for place in places {
            if !self.mark(*place, Mark::Late)? {
                return Ok(false);
            }
        }
        Ok(true)
    }
}
