ghost use Rattle.std.specs.Prelude.{◌≡◌, ◌+◌, ◌^◌, ◌<◌, true, false, [], length, IfOk};
ghost use Rattle.zl_ast.specs.Levels.{Grants, late};
ghost use Rattle.zl_init.specs.Marks.{level_of};
ghost use Rattle.zl_init.specs.Solve.{Allows, IsSpread, IsSettled, Narrows, Excludes, Anything, Knows, Solves};

use crate::followers::Followers;
use crate::marks::{Mark, Marks};
use std::alloc::{AllocError, Global};
use zl_ast::{Asked, Requirement};
use zl_value::Pos;

/// The least that constraints ask of levels.
#[derive(Drop)]
pub(crate) struct Solver {
    marks: Marks,
    followers: Followers,
    /// How many of the first marks have made their followers late.
    spread: usize,
}

impl Solver {
    /// Before the first constraint.
    fn new(alloc: Global) -> Solver
        ensures knows { Knows [] result }
        ensures settled { IsSettled result }
    {
        Solver {
            marks: Marks::new(alloc),
            followers: Followers::new(alloc),
            spread: 0,
        }
    }

    /// Makes late what follows the next mark, and answers whether all of it could be.
    fn spread_next(&mut self) -> Result<bool, AllocError>
        requires spread { IsSpread self.old }
        requires left { self.old.spread < length self.old.marks }
        requires room { self.old.spread + 1 < 2 ^ 64 }
        ensures fits { IfOk result (λ fits. fits ≡ true → Narrows Anything self.old self.new) }
        ensures refused { IfOk result (λ fits. fits ≡ false → Excludes Anything self.old) }
        ensures next { self.new.spread ≡ self.old.spread + 1 }
    {
        let next = self.marks.late(self.spread);
        self.spread += 1;
        match next {
            Some(leader) => self.marks.mark_late(self.followers.of(leader)),
            None => Ok(true),
        }
    }

    /// Makes late what is late where something late is, and answers whether all of it could be.
    fn spread(&mut self) -> Result<bool, AllocError>
        requires { IsSpread self.old }
        ensures fits { IfOk result (λ fits. fits ≡ true → Narrows Anything self.old self.new) }
        ensures settled { IfOk result (λ fits. fits ≡ true → IsSettled self.new) }
        ensures refused { IfOk result (λ fits. fits ≡ false → Excludes Anything self.old) }
    {
        while self.spread < self.marks.len() {
            if !self.spread_next()? {
                return Ok(false);
            }
        }
        Ok(true)
    }

    /// Asks for a level.
    fn ask(&mut self, node: Pos, mark: Mark) -> Result<bool, AllocError>
        requires { IsSpread self.old }
        ensures fits { IfOk result (λ fits. fits ≡ true → Narrows (λ levels. levels node ≡ level_of mark) self.old self.new) }
        ensures refused { IfOk result (λ fits. fits ≡ false → Excludes (λ levels. levels node ≡ level_of mark) self.old) }
    {
        self.marks.mark(node, mark)
    }

    /// Asks that one be late where the leader is.
    fn follow(&mut self, alloc: Global, leader: Pos, node: Pos) -> Result<bool, AllocError>
        requires { IsSpread self.old }
        ensures fits { IfOk result (λ fits. fits ≡ true → Narrows (λ levels. levels leader ≡ late → levels node ≡ late) self.old self.new) }
        ensures refused { IfOk result (λ fits. fits ≡ false → Excludes (λ levels. levels leader ≡ late → levels node ≡ late) self.old) }
    {
        self.followers.add(alloc, leader, node)?;
        if !self.marks.is_late(leader) {
            return Ok(true);
        }
        self.marks.mark(node, Mark::Late)
    }

    fn note(&mut self, alloc: Global, node: Pos, asked: Asked) -> Result<bool, AllocError>
        requires { IsSpread self.old }
        ensures fits { IfOk result (λ fits. fits ≡ true → Narrows (λ levels. Grants levels node asked) self.old self.new) }
        ensures refused { IfOk result (λ fits. fits ≡ false → Excludes (λ levels. Grants levels node asked) self.old) }
    {
        match asked {
            Asked::Early => self.ask(node, Mark::Early),
            Asked::Late => self.ask(node, Mark::Late),
            Asked::LateWhere(leader) => self.follow(alloc, leader, node),
            Asked::Never => Ok(false),
        }
    }

    /// Takes one more constraint, and answers whether some levels still meet all.
    fn take(&mut self, alloc: Global, requirement: Requirement) -> Result<bool, AllocError>
        requires { IsSettled self.old }
        ensures fits { IfOk result (λ fits. fits ≡ true → Narrows (λ levels. Grants levels requirement.node requirement.asked) self.old self.new) }
        ensures settled { IfOk result (λ fits. fits ≡ true → IsSettled self.new) }
        ensures refused { IfOk result (λ fits. fits ≡ false → Excludes (λ levels. Grants levels requirement.node requirement.asked) self.old) }
    {
        if self.note(alloc, requirement.node, requirement.asked)? {
            self.spread()
        } else {
            Ok(false)
        }
    }
}

/// Whether some levels meet the constraints: the place of the first up to which none do.
pub(crate) fn solve(alloc: Global, requirements: &[Requirement]) -> Result<Option<Pos>, AllocError>
    ensures { IfOk result (λ unmet. Solves requirements.now unmet) }
{
    let mut solver = Solver::new(alloc);
    for requirement in requirements {
        if !solver.take(alloc, *requirement)? {
            return Ok(Some(requirement.at));
        }
    }
    Ok(None)
}
