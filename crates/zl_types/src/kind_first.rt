//! The first place of several.
ghost use Rattle.std.specs.Prelude.{◌≡◌, None, [], ◌∷◌};
ghost use Rattle.zl_ast.specs.Kinds.{unless_allowed};
ghost use Rattle.zl_types.specs.ContextsFirst as order;
ghost use Rattle.zl_types.specs.ContextsFirst.{earliest};

use zl_value::Pos;

/// The first misplaced construct that was found so far.
#[derive(Clone, Copy)]
pub(crate) struct First {
    pub(crate) found: Option<Pos>,
}

impl First {
    pub(crate) fn none() -> First
        ensures { result.found ≡ None }
    {
        First { found: None }
    }

    /// Takes note of a misplaced construct.
    #[tactic(auto, unfolding(crate::specs::ContextsFirst::earliest))]
    pub(crate) fn note(&mut self, at: Pos)
        ensures { self.new.found ≡ earliest self.old.found (at ∷ []) }
    {
        if let Some(found) = self.found {
            if !stands_before(at, found) {
                return;
            }
        }
        self.found = Some(at);
    }

    /// Takes note of a construct unless it is allowed where it stands.
    #[tactic(auto, unfolding(crate::specs::ContextsFirst::earliest))]
    pub(crate) fn note_unless(&mut self, allowed: bool, at: Pos)
        ensures { self.new.found ≡ earliest self.old.found (unless_allowed allowed at) }
    {
        if !allowed {
            self.note(at);
        }
    }
}

fn stands_before(p: Pos, q: Pos) -> bool
    ensures { result ≡ order.stands_before p q }
{
    p.line < q.line || (p.line == q.line && p.column < q.column)
}
