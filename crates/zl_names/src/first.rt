ghost use Rattle.std.specs.Prelude.{◌≡◌, None, [], ◌∷◌};
ghost use Rattle.zl_ast.specs.Names.{broken_if};
ghost use Rattle.zl_ast.specs.NamesRules as rules;
ghost use Rattle.zl_names.specs.Earliest as order;
ghost use Rattle.zl_names.specs.Earliest.{earliest};

use zl_value::{Pos, Rule};

/// The first violation that was found so far.
#[derive(Clone, Copy)]
pub(crate) struct First {
    pub(crate) found: Option<(Rule, Pos)>,
}

impl First {
    pub(crate) fn none() -> First
        ensures { result.found ≡ None }
    {
        First { found: None }
    }

    /// Takes note of a violation.
    #[tactic(auto, unfolding(crate::specs::Earliest::earliest))]
    pub(crate) fn note(&mut self, rule: Rule, at: Pos)
        ensures { self.new.found ≡ earliest self.old.found ((rule, at) ∷ []) }
    {
        if let Some(found) = self.found {
            if !precedes((rule, at), found) {
                return;
            }
        }
        self.found = Some((rule, at));
    }

    /// Takes note of a violation if there is one.
    #[tactic(auto, unfolding(crate::specs::Earliest::earliest))]
    pub(crate) fn note_if(&mut self, broken: bool, rule: Rule, at: Pos)
        ensures { self.new.found ≡ earliest self.old.found (broken_if broken rule at) }
    {
        if broken {
            self.note(rule, at);
        }
    }
}

fn precedes(v: (Rule, Pos), w: (Rule, Pos)) -> bool
    ensures { result ≡ order.precedes v w }
{
    let (rule, at) = v;
    let (other, place) = w;
    turn(rule) < turn(other) || (turn(rule) == turn(other) && stands_before(at, place))
}

fn stands_before(p: Pos, q: Pos) -> bool
    ensures { result ≡ order.stands_before p q }
{
    p.line < q.line || (p.line == q.line && p.column < q.column)
}

/// The turn of a rule among the rules of names.
fn turn(rule: Rule) -> u8
    ensures { result ≡ rules.turn rule }
{
    match rule {
        Rule::NameUnknown => 0,
        Rule::NameTwice => 1,
        Rule::DefinedTwice => 2,
        Rule::Undefined => 3,
        Rule::Arity => 4,
        Rule::Branch => 5,
        Rule::Main => 6,
        Rule::Last => 7,
        _ => 8,
    }
}
