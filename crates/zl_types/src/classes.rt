ghost use Rattle.std.specs.Prelude.{◌≡◌, ◌<◌, ◌≤◌, [], ℕ, true, false, length, IfOk};
ghost use Rattle.zl_value.specs.declared.value.Ty.{Ty as TheTy};
ghost use Rattle.zl_types.specs.Forest.{IsRoot};
ghost use Rattle.zl_types.specs.Classes.{HaveKnown, IsSound, Represents, Numbers, Learns, Narrows, Excludes, Meeting, Clashes, IsTypeAt};

use crate::forest::root;
use indexmap::IndexSet;
use std::alloc::{AllocError, Global};
use zl_ast::{Equality, Side};
use zl_value::{Pos, Ty};

/// A place, as a key of a table.
#[derive(Clone, Copy, PartialEq, Eq, Hash)]
pub(crate) struct Key {
    line: u32,
    column: u32,
}

/// The variables and occurrences in classes of one type, each with its type where that is known.
#[derive(Drop)]
pub(crate) struct Classes {
    /// The places, in order of first appearance.
    keys: IndexSet<Key>,
    /// From each node to an older one of its class, or from a root to itself.
    links: Vec<usize>,
    /// The types of the classes, each at the root.
    known: Vec<Option<Ty>>,
}

/// Notes a type at a node, and whether none or the same was known there.
fn learn(known: &mut Vec<Option<Ty>>, node: usize, ty: Ty) -> bool
    requires { node < length known.old.items }
    ensures learns { result ≡ true → Learns node ty known.old.items known.new.items }
    ensures excludes { result ≡ false → (type : ℕ → TheTy) → HaveKnown known.old.items type → type node ≡ ty → ⊥ }
{
    match known[node] {
        None => {
            known[node] = Some(ty);
            true
        }
        Some(other) => other == ty,
    }
}

impl Classes {
    pub(crate) fn new(alloc: Global) -> Classes
        ensures sound { IsSound result }
        ensures empty { Represents [] result }
    {
        Classes {
            keys: IndexSet::new(alloc),
            links: Vec::new(alloc),
            known: Vec::new(alloc),
        }
    }

    /// The number of the node for a place, a new one where there is none.
    fn number(&mut self, place: Pos) -> Result<usize, AllocError>
        requires { IsSound self.old }
        ensures { IfOk result (λ node. Numbers place self.old self.new node) }
    {
        let key = Key {
            line: place.line,
            column: place.column,
        };
        let (node, is_new) = self.keys.insert_full(key)?;
        if is_new {
            self.links.push(node)?;
            self.known.push(None)?;
        }
        Ok(node)
    }

    /// Makes two classes one, and says whether no two types of them were known.
    fn link(&mut self, older: usize, younger: usize) -> bool
        requires sound { IsSound self.old }
        requires older { IsRoot self.old.links.items older }
        requires younger { IsRoot self.old.links.items younger }
        requires order { older ≤ younger }
        requires within { younger < length self.old.links.items }
        ensures narrows { result ≡ true → Narrows (λ type. type older ≡ type younger) self.old self.new }
        ensures excludes { result ≡ false → Excludes (λ type. type older ≡ type younger) self.old }
    {
        let known = self.known[younger];
        self.known[younger] = None;
        self.links[younger] = older;
        match known {
            None => true,
            Some(ty) => learn(&mut self.known, older, ty),
        }
    }

    /// Makes the types of two nodes equal, where they can be.
    fn join(&mut self, one: usize, other: usize) -> bool
        requires sound { IsSound self.old }
        requires one_within { one < length self.old.links.items }
        requires other_within { other < length self.old.links.items }
        ensures narrows { result ≡ true → Narrows (λ type. type one ≡ type other) self.old self.new }
        ensures excludes { result ≡ false → Excludes (λ type. type one ≡ type other) self.old }
    {
        let one = root(&mut self.links, one);
        let other = root(&mut self.links, other);
        if one < other {
            self.link(one, other)
        } else {
            self.link(other, one)
        }
    }

    /// Gives a node a type, where it can have it.
    fn fix(&mut self, node: usize, ty: Ty) -> bool
        requires sound { IsSound self.old }
        requires within { node < length self.old.links.items }
        ensures narrows { result ≡ true → Narrows (λ type. type node ≡ ty) self.old self.new }
        ensures excludes { result ≡ false → Excludes (λ type. type node ≡ ty) self.old }
    {
        let root = root(&mut self.links, node);
        learn(&mut self.known, root, ty)
    }

    /// Takes an equality in, and says whether it can be met.
    pub(crate) fn meet(&mut self, equality: &Equality) -> Result<bool, AllocError>
        requires { IsSound self.old }
        ensures met { IfOk result (λ met. met ≡ true → Meeting equality.now self.old self.new) }
        ensures clashes { IfOk result (λ met. met ≡ false → Clashes equality.now self.old) }
    {
        let node = self.number(equality.node)?;
        match equality.side {
            Side::Fixed(ty) => Ok(self.fix(node, ty)),
            Side::SameAs(place) => {
                let other = self.number(place)?;
                Ok(self.join(node, other))
            }
        }
    }

    /// The type of what stands at a place, or `None` where it can be any.
    pub(crate) fn type_at(&mut self, place: Pos) -> Result<Option<Ty>, AllocError>
        requires { IsSound self.old }
        ensures { IfOk result (λ type. IsTypeAt place self.old self.new type) }
    {
        let node = self.number(place)?;
        let root = root(&mut self.links, node);
        Ok(self.known[root])
    }
}
