ghost use Rattle.std.specs.Prelude.{◌≡◌, OnOk};
ghost use Rattle.zl_ast.specs.NamesRules as rules;
ghost use Rattle.zl_ast.specs.NamesRules.{built_in, with_constant, with_signature, declared_with};
ghost use Rattle.zl_ast.specs.Names as spec;
ghost use Rattle.zl_names.specs.Kept.{known_of};

use indexmap::IndexMap;
use std::alloc::{AllocError, Global};
use zl_ast::{Decl, DeclKind, NameSet};
use zl_lexer::Names;

/// What is known of names in a declaration, other than its variables.
#[derive(Drop)]
pub(crate) struct Known<'a> {
    pub(crate) names: &'a Names,
    /// The constants declared before.
    pub(crate) constants: NameSet,
    /// How many arguments each called name that was declared before takes, and how many results it gives.
    pub(crate) signatures: IndexMap<u32, (usize, usize)>,
    pub(crate) parameters: NameSet,
}

impl<'a> Known<'a> {
    /// Before the first declaration.
    pub(crate) fn new(alloc: Global, names: &'a Names) -> Known<'a>
        ensures known { known_of result ≡ built_in names.now }
        ensures names { result.names.now ≡ names.now }
    {
        Known {
            names,
            constants: NameSet::new(alloc),
            signatures: IndexMap::new(alloc),
            parameters: NameSet::new(alloc),
        }
    }
}

impl Known<'_> {
    /// How many arguments a called name takes, and how many results it gives.
    pub(crate) fn signature(&self, id: u32) -> Option<(usize, usize)>
        ensures { result ≡ (known_of self.now).signature id }
    {
        match self.signatures.get(&id) {
            Some(signature) => Some(*signature),
            None => {
                if is_built_in(self.names, id) {
                    Some((1, 1))
                } else {
                    None
                }
            }
        }
    }
}

impl Known<'_> {
    /// Whether it is the name of an earlier declaration or of a built-in function.
    pub(crate) fn is_declared(&self, id: u32) -> bool
        ensures { result ≡ rules.is_declared (known_of self.now) id }
    {
        self.constants.contains(id) || self.signature(id).is_some()
    }

    fn declare_constant(&mut self, alloc: Global, id: u32) -> Result<(), AllocError>
        ensures known { OnOk result (known_of self.new ≡ with_constant (known_of self.old) id) }
        ensures names { self.new.names.now ≡ self.old.names.now }
    {
        self.parameters = NameSet::new(alloc);
        self.constants.insert(id)
    }

    fn declare_call(
        &mut self,
        alloc: Global,
        id: u32,
        signature: (usize, usize),
    ) -> Result<(), AllocError>
        ensures known { OnOk result (known_of self.new ≡ with_signature (known_of self.old) id signature) }
        ensures names { self.new.names.now ≡ self.old.names.now }
    {
        self.parameters = NameSet::new(alloc);
        self.signatures.insert(id, signature)?;
        Ok(())
    }

    /// Takes note of a declaration.
    pub(crate) fn declare(&mut self, alloc: Global, decl: &Decl) -> Result<(), AllocError>
        ensures known { OnOk result (known_of self.new ≡ declared_with (known_of self.old) decl.now) }
        ensures names { self.new.names.now ≡ self.old.names.now }
    {
        if is_constant(decl.kind) {
            self.declare_constant(alloc, decl.name.id)
        } else {
            let signature = (decl.params.len(), decl.results.len());
            self.declare_call(alloc, decl.name.id, signature)
        }
    }
}

fn is_constant(kind: DeclKind) -> bool
    ensures { result ≡ rules.is_constant kind }
{
    match kind {
        DeclKind::Constant => true,
        _ => false,
    }
}

/// Whether it is the name of one of the two functions that every program has.
pub(crate) fn is_built_in(names: &Names, id: u32) -> bool
    ensures { result ≡ spec.is_built_in names.now id }
{
    has_text(names, id, "float_of_int") || has_text(names, id, "truncate")
}

pub(crate) fn has_text(names: &Names, id: u32, text: &str) -> bool
    ensures { result ≡ spec.has_text names.now id text.now }
{
    match names.text(id) {
        Some(name) => name == text,
        None => false,
    }
}

pub(crate) fn is_main(names: &Names, id: u32) -> bool
    ensures { result ≡ spec.is_main names.now id }
{
    has_text(names, id, "main")
}
