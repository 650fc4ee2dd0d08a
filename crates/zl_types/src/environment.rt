//! What the names in a declaration stand for.
ghost use Rattle.std.specs.Prelude.{◌≡◌, Some, nat_eq, map, OnOk, IfOk};
ghost use Rattle.indexmap.specs.IndexMap.{get};
ghost use Rattle.zl_ast.specs.Names as names;
ghost use Rattle.zl_types.specs.Environments.{environment_of};
ghost use Rattle.std.specs.Option.{option_copied};
ghost use Rattle.zl_ast.specs.TypeEqualities.{nothing, with_places, before_all, with_variables, with_declared, or_constant, first_result};
ghost use Rattle.zl_ast.specs.TypeEqualities as spec;
ghost use Rattle.zl_ast.specs.NamesRules.{place_of};

use indexmap::IndexMap;
use std::alloc::{AllocError, Global};
use std::marker::Model;
use zl_ast::{Decl, Expr, Param, VarInfo, place_of};
use zl_lexer::Names;
use zl_value::{Pos, Sequence};

/// The places of a declaration's parameters, and of its results.
#[derive(Drop)]
pub(crate) struct Signature {
    params: Sequence<Pos>,
    results: Sequence<Pos>,
}

impl Model for Signature {
    ghost use Rattle.zl_ast.specs.TypeEqualities as spec;

    ghost Value = { spec.Signature };

    ghost view = { λ s. record { params = s.params; results = s.results } };
}

impl Signature {
    pub(crate) fn params(&self) -> &[Pos]
        ensures { result.now ≡ self.now.params }
    {
        self.params.as_slice()
    }

    pub(crate) fn results(&self) -> &[Pos]
        ensures { result.now ≡ self.now.results }
    {
        self.results.as_slice()
    }

    pub(crate) fn first_result(&self) -> Option<Pos>
        ensures { result ≡ first_result (Some self.now) }
    {
        let results = self.results.as_slice();
        if results.is_empty() {
            None
        } else {
            Some(results[0])
        }
    }

    /// The signature of a declaration.
    pub(crate) fn of(alloc: Global, decl: &Decl) -> Result<Signature, AllocError>
        ensures { IfOk result (λ s. s ≡ spec.signature_of decl.now) }
    {
        let params = param_places(alloc, decl.params.as_slice())?;
        let results = expr_places(alloc, decl.results.as_slice())?;
        Ok(Signature {
            params: Sequence::from_vec(params),
            results: Sequence::from_vec(results),
        })
    }
}

fn param_places(alloc: Global, params: &[Param]) -> Result<Vec<Pos>, AllocError>
    ensures { IfOk result (λ places. places.items ≡ map (λ p. p.name.at) params.now) }
{
    let mut places = Vec::new(alloc);
    for param in params {
        places.push(param.name.at)?;
    }
    Ok(places)
}

/// The places of expressions.
pub(crate) fn expr_places(alloc: Global, exprs: &[Expr]) -> Result<Vec<Pos>, AllocError>
    ensures { IfOk result (λ places. places.items ≡ map place_of exprs.now) }
{
    let mut places = Vec::new(alloc);
    for expr in exprs {
        places.push(place_of(expr))?;
    }
    Ok(places)
}

/// The variables of a declaration, and the declarations before it.
#[derive(Drop)]
pub(crate) struct Environment<'a> {
    names: &'a Names,
    /// The places of variables by the numbers of their names.
    variables: IndexMap<u32, Pos>,
    declared: IndexMap<u32, Signature>,
}

impl<'a> Environment<'a> {
    /// Before the first declaration.
    pub(crate) fn new(alloc: Global, names: &'a Names) -> Environment<'a>
        ensures { environment_of result ≡ before_all names.now }
    {
        Environment {
            names,
            variables: IndexMap::new(alloc),
            declared: IndexMap::new(alloc),
        }
    }
}

/// The places of variables by the numbers of their names.
fn places_of(alloc: Global, vars: &[VarInfo]) -> Result<IndexMap<u32, Pos>, AllocError>
    ensures { IfOk result (λ places. (λ id. get nat_eq places id) ≡ with_places nothing vars.now) }
{
    let mut places = IndexMap::new(alloc);
    for var in vars {
        places.insert(var.name, var.at)?;
    }
    Ok(places)
}

impl Environment<'_> {
    /// Enters a declaration with these variables.
    pub(crate) fn enter(&mut self, alloc: Global, vars: &[VarInfo]) -> Result<(), AllocError>
        ensures { OnOk result (environment_of self.new ≡ with_variables (environment_of self.old) vars.now) }
    {
        self.variables = places_of(alloc, vars)?;
        Ok(())
    }

    /// Takes note of a declaration.
    pub(crate) fn declare(&mut self, alloc: Global, decl: &Decl) -> Result<(), AllocError>
        ensures { OnOk result (environment_of self.new ≡ with_declared (environment_of self.old) decl.now) }
    {
        let signature = Signature::of(alloc, decl)?;
        self.declared.insert(decl.name.id, signature)?;
        Ok(())
    }

    /// The place of a variable of the declaration.
    pub(crate) fn variable(&self, id: u32) -> Option<Pos>
        ensures { result ≡ (environment_of self.now).variables id }
    {
        match self.variables.get(&id) {
            Some(at) => Some(*at),
            None => None,
        }
    }

    /// The signature of a declaration before.
    pub(crate) fn signature(&self, id: u32) -> Option<&Signature>
        ensures { option_copied result ≡ (environment_of self.now).declared id }
    {
        self.declared.get(&id)
    }

    /// The place that gives its type to a name that is read: that of a variable, or of a constant's value.
    pub(crate) fn read(&self, id: u32) -> Option<Pos>
        ensures { result ≡ or_constant ((environment_of self.now).variables id) ((environment_of self.now).declared id) }
    {
        match self.variable(id) {
            Some(at) => Some(at),
            None => match self.signature(id) {
                Some(signature) => signature.first_result(),
                None => None,
            },
        }
    }

    /// Whether the name has this text.
    pub(crate) fn has_text(&self, id: u32, text: &str) -> bool
        ensures { result ≡ names.has_text (environment_of self.now).names id text.now }
    {
        match self.names.text(id) {
            Some(name) => name == text,
            None => false,
        }
    }
}
