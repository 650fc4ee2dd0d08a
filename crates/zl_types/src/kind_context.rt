//! Where a construct may stand.
ghost use Rattle.std.specs.Prelude.{◌≡◌};
ghost use Rattle.zl_ast.specs.Kinds as kinds;
ghost use Rattle.zl_types.specs.Contexts.{context_of};

use zl_ast::{DeclKind, Prefix};

/// What may happen where an expression or an equation stands: the kinds A, D and C of Zélus, and one between A and D.
#[derive(Clone, Copy)]
pub(crate) enum Context {
    /// Without memory.
    Combinatorial,
    /// Combinatorial, but that `last` values may be read.
    Recalling,
    /// In steps, with memory.
    Discrete,
    /// In continuous time, with derivatives and zero-crossings.
    Hybrid,
}

impl Context {
    /// The context of a declaration's results and equations.
    pub(crate) fn of_body(kind: DeclKind) -> Context
        ensures { context_of result ≡ kinds.body_context kind }
    {
        match kind {
            DeclKind::Constant => Context::Combinatorial,
            DeclKind::Function => Context::Combinatorial,
            DeclKind::Node => Context::Discrete,
            DeclKind::Hybrid => Context::Hybrid,
        }
    }

    pub(crate) fn is_discrete(self) -> bool
        ensures { result ≡ kinds.is_discrete (context_of self) }
    {
        match self {
            Context::Discrete => true,
            _ => false,
        }
    }

    pub(crate) fn is_hybrid(self) -> bool
        ensures { result ≡ kinds.is_hybrid (context_of self) }
    {
        match self {
            Context::Hybrid => true,
            _ => false,
        }
    }

    /// Whether `last` may stand here.
    pub(crate) fn allows_last(self) -> bool
        ensures { result ≡ kinds.allows_last (context_of self) }
    {
        match self {
            Context::Recalling => true,
            Context::Discrete => true,
            _ => false,
        }
    }

    /// Whether `init`, an automaton or a `reset` block may stand here.
    pub(crate) fn allows_state(self) -> bool
        ensures { result ≡ kinds.allows_state (context_of self) }
    {
        self.is_discrete() || self.is_hybrid()
    }

    /// Whether a `present` may stand here, with an `else` or without.
    #[tactic(auto, unfolding(zl_ast::specs::Kinds::allows_present))]
    pub(crate) fn allows_present(self, other: bool) -> bool
        ensures { result ≡ kinds.allows_present other (context_of self) }
    {
        match self {
            Context::Discrete => true,
            Context::Hybrid => !other,
            _ => false,
        }
    }

    /// The context of the branches of an `if` that stands here.
    pub(crate) fn of_branches(self) -> Context
        ensures { context_of result ≡ kinds.branch_context (context_of self) }
    {
        match self {
            Context::Combinatorial => Context::Combinatorial,
            Context::Recalling => Context::Recalling,
            Context::Discrete => Context::Recalling,
            Context::Hybrid => Context::Combinatorial,
        }
    }

    /// Whether a prefix operator may stand here.
    pub(crate) fn allows_prefix(self, op: Prefix) -> bool
        ensures { result ≡ kinds.allows_prefix op (context_of self) }
    {
        match op {
            Prefix::Pre => self.is_discrete(),
            _ => true,
        }
    }

    /// The context of the operand of a prefix operator that stands here.
    pub(crate) fn of_operand(self, op: Prefix) -> Context
        ensures { context_of result ≡ kinds.operand_context op (context_of self) }
    {
        match op {
            Prefix::Pre => Context::Discrete,
            _ => self,
        }
    }

    /// Whether a name that declares this may be called here.
    pub(crate) fn allows_call(self, callee: Option<DeclKind>) -> bool
        ensures { result ≡ kinds.allows_call callee (context_of self) }
    {
        match callee {
            Some(DeclKind::Node) => self.is_discrete(),
            Some(DeclKind::Hybrid) => self.is_hybrid(),
            _ => true,
        }
    }

    /// The context of the arguments of such a call.
    pub(crate) fn of_arguments(self, callee: Option<DeclKind>) -> Context
        ensures { context_of result ≡ kinds.argument_context callee (context_of self) }
    {
        match callee {
            Some(DeclKind::Node) => Context::Discrete,
            Some(DeclKind::Hybrid) => Context::Hybrid,
            _ => self,
        }
    }
}
