//! The worked programs of the rules of names, types, contexts and initialisation: one that keeps each rule, and ones that break it
//! at their place. Each is what a function with an empty body ensures.
ghost use Rattle.zl_ast.specs.ReadNamesWorked.{ReadNamesWorked};
ghost use Rattle.zl_ast.specs.DefinedNamesWorked.{DefinedNamesWorked};
ghost use Rattle.zl_ast.specs.NamesOrderWorked.{NamesOrderWorked};
ghost use Rattle.zl_ast.specs.ContextWorked.{ContextWorked};
ghost use Rattle.zl_ast.specs.EquationContextWorked.{EquationContextWorked};
ghost use Rattle.zl_ast.specs.ExpressionTypesWorked.{ExpressionTypesWorked};
ghost use Rattle.zl_ast.specs.EquationTypesWorked.{EquationTypesWorked};
ghost use Rattle.zl_ast.specs.ExpressionLevelsWorked.{ExpressionLevelsWorked};
ghost use Rattle.zl_ast.specs.EquationLevelsWorked.{EquationLevelsWorked};

/// Which names are known, and which may be given twice.
pub fn names_that_are_read()
    ensures { ReadNamesWorked }
{}

/// Definitions, calls, states, `main`, and `last` of a parameter.
pub fn names_that_are_defined()
    ensures { DefinedNamesWorked }
{}

/// The order of the rules of names.
pub fn order_of_names()
    ensures { NamesOrderWorked }
{}

/// The types of expressions.
pub fn types()
    ensures { ExpressionTypesWorked }
{}

/// The types of calls, equations and conditions, and variables whose type nothing fixes.
pub fn types_of_equations()
    ensures { EquationTypesWorked }
{}

/// The contexts of expressions.
pub fn contexts()
    ensures { ContextWorked }
{}

/// The contexts of equations.
pub fn contexts_of_equations()
    ensures { EquationContextWorked }
{}

/// The levels of expressions.
pub fn levels()
    ensures { ExpressionLevelsWorked }
{}

/// The levels of equations, and variables that are anchored or surely defined.
pub fn levels_of_equations()
    ensures { EquationLevelsWorked }
{}
