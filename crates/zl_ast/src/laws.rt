//! The laws of the grammar, each as what a function with an empty body ensures.
ghost use Rattle.zl_ast.specs.Examples.{Examples};
ghost use Rattle.zl_ast.specs.DeepTokens.{DeepTokens};
ghost use Rattle.zl_ast.specs.GoesOn.{NoneGoesOn, NoneGoesOnWithin};
ghost use Rattle.zl_ast.specs.InOrder.{EqualitiesRise, RequirementsRise};
ghost use Rattle.zl_ast.specs.TreeLaws.{OneTree, Deeper, PlacesGrow, NamesKnown, ReadingIsExact, NoTreeAtAnyDepth, SomePlacesGrow, FaultsAreInside};

/// Tokens have at most one tree.
pub fn one_tree()
    ensures { OneTree }
{}

/// A program keeps its tree where more constructs may be nested.
pub fn deeper()
    ensures { Deeper }
{}

/// The places in a tree of tokens whose places grow grow as well, in the order of the text.
pub fn places_grow()
    ensures { PlacesGrow }
{}

/// The names in a tree are among those of its tokens.
pub fn names_known()
    ensures { NamesKnown }
{}

/// Reading with one token of look-ahead is exact: it answers the tree where there is one, and a fault where there is none.
pub fn reading_is_exact()
    ensures { ReadingIsExact }
{}

/// Where reading stops at a token that can't follow, there is no tree, whatever the limit on nesting.
pub fn no_tree_at_any_depth()
    ensures { NoTreeAtAnyDepth }
{}

/// The token at which reading stops is one of those that it was given, or the end behind them.
pub fn faults_are_inside()
    ensures { FaultsAreInside }
{}

/// A token that opens a construct too many opens one, and with one construct more reading takes it: it stops behind it, or
/// nowhere.
pub fn deep_tokens()
    ensures { DeepTokens }
{}

/// Where reading stops at a token that can't follow, the tokens up to it begin no program, whatever its nesting.
pub fn none_goes_on()
    ensures { NoneGoesOn }
{}

/// Where it stops at one that opens a construct too many, these tokens and one more begin no program within the limit.
pub fn none_goes_on_within()
    ensures { NoneGoesOnWithin }
{}

/// A list of places whose members stand, in this order, in a list that grows.
pub fn some_places_grow()
    ensures { SomePlacesGrow }
{}

/// What is asked of types is asked in the order of the text.
pub fn equalities_rise()
    ensures { EqualitiesRise }
{}

/// What is asked of levels is asked in the order of the text.
pub fn requirements_rise()
    ensures { RequirementsRise }
{}

/// The worked examples: lists of tokens with their trees, and lists that have none.
pub fn examples()
    ensures { Examples }
{}
