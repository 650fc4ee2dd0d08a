//! Laws of the definitions. Each function does nothing, and its contract is the law.
ghost use Rattle.zl_value.specs.Laws.{AreField, AreOrdered, StaysNegative, RankedHasOneSolution, AcyclicHasRanks, RanksOrCycle, RankedIsAcyclic, CorrespondingRuns, DeterminedRuns};

/// Fractions in lowest terms are a field.
pub fn fractions_are_field()
    ensures { AreField }
{}

/// Fractions in lowest terms are in a total order that goes with sums and products.
pub fn fractions_are_ordered()
    ensures { AreOrdered }
{}

/// A line that begins below zero and doesn't end above it is below zero between.
pub fn line_stays_negative()
    ensures { StaysNegative }
{}

/// Equations with ranks have exactly one solution.
pub fn ranked_has_one_solution<N, V>()
    ensures { RankedHasOneSolution N V }
{}

/// A finite relation without cycles has ranks.
pub fn acyclic_has_ranks()
    ensures { AcyclicHasRanks }
{}

/// A finite relation has ranks or a cycle.
pub fn relation_has_ranks_or_cycle()
    ensures { RanksOrCycle }
{}

/// A relation with ranks has no cycles.
pub fn ranked_is_acyclic()
    ensures { RankedIsAcyclic }
{}

/// Where each step and each flow of one system corresponds to one of another, so does each run.
pub fn runs_correspond<X, Y, U, V, W>()
    ensures { CorrespondingRuns X Y U V W }
{}

/// A system whose steps and flows are the only ones has at most one run with a script.
pub fn determined_has_one_run<X, Y>()
    ensures { DeterminedRuns X Y }
{}
