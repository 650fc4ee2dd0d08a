//! The law of the forms of a fraction.
ghost use Rattle.zl_value.specs.Lowest.{HaveLowestTerms};

/// Each fraction has one form in lowest terms, and it is in the width where any form of it is. The
/// function does nothing: its contract is the law.
pub fn fractions_have_lowest_terms()
    ensures { HaveLowestTerms }
{}
