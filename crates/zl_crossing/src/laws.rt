//! Laws of the first crossing. Each function does nothing, and its contract is the law.
ghost use Rattle.zl_crossing.specs.Laws.{FirstLasts, OneFirst};

/// Where the sites of a flow move along the lines, and the cap is the time to the next stop of the script, the flow
/// lasts until the first crossing.
pub fn first_lasts()
    ensures { FirstLasts }
{}

/// Lines and a cap have one first crossing.
pub fn first_is_one()
    ensures { OneFirst }
{}
