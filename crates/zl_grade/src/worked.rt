//! Worked forms, each a function without a body: its contract says which grades the form has, and that none is greater than is
//! needed, or which is the first that is.
ghost use Rattle.zl_grade.specs.Worked.StillOverMoving.{StillOverMovingIsAllowed};
ghost use Rattle.zl_grade.specs.Worked.MovingTimesStill.{MovingTimesStillIsAllowed};
ghost use Rattle.zl_grade.specs.Worked.UpOfASquare.{UpOfASquareIsOver};
ghost use Rattle.zl_grade.specs.Worked.SquareInAState.{SquareInAStateIsAllowed};

/// A number that stands still divided by one that moves: of grade 2, even where the number is 0.
pub fn still_over_moving()
    ensures { StillOverMovingIsAllowed }
{}

/// A number that moves on a straight line times one that stands still: of grade 1.
pub fn moving_times_still()
    ensures { MovingTimesStillIsAllowed }
{}

/// The square of a number that moves, as the argument of an `up`: of grade 2, where 1 is needed at most. It is the first that has
/// too great a grade.
pub fn up_of_a_square()
    ensures { UpOfASquareIsOver }
{}

/// A variable that is a square in one of two states, and a name of it outside: of grade 2.
pub fn square_in_a_state()
    ensures { SquareInAStateIsAllowed }
{}
