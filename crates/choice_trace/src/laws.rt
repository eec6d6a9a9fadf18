// What always holds of the definitions that the contracts cite.
ghost use Rattle.choice_trace.specs.Laws.{HullsHold, OnlyHullsHold};
ghost use Rattle.choice_trace.specs.PointLaws.{ChoicesAreOfSteps, ChoicesAreRight, ChosenOperandsWin, EachValueIsHeld, ValuesAreHeld};
ghost use Rattle.choice_trace.specs.Work.{HullsAreExact, PointsAreExact};

/// The hull of each step of a list over a region is the hull of all results on the values of its
/// operands' hulls, or the range of a coordinate, or the constant alone. No other list of hulls is
/// so.
pub fn hulls_of_steps()
    ensures hold { HullsHold }
    ensures only { OnlyHullsHold }
{}

/// What an evaluation counts, where each step counts one evaluation at a point: exactly the length of
/// the list in points, and nothing else. Where each step counts one hull of at most four corners:
/// exactly the length in hulls, at most four times the length in corners, and no point.
pub fn work_of_steps()
    ensures points { PointsAreExact }
    ensures hulls { HullsAreExact }
{}

/// At each point of a region the hull of a list holds its value, that of each step the step's, and
/// the choices are right. The operand that a step chooses wins there: the first of a minimum is at
/// most the second, and the second less than the first; the first of a maximum is at least the
/// second, and the second greater than the first.
#[inline]
pub fn traces_are_right()
    ensures held { ValuesAreHeld }
    ensures each { EachValueIsHeld }
    ensures choices { ChoicesAreOfSteps }
    ensures right { ChoicesAreRight }
    ensures wins { ChosenOperandsWin }
{}
