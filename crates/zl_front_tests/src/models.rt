//! Models go through every call of the front.
use crate::front::flat;
use std::test::Fail;

/// A ramp.
const A_RAMP: &str = "let hybrid main() = x where rec der x = 1.0 init 0.0";

/// A saw tooth.
const A_SAW_TOOTH: &str =
    "let hybrid main() = x where rec der x = 1.0 init 0.0 reset up(x -. 1.0) -> 0.0";

/// A site at zero.
const A_SITE_AT_ZERO: &str =
    "let hybrid main() = x where rec der x = 1.0 init 0.0 reset up(x) -> 5.0";

/// Two crossings at one time.
const TWO_CROSSINGS_AT_ONE_TIME: &str = "let hybrid main() = (a, b) where rec
  der x = 1.0 init 0.0
  and init a = 0 and present up(x -. 1.0) -> do a = last a + 1 done
  and init b = 0 and present up(2.0 *. x -. 2.0) -> do b = last b + 1 done";

/// A cascade.
const A_CASCADE: &str = "let hybrid main() = (y, w) where rec
  der x = 1.0 init 0.0
  and init y = -1.0 and present up(x -. 1.0) -> do y = 1.0 done
  and init w = 0 and present up(y) -> do w = last w + 1 done";

/// Two tanks of which one is filled.
const TWO_TANKS_OF_WHICH_ONE_IS_FILLED: &str = "let hybrid main() = (x1, x2) where rec
  init x1 = 0.0 and init x2 = 1.0
  and automaton
  | A -> do der x1 = 0.75 -. 0.5 and der x2 = -. 0.5 until up(-. x2) then B
  | B -> do der x1 = -. 0.5 and der x2 = 0.75 -. 0.5 until up(-. x1) then A";

/// A reset to an input.
const A_RESET_TO_AN_INPUT: &str =
    "let hybrid main(v) = x where rec der x = 1.0 init 0.0 reset up(x -. 1.0) -> v";

/// Two operators that may have a fault.
const TWO_OPERATORS_THAT_MAY_HAVE_A_FAULT: &str = "let hybrid main(u, v) = (a, b) where rec
  a = u *. u and b = u /. v";

/// The same, the other way round.
const THE_SAME_THE_OTHER_WAY_ROUND: &str = "let hybrid main(u, v) = (a, b) where rec
  b = u /. v and a = u *. u";

/// Feedback through two declarations.
const FEEDBACK_THROUGH_TWO_DECLARATIONS: &str = "let hybrid tank(q) = h where rec der h = q init 0.0
let hybrid ctrl(h) = q where rec
  init q = 1.0
  and present up(h -. 1.0) -> do q = -1.0 done | up(-. h) -> do q = 1.0 done
let hybrid main() = h where rec h = tank(q) and q = ctrl(h)";

/// Two variables that need each other.
const TWO_VARIABLES_THAT_NEED_EACH_OTHER: &str =
    "let hybrid main() = h where rec h = g +. 1.0 and g = h -. 1.0";

/// A derivative that moves.
pub(crate) const A_DERIVATIVE_THAT_MOVES: &str =
    "let hybrid main() = y where rec der x = 1.0 init 0.0 and der y = x init 0.0";

/// The greatest number.
const THE_GREATEST_NUMBER: &str =
    "let hybrid main() = x where rec der x = 9223372036854775807.0 init 0.0";

/// An automaton whose states are reset.
const AN_AUTOMATON_WHOSE_STATES_ARE_RESET: &str = "let hybrid main() = n where rec
  der t = 1.0 init 0.0 reset up(t -. 1.0) -> 0.0
  and init n = 0
  and automaton
  | A -> do present up(t -. 0.5) -> do n = 1 fby (n + 1) done until up(t -. 1.0) then B
  | B -> do until up(t -. 1.0) then A";

/// An automaton with history.
const AN_AUTOMATON_WITH_HISTORY: &str = "let hybrid main() = n where rec
  der t = 1.0 init 0.0 reset up(t -. 1.0) -> 0.0
  and init n = 0
  and automaton
  | A -> do present up(t -. 0.5) -> do n = 1 fby (n + 1) done until up(t -. 1.0) then B
  | B -> do until up(t -. 1.0) continue A";

/// A reset of a `present` that calls a node.
const A_RESET_OF_A_PRESENT_THAT_CALLS_A_NODE: &str =
    "let node count() = n where rec n = 1 fby (n + 1)
let hybrid main() = n where rec
  der t = 1.0 init 0.0 reset up(t -. 1.0) -> 0.0
  and init n = 0
  and reset present up(t -. 0.5) -> do n = count() done every up(t -. 1.0)";

/// A strong transition.
const A_STRONG_TRANSITION: &str = "let hybrid main() = x where rec init x = 0.0 and automaton
  | A -> do der x = 1.0 unless up(x -. 1.0) then B
  | B -> do x = 5.0 done";

/// A weak transition.
const A_WEAK_TRANSITION: &str = "let hybrid main() = x where rec init x = 0.0 and automaton
  | A -> do der x = 1.0 until up(x -. 1.0) then B
  | B -> do x = 5.0 done";

/// A crossing far away.
const A_CROSSING_FAR_AWAY: &str =
    "let hybrid main() = y where rec der y = 1e-10 init -10000000000.0 reset up(y) -> 0.0";

/// A crossing at once, with a steep slope.
const A_CROSSING_AT_ONCE_WITH_A_STEEP_SLOPE: &str =
    "let hybrid main() = x where rec der x = 10000000000.0 init -1e-10 reset up(x) -> 0.0";

/// A room with a heater.
const A_ROOM_WITH_A_HEATER: &str = "(* a room with a heater *)
let low = 19.0
let high = 21.0
let hybrid room(gain) = (temp, starts) where rec
  init temp = 20.0 and init starts = 0
  and present up(low -. temp) -> do starts = last starts + 1 done
  and automaton
  | Off -> do der temp = -0.5 until up(low -. temp) then On
  | On -> do der temp = gain until up(temp -. high) then Off
let hybrid main(gain : float) = (temp, starts) where rec (temp, starts) = room(gain)";

/// Models that keep all rules up to causality.
pub(crate) const MODELS: [&str; 20] = [
    A_RAMP,
    A_SAW_TOOTH,
    A_SITE_AT_ZERO,
    TWO_CROSSINGS_AT_ONE_TIME,
    A_CASCADE,
    TWO_TANKS_OF_WHICH_ONE_IS_FILLED,
    A_RESET_TO_AN_INPUT,
    TWO_OPERATORS_THAT_MAY_HAVE_A_FAULT,
    THE_SAME_THE_OTHER_WAY_ROUND,
    FEEDBACK_THROUGH_TWO_DECLARATIONS,
    A_DERIVATIVE_THAT_MOVES,
    THE_GREATEST_NUMBER,
    AN_AUTOMATON_WHOSE_STATES_ARE_RESET,
    AN_AUTOMATON_WITH_HISTORY,
    A_RESET_OF_A_PRESENT_THAT_CALLS_A_NODE,
    A_STRONG_TRANSITION,
    A_WEAK_TRANSITION,
    A_CROSSING_FAR_AWAY,
    A_CROSSING_AT_ONCE_WITH_A_STEEP_SLOPE,
    A_ROOM_WITH_A_HEATER,
];

#[test]
fn models_have_flat_forms(rt: HostRuntime) -> Result<(), Fail> {
    for model in MODELS {
        flat(rt.alloc(), model)?;
    }
    flat(rt.alloc(), TWO_VARIABLES_THAT_NEED_EACH_OTHER)?;
    Ok(())
}
