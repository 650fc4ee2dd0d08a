// Where in time a run stands.
ghost use Rattle.std.specs.Prelude.{◌≡◌, ◌+◌, ◌<◌};
ghost use Rattle.zl_run.specs.Clocks.{stepped, moved_to};

use zl_value::{Frac, Mark};

/// The time and the mark of an instant, how many steps were made so far, and how many of them at this time.
#[derive(Debug, Drop)]
pub(crate) struct Clock {
    pub time: Frac,
    pub mark: Mark,
    pub made: u32,
    pub here: u32,
}

/// At a further step.
pub(crate) fn after_step(clock: &Clock) -> Clock
    requires made { clock.now.made < 4294967295 }
    requires here { clock.now.here < 4294967295 }
    ensures { result ≡ stepped clock.now }
{
    Clock {
        time: clock.time,
        mark: Mark::Step(clock.here),
        made: clock.made + 1,
        here: clock.here + 1,
    }
}

/// At the left end of a flow, at this time.
pub(crate) fn after_flow(clock: &Clock, time: Frac) -> Clock
    ensures { result ≡ moved_to clock.now time }
{
    Clock {
        time,
        mark: Mark::Left,
        made: clock.made,
        here: 0,
    }
}
