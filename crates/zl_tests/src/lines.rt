use crate::machines::{saw_tooth, steps};
use std::test::Fail;
use zl_lines::LineRoom;
use zl_machine::Machine;
use zl_value::{Arith, Ending, Fault, Frac, Mark, Pos};

#[test]
fn one_room_for_the_lines_of_a_run(rt: HostRuntime) -> Result<(), Fail> {
    let code = saw_tooth(rt.alloc())?;
    let mut machine = Machine::make(rt.alloc(), &code)?;
    let mut room = LineRoom::make(rt.alloc(), &code)?;
    steps(&rt, &mut machine, false);
    let step = room.instant(Frac::zero(), Mark::Step(0), &machine)?;
    assert_eq!(rt; step, b"0 #0 x=0\n".as_slice());
    let left = room.instant(Frac::make(7, 2)?, Mark::Left, &machine)?;
    assert_eq!(rt; left, b"7/2 - x=0\n".as_slice());
    let ending = Ending::Fault {
        fault: Fault {
            kind: Arith::Division,
            at: Pos {
                line: 3,
                column: 14,
            },
        },
        time: Frac::make(1, 3)?,
        mark: Mark::Flow,
    };
    let last = room.ending(ending)?;
    assert_eq!(rt; last, b"fault division 1/3 ~ 3:14\n".as_slice());
    Ok(())
}
