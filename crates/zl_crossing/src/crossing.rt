ghost use Rattle.std.specs.Prelude.{◌≡◌, ◌&&◌, List, [], ◌∷◌, ◌++◌, true, pos, int_lt, Option, Some, MatchOption, if◌then◌else◌};
ghost use Rattle.zl_value.specs.Fraction.{Fraction, IsReduced};
ghost use Rattle.zl_value.specs.Order.{below};
ghost use Rattle.zl_value.specs.Times.{nought, is_negative};
ghost use Rattle.zl_value.specs.declared.line.Line.{Line};
ghost use Rattle.zl_crossing.specs.FirstCrossing.{IsFirst, CrossesFrom, NeverCrosses};
ghost use Rattle.zl_crossing.specs.declared.answer.By.TheVariants.{Crossing};

use crate::{By, First};
use std::cmp::Ordering;
use zl_value::{Frac, Line, Wide};

/// How long a flow lasts along these lines, of which one that has no value is `None`: until the first moment at which a
/// line that began below zero has reached zero, if that is at or before the cap, else to the cap. A line at or above
/// zero at the begin ends nothing. The cap is positive, in the model's unit of time. The rule is this project's own,
/// after Zélus' `up`. It takes no memory, and looks at each line once.
pub fn first(lines: &[Option<Line>], cap: Wide) -> First
    requires lowest { IsReduced cap }
    requires positive { below nought cap ≡ true }
    ensures first { IsFirst lines.now cap result }
{
    let mut first = First {
        duration: cap,
        by: By::Cap,
    };
    for line in lines {
        first = with_line(first, line);
    }
    first
}

/// The answer with one more line.
fn with_line(first: First, line: &Option<Line>) -> First
    ensures { (lines : List (Option Line)) (cap : Fraction) → IsReduced cap → IsFirst lines cap first → IsFirst (lines ++ line.now ∷ []) cap result }
{
    match root_of(line) {
        Some(root) => earlier(first, root),
        None => first,
    }
}

/// A crossing at the same moment as the cap goes before it.
fn earlier(first: First, root: Wide) -> First
    ensures value { result ≡ (if below first.duration root then first else (record { duration = root; by = Crossing })) }
{
    match first.duration.cmp(&root) {
        Ordering::Less => first,
        _ => First {
            duration: root,
            by: By::Crossing,
        },
    }
}

/// The moment at which a line that begins below zero is zero, if there is one.
fn root_of(line: &Option<Line>) -> Option<Wide>
    ensures { MatchOption result (NeverCrosses line.now) (CrossesFrom line.now) }
{
    match line {
        Some(line) => root(*line),
        None => None,
    }
}

fn root(line: Line) -> Option<Wide>
    ensures { MatchOption result (NeverCrosses (Some line)) (CrossesFrom (Some line)) }
{
    let Line { value, slope } = line;
    if rises_from_below(value, slope) {
        return Some(Wide::ratio(value, slope));
    }
    None
}

fn rises_from_below(value: Frac, slope: Frac) -> bool
    ensures rises { result ≡ (is_negative value && int_lt (pos 0) slope.num) }
    ensures value { IsReduced value }
    ensures slope { IsReduced slope }
{
    let (height, rise) = (value.num(), slope.num());
    height < 0 && rise > 0
}
