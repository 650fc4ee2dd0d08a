// The values of the inputs.
ghost use Rattle.std.specs.Prelude.{◌≡◌, ◌<◌, length, map, Some};
ghost use Rattle.std.specs.List.{AllByRecursion};
ghost use Rattle.zl_value.specs.Stops.{set_by};
ghost use Rattle.zl_run.specs.Inputs.{set_all};

use zl_value::{Set, Value};

/// Gives the inputs the values of a script line. Of several sets of one input the first counts.
pub(crate) fn set_inputs(inputs: &mut [Value], sets: &[Set])
    requires { AllByRecursion (λ set. set.input < length inputs.old) sets.now }
    ensures { inputs.new ≡ set_all sets.now inputs.old }
{
    let mut k = sets.len();
    while k > 0 {
        k -= 1;
        inputs[sets[k].input as usize] = sets[k].value;
    }
}
