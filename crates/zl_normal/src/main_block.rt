ghost use Rattle.std.specs.Prelude.{◌≡◌, true, false};
ghost use Rattle.zl_normal.specs.MainBlock.{IsMain};

use zl_meaning::Flat;
use zl_meaning::laws::is_well_formed;

/// Whether a form has the main block alone.
#[tactic(auto, using(crate::proofs::MainForms::main_alone, crate::proofs::MainForms::one_block))]
pub fn has_main_alone(flat: &Flat) -> bool
    ensures main { result ≡ true → IsMain flat.now }
    ensures other { result ≡ false → IsMain flat.now → ⊥ }
{
    is_well_formed(flat);
    if flat.blocks.as_slice().len() != 1 {
        return false;
    }
    if flat.automata.as_slice().len() != 0 {
        return false;
    }
    true
}
