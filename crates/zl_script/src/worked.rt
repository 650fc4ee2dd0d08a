//! Worked texts, as functions without a body: their contracts say what each of them is.
ghost use Rattle.zl_script.specs.Worked.{Comment, Lines, NoHorizon, Steps, OutOfOrder, Sets, Misset, NoAssignment, NotGiven, Earlier};

pub fn texts_without_inputs()
    ensures comment { Comment }
    ensures lines { Lines }
    ensures horizon { NoHorizon }
    ensures steps { Steps }
    ensures order { OutOfOrder }
{}

pub fn texts_with_inputs()
    ensures sets { Sets }
    ensures misset { Misset }
    ensures words { NoAssignment }
    ensures given { NotGiven }
    ensures earlier { Earlier }
{}
