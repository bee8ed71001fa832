// Worked figures of the layouts, under one fact.
#![tactic(auto)]

ghost use Rattle.figures.specs.Worked.{Worked};

// The definitions that the contracts cite give each worked figure.
pub fn figures_hold()
    ensures { Worked }
{}
