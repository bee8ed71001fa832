// What holds of all six types.
ghost use Rattle.formats.specs.Formats.{SlotsDisjoint};

// The runs of a group are disjoint, in each type and for each width of codes that it takes.
pub fn slots_disjoint()
    ensures { SlotsDisjoint }
{}
