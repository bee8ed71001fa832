// What one call on a frame does, told by takes and by bits.
#![tactic(auto)]

ghost use Rattle.onewrite.specs.Laws.{LawsOfOneWrite};

// Over every layout that keeps the interface: after an accepted call a take answers the new code exactly where the call
// writes, and elsewhere what it answered before; fixed bits stay, or get their values; what is refused changes nothing.
pub fn one_write()
    ensures { LawsOfOneWrite }
{}
