// What follows from the laws alone, for every layout that keeps them.
ghost use Rattle.layout.specs.Meaning.{NoBitShared};

// No bit is shared by two sites.
pub fn no_bit_shared()
    ensures { NoBitShared }
{}
