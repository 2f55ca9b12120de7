ghost use Rattle.hierfile.specs.Laws.{HierarchiesHaveOneSpelling, SpellingsHaveNoFault, FaultlessBytesAreSpellings};

/// Two well made hierarchies of one spelling are the same, also in their version.
pub fn hierarchies_have_one_spelling()
    ensures { HierarchiesHaveOneSpelling }
{}

/// The spelling of a well made hierarchy has no fault, so `read` never finds one in it.
pub fn spellings_have_no_fault()
    ensures { SpellingsHaveNoFault }
{}

/// Bytes without a fault spell a well made hierarchy, so no fault is missing.
pub fn faultless_bytes_are_spellings()
    ensures { FaultlessBytesAreSpellings }
{}
