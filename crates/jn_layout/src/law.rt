ghost use Rattle.jn_layout.specs.LawsOfRows.{LaidOutIsFaultless};

/// No row has a fault in an image with the rows that were laid out, the shapes and kinds of the selectors, the groups,
/// and a code of its shape for each body.
pub fn rows_are_faultless()
    ensures { LaidOutIsFaultless }
{}
