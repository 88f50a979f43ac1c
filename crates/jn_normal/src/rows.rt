ghost use Rattle.jn_normal.specs.Rows.{Rows};

/// Rows of normal forms and of substitution in a scope that fits.
pub fn rows_of_normal_forms()
    ensures { Rows }
{}
