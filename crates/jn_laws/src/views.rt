ghost use Rattle.jn_laws.specs.LawsOfViews.{ThisRooted, TypesGoByViews};

/// A type looks only at the views of the paths that it mentions.
pub fn types_go_by_views()
    ensures { TypesGoByViews }
{}

/// With the view of `this` put for it, an atom without other paths has the same classes.
pub fn this_rooted()
    ensures { ThisRooted }
{}
