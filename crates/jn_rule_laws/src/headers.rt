ghost use Rattle.jn_rule_laws.specs.LawsOfOneHeader.{HeadersAreOne, HeadersFit};

/// A body has one header at most.
pub fn headers_are_one()
    ensures { HeadersAreOne }
{}

/// The types of a header fit where they stand.
pub fn headers_fit()
    ensures { HeadersFit }
{}
