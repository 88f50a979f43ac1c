//! The source of a case.

use jn_cases::{Case, CasesFault, bytes_of};
use std::alloc::{AllocError, Global};

/// The family of expressions, with a heir that shares its classes, a heir that doesn't, and one of both.
const FAMILY: [&str; 16] = [
    "package base {",
    "  class Exp { int eval() { return 0; } }",
    "  class Lit extends Exp { int v; void Lit(int a) { this.v = a; } int eval() { return this.v; } }",
    "  class Add extends Exp { Exp l; Exp r;",
    "    void Add(Exp a, Exp b) { this.l = a; this.r = b; }",
    "    int eval() { return this.l.eval() + this.r.eval(); } }",
    "  class Make { Exp two(int a, int b) { return new Add(new Lit(a), new Lit(b)); } }",
    "}",
    "package shower extends base adapts base {",
    "  class Exp { void show() { print(0); } }",
    "  class Lit { void show() { print(this.v); } }",
    "  class Add { void show() { this.l.show(); this.r.show(); } }",
    "}",
    "package doubler extends base { class Lit { int eval() { return 2 * this.v; } } }",
    "package both extends shower & doubler { }",
    "",
];

fn put_family(source: &mut Vec<u8>) -> Result<(), AllocError> {
    for line in FAMILY {
        source.extend_from_slice(line.as_bytes())?;
        source.push(10)?;
    }
    Ok(())
}

/// The source of a case, behind the family where the case asks for it.
pub fn source_of(alloc: Global, case: &Case) -> Result<Vec<u8>, CasesFault> {
    let mut source = Vec::new(alloc);
    if case.is_set("family") {
        put_family(&mut source)?;
    }
    if let Some(own) = bytes_of(alloc, case, "source")? {
        source.extend_from_slice(own.as_slice())?;
    }
    Ok(source)
}
