use jn_base::forms::{has_sharing, names_paths};
use jn_base::tree::{
    Decl, Field, Head, Kind, Member, Name, Named, Place, Program, Ref, Term, TypeTerm,
};
use sqlite_items::Items;
use std::alloc::{AllocError, Global};

fn named(number: u32) -> Named {
    let at = Place { line: 1, column: 1 };
    Named {
        name: Name(number),
        at,
    }
}

/// class N adapts .. { f.class g; }, with a field of a type that begins so
fn program(alloc: Global, head: Head, adapts: &[Named]) -> Result<Program, AllocError> {
    let mut terms = Items::new(alloc);
    terms.push(Term {
        head,
        exact: Items::new(alloc),
        names: Items::from_slice(alloc, &[Name(1)])?,
        at: named(0).at,
    })?;
    let mut members = Items::new(alloc);
    members.push(Member::Slot(Field {
        ty: TypeTerm::Class(terms, Items::new(alloc)),
        name: named(2),
    }))?;
    let mut decls = Items::new(alloc);
    decls.push(Decl {
        kind: Kind::Class,
        name: named(0),
        extends: Items::new(alloc),
        shares: Items::new(alloc),
        adapts: Items::from_slice(alloc, adapts)?,
        members,
    })?;
    Ok(Program {
        names: Items::new(alloc),
        texts: Items::new(alloc),
        decls,
    })
}

#[test]
fn finds_forms(rt: HostRuntime) -> Result<(), AllocError> {
    let own = program(rt.alloc(), Head::Own(Ref::This), &[])?;
    assert!(rt; !has_sharing(&own));
    assert!(rt; !names_paths(&own));
    let adapted = program(rt.alloc(), Head::Own(Ref::Var(Name(1))), &[named(1)])?;
    assert!(rt; has_sharing(&adapted));
    assert!(rt; names_paths(&adapted));
    Ok(())
}
