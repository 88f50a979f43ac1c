ghost use Rattle.std.specs.Prelude.{◌≡◌, [], ◌∷◌, map, IfOk, OnOk};
ghost use Rattle.jn_base.specs.Duplicates.{duplicates};
ghost use Rattle.jn_base.specs.Paths.{Path as APath};
ghost use Rattle.jn_agree.specs.Rows.{of_decl, bodies_of};
ghost use Rattle.jn_layout.specs.Shapes.{bodies_in, all_bodies};
ghost use Rattle.jn_link.specs.Codes.{LowersAll, AreLoweredFrom};

use jn_agree::selectors::Selectors;
use jn_base::names::Resolved;
use jn_base::tree::{Decl, Member, Method, Program};
use jn_code::Code;
use jn_lower::lower;
use jn_share::Slots;
use jn_table::Table;
use sqlite_items::{Items, at};
use std::alloc::{AllocError, Global};

/// What the bodies of a program are lowered by: its parts, and what is known of each body, in source order.
#[derive(Clone, Copy)]
pub struct Parts<'a> {
    pub alloc: Global,
    pub p: &'a Program,
    pub t: &'a Table,
    pub slots: &'a Slots,
    pub names: &'a Selectors,
    pub bodies: &'a [Resolved],
}

/// Adds the code of the next body. A body of which nothing is known is refused for want of memory: of each body of a
/// checked program something is.
fn lower_next(g: &Parts, m: &Method, out: &mut Items<Code>) -> Result<(), AllocError>
    requires { duplicates g.now.p.now ≡ [] }
    ensures { OnOk result ((R : APath) → LowersAll g.now (record { class = R; method = m.now } ∷ []) out.old out.new) }
{
    match at(g.bodies, out.len()) {
        None => Err(AllocError),
        Some(r) => {
            let code = lower(g.alloc, g.p, g.t, g.slots, m, r, g.names)?;
            out.push(code)
        }
    }
}

/// Adds the codes of the bodies in a member.
#[cycle(lowering)]
fn lower_member(g: &Parts, m: &Member, out: &mut Items<Code>) -> Result<(), AllocError>
    requires { duplicates g.now.p.now ≡ [] }
    ensures { OnOk result ((R : APath) → LowersAll g.now (bodies_in m.now R) out.old out.new) }
{
    match m {
        Member::Inner(d) => lower_decl(g, d, out),
        Member::Slot(_) => Ok(()),
        Member::Body(b) => lower_next(g, b, out),
    }
}

/// Adds the codes of the bodies in members.
#[cycle(lowering)]
fn lower_members(g: &Parts, members: &[Member], out: &mut Items<Code>) -> Result<(), AllocError>
    requires { duplicates g.now.p.now ≡ [] }
    ensures { OnOk result ((R : APath) → LowersAll g.now (all_bodies R (map bodies_in members.now)) out.old out.new) }
{
    for m in members {
        lower_member(g, m, out)?;
    }
    Ok(())
}

/// Adds the codes of the bodies in a declaration.
#[cycle(lowering)]
fn lower_decl(g: &Parts, d: &Decl, out: &mut Items<Code>) -> Result<(), AllocError>
    requires { duplicates g.now.p.now ≡ [] }
    ensures { OnOk result ((R : APath) → LowersAll g.now (of_decl d.now R) out.old out.new) }
{
    lower_members(g, d.members.as_slice(), out)
}

/// Adds the codes of the bodies in declarations.
fn lower_decls(g: &Parts, decls: &[Decl], out: &mut Items<Code>) -> Result<(), AllocError>
    requires { duplicates g.now.p.now ≡ [] }
    ensures { OnOk result ((R : APath) → LowersAll g.now (all_bodies R (map of_decl decls.now)) out.old out.new) }
{
    for d in decls {
        lower_decl(g, d, out)?;
    }
    Ok(())
}

/// The codes of the bodies of a program, in source order.
pub fn codes_of(g: &Parts) -> Result<Items<Code>, AllocError>
    requires { duplicates g.now.p.now ≡ [] }
    ensures { IfOk result (AreLoweredFrom g.now 0 (bodies_of g.now.p.now)) }
{
    let mut out = Items::new(g.alloc);
    lower_decls(g, g.p.decls.as_slice(), &mut out)?;
    Ok(out)
}
