ghost use Rattle.std.specs.Prelude.{◌≡◌, [], ◌∷◌, reverse, option_copied, Contains, IfSome};
ghost use Rattle.jn_base.specs.Paths.{nested};
ghost use Rattle.jn_base.specs.Duplicates.{duplicates};
ghost use Rattle.jn_base.specs.Members.{IsHome};
ghost use Rattle.jn_homes.specs.Homes.{Finds, HomeIs, DeclIs, OnWay};

use jn_base::path::Path;
use jn_base::tree::{Decl, Member, Name, Place, Program};

/// The home of a path: the place of the name in the declaration of its longest declared front. A path
/// whose first name isn't declared has none.
///
/// It is told of a program in which no name stands twice, so that a path has one declaration at most.
pub fn home_of(p: &Program, path: &Path) -> Option<Place>
    ensures { duplicates p.now ≡ [] → HomeIs p.now (reverse path.now.names) result }
{
    home_near(p, path, &[])
}

/// The same, where each declaration is looked for first where it is expected, as in `decl_near`.
pub fn home_near(p: &Program, path: &Path, way: &[usize]) -> Option<Place>
    ensures { duplicates p.now ≡ [] → HomeIs p.now (reverse path.now.names) result }
{
    match path.names.as_slice() {
        [] => None,
        [top, inner @ ..] => match top_near(p.decls.as_slice(), *top, way.get(0)) {
            Some(decl) => Some(go_down(p, path, decl, inner, way)),
            None => None,
        },
    }
}

/// From the declaration of a front of the path by the names that are left, as far as they are declared.
fn go_down(p: &Program, path: &Path, top: &Decl, left: &[Name], way: &[usize]) -> Place
    requires { OnWay p.now (reverse path.now.names) top.now left.now }
    ensures { duplicates p.now ≡ [] → IsHome p.now (reverse path.now.names) result }
{
    let mut decl = top;
    for (level, name) in left.iter().enumerate() {
        match member_near(decl.members.as_slice(), *name, way.get(level + 1)) {
            Some(next) => decl = next,
            None => return decl.name.at,
        }
    }
    decl.name.at
}

/// The declaration at a path. A path that isn't declared has none.
///
/// No name stands twice in the program, so that a path has one declaration at most.
pub fn decl_at<'a>(p: &'a Program, path: &Path) -> Option<&'a Decl>
    requires { duplicates p.now ≡ [] }
    ensures { DeclIs p.now (reverse path.now.names) (option_copied result) }
{
    decl_near(p, path, &[])
}

/// The same, which is looked for first where it is expected. The way has the places of the declarations of the path's
/// names from the outermost on, each in the list in which it stands. Where another stands there, or the way is too
/// short, the list is searched; so a wrong way costs time alone.
pub fn decl_near<'a>(p: &'a Program, path: &Path, way: &[usize]) -> Option<&'a Decl>
    requires { duplicates p.now ≡ [] }
    ensures { DeclIs p.now (reverse path.now.names) (option_copied result) }
{
    match path.names.as_slice() {
        [] => None,
        [top, inner @ ..] => match top_near(p.decls.as_slice(), *top, way.get(0)) {
            Some(decl) => inner_near(p, path, decl, inner, way),
            None => None,
        },
    }
}

/// From the declaration of a front of the path by all the names that are left.
fn inner_near<'a>(
    p: &'a Program,
    path: &Path,
    top: &'a Decl,
    left: &[Name],
    way: &[usize],
) -> Option<&'a Decl>
    requires once { duplicates p.now ≡ [] }
    requires way { OnWay p.now (reverse path.now.names) top.now left.now }
    ensures { DeclIs p.now (reverse path.now.names) (option_copied result) }
{
    let mut decl = top;
    for (level, name) in left.iter().enumerate() {
        match member_near(decl.members.as_slice(), *name, way.get(level + 1)) {
            Some(next) => decl = next,
            None => return None,
        }
    }
    Some(decl)
}

/// The declaration of this name, looked for first at the place.
fn top_near<'a>(decls: &'a [Decl], name: Name, place: Option<&usize>) -> Option<&'a Decl>
    ensures { Finds decls.now name (option_copied result) }
{
    match top_here(decls, name, place) {
        Some(d) => Some(d),
        None => find_decl(decls, name),
    }
}

/// The declaration at the place, where it has this name.
fn top_here<'a>(decls: &'a [Decl], name: Name, place: Option<&usize>) -> Option<&'a Decl>
    ensures { IfSome (option_copied result) (λ d. Contains decls.now d × (d.name.name ≡ name)) }
{
    match decls.get(*place?) {
        None => None,
        Some(d) => {
            if d.name.name.0 == name.0 {
                Some(d)
            } else {
                None
            }
        }
    }
}

/// The nested declaration of this name, looked for first at the place.
fn member_near<'a>(members: &'a [Member], name: Name, place: Option<&usize>) -> Option<&'a Decl>
    ensures { Finds (nested members.now) name (option_copied result) }
{
    match member_here(members, name, place) {
        Some(d) => Some(d),
        None => find_inner(members, name),
    }
}

/// The member at the place, where it is a declaration of this name.
fn member_here<'a>(members: &'a [Member], name: Name, place: Option<&usize>) -> Option<&'a Decl>
    ensures { IfSome (option_copied result) (λ d. Contains (nested members.now) d × (d.name.name ≡ name)) }
{
    match members.get(*place?) {
        None => None,
        Some(m) => inner_named(m, name),
    }
}

/// The first declaration of this name.
fn find_decl(decls: &[Decl], name: Name) -> Option<&Decl>
    ensures { Finds decls.now name (option_copied result) }
{
    for d in decls {
        if d.name.name.0 == name.0 {
            return Some(d);
        }
    }
    None
}

/// The first nested declaration of this name.
fn find_inner(members: &[Member], name: Name) -> Option<&Decl>
    ensures { Finds (nested members.now) name (option_copied result) }
{
    for m in members {
        if let Some(d) = inner_named(m, name) {
            return Some(d);
        }
    }
    None
}

/// The member, where it is a declaration of this name.
fn inner_named(m: &Member, name: Name) -> Option<&Decl>
    ensures { Finds (nested (m.now ∷ [])) name (option_copied result) }
{
    match m {
        Member::Inner(d) => {
            if d.name.name.0 == name.0 {
                Some(d)
            } else {
                None
            }
        }
        Member::Slot(_) => None,
        Member::Body(_) => None,
    }
}
