//! The method of a case, and its variables.

ghost use Rattle.std.specs.Prelude.{◌<◌, IfSome, length};

use crate::reading::read_path;
use jn_base::path::Path;
use jn_base::tree::{Decl, Member, Method, Name, Param, Program, Stmt, TypeTerm};
use jn_names::{Role, Spot};
use sqlite_items::Items;
use std::alloc::{AllocError, Global};

/// Where the terms of a case stand: in the class, in a method of this name, with the variables of that method.
///
/// Where `written` is set, types are taken as they are written, and nothing of them is resolved: a term without `class`
/// begins at the root, and `P[p.class]` at the class of p without as many last names as P has.
#[derive(Drop)]
pub struct Setting<'a> {
    pub program: &'a Program,
    pub masks: &'a [Name],
    pub class: Path,
    pub owner: Name,
    pub method: &'a Method,
    pub variables: Vec<Variable<'a>>,
    pub written: bool,
}

/// A parameter, or a local of the outermost block.
#[derive(Clone, Copy)]
pub struct Variable<'a> {
    pub name: Name,
    pub fixed: bool,
    pub ty: &'a TypeTerm,
}

/// The setting of the method at a path, whose last name is the method's; in the class `class` where that is given.
pub fn setting_of<'a>(
    alloc: Global,
    program: &'a Program,
    masks: &'a [Name],
    method: &str,
    class: Option<&str>,
    written: bool,
) -> Result<Option<Setting<'a>>, AllocError> {
    let path = read_path(alloc, program.names.as_slice(), method)?;
    match method_at(program, path.names.as_slice()) {
        None => Ok(None),
        Some((decl, method)) => {
            let class = class_of(alloc, program, decl, class)?;
            let variables = variables_of(alloc, method)?;
            Ok(Some(Setting {
                program,
                masks,
                class,
                owner: method.name.name,
                method,
                variables,
                written,
            }))
        }
    }
}

/// The path of a method's declaration, and the method.
fn method_at<'a, 'b>(program: &'a Program, path: &'b [Name]) -> Option<(&'b [Name], &'a Method)> {
    let (owner, decl) = path.split_last()?;
    let found = decl_at(program.decls.as_slice(), decl)?;
    let method = method_in(found.members.as_slice(), *owner)?;
    Some((decl, method))
}

fn class_of(
    alloc: Global,
    program: &Program,
    decl: &[Name],
    class: Option<&str>,
) -> Result<Path, AllocError> {
    match class {
        Some(class) => read_path(alloc, program.names.as_slice(), class),
        None => path_of(alloc, decl),
    }
}

fn path_of(alloc: Global, names: &[Name]) -> Result<Path, AllocError> {
    let names = Items::from_slice(alloc, names)?;
    Ok(Path { names })
}

/// The first declaration at a path.
fn decl_at<'a>(decls: &'a [Decl], path: &[Name]) -> Option<&'a Decl> {
    let (first, rest) = match path.split_first() {
        None => return None,
        Some((first, rest)) => (*first, rest),
    };
    let mut decl = top_level(decls, first)?;
    for name in rest {
        decl = inner(decl.members.as_slice(), *name)?;
    }
    Some(decl)
}

fn top_level<'a>(decls: &'a [Decl], name: Name) -> Option<&'a Decl> {
    for decl in decls {
        if decl.name.name == name {
            return Some(decl);
        }
    }
    None
}

fn inner<'a>(members: &'a [Member], name: Name) -> Option<&'a Decl> {
    for member in members {
        if let Member::Inner(decl) = member {
            if decl.name.name == name {
                return Some(decl);
            }
        }
    }
    None
}

fn method_in<'a>(members: &'a [Member], name: Name) -> Option<&'a Method> {
    for member in members {
        if let Member::Body(method) = member {
            if method.name.name == name {
                return Some(method);
            }
        }
    }
    None
}

/// The parameters and then the locals of the outermost block.
fn variables_of<'a>(alloc: Global, method: &'a Method) -> Result<Vec<Variable<'a>>, AllocError> {
    let mut all = Vec::new(alloc);
    add_params(&mut all, method.params.as_slice())?;
    add_locals(&mut all, method.body.as_slice())?;
    Ok(all)
}

fn add_params<'a>(all: &mut Vec<Variable<'a>>, params: &'a [Param]) -> Result<(), AllocError> {
    for param in params {
        all.push(Variable {
            name: param.name.name,
            fixed: param.fixed,
            ty: &param.ty,
        })?;
    }
    Ok(())
}

fn add_locals<'a>(all: &mut Vec<Variable<'a>>, body: &'a [Stmt]) -> Result<(), AllocError> {
    for stmt in body {
        if let Stmt::Local(fixed, ty, name, _) = stmt {
            all.push(Variable {
                name: name.name,
                fixed: *fixed,
                ty,
            })?;
        }
    }
    Ok(())
}

/// The place of the newest variable of a name.
pub fn newest(variables: &[Variable<'_>], name: Name) -> Option<usize>
    ensures { IfSome result (λ i. i < length variables.now) }
{
    for i in 0..variables.len() {
        let at = variables.len() - 1 - i;
        if variables[at].name == name {
            return Some(at);
        }
    }
    None
}

/// The spot of a term of the method, for a use.
pub fn spot_of(alloc: Global, setting: &Setting<'_>, role: Role) -> Result<Spot, AllocError> {
    Ok(Spot {
        class: path_of(alloc, setting.class.names.as_slice())?,
        owner: setting.owner,
        role,
    })
}
