ghost use Rattle.std.specs.Prelude.{List, IfSome, IfOk};
ghost use Rattle.jn_rules.specs.Plans.{Mark};
ghost use Rattle.jn_rules.specs.Resolved.{AreSorted};
ghost use Rattle.jn_lower.specs.Cursors.{Ahead, TermTaken, TermsTaken, VarTaken, MemberTaken, KindTaken};

use jn_base::names::Resolved;
use jn_base::path::Path;
use jn_base::types::{Atom, ValKind};
use std::alloc::AllocError;

/// The marks of a checked body that are left: each sort in its order.
#[derive(Drop)]
pub struct Marks<'a> {
    pub terms: &'a [Atom],
    pub vars: &'a [u8],
    pub members: &'a [Path],
    pub kinds: &'a [ValKind],
}

impl<'a> Marks<'a> {
    /// All marks of a body.
    pub fn of(r: &'a Resolved) -> Marks<'a>
        ensures { (ms : List Mark) → AreSorted ms r.now → Ahead ms result }
    {
        Marks {
            terms: r.terms.as_slice(),
            vars: r.vars.as_slice(),
            members: r.members.as_slice(),
            kinds: r.kinds.as_slice(),
        }
    }

    /// The atom of the next term.
    pub fn next_term(&mut self) -> Option<&'a Atom>
        ensures { IfSome result (λ a. TermTaken a.now self.old self.new) }
    {
        match self.terms {
            [] => None,
            [first, rest @ ..] => {
                self.terms = rest;
                Some(first)
            }
        }
    }

    /// The atoms of the next terms, of so many. Where there are fewer, which never is, it is refused for want of memory.
    pub fn next_terms(&mut self, k: usize) -> Result<&'a [Atom], AllocError>
        ensures { IfOk result (λ xs. TermsTaken k xs.now self.old self.new) }
    {
        if k > self.terms.len() {
            return Err(AllocError);
        }
        let front = &self.terms[..k];
        self.terms = &self.terms[k..];
        Ok(front)
    }

    /// The number of the next variable.
    pub fn next_var(&mut self) -> Option<u8>
        ensures { IfSome result (λ q. VarTaken q self.old self.new) }
    {
        match self.vars {
            [] => None,
            [first, rest @ ..] => {
                self.vars = rest;
                Some(*first)
            }
        }
    }

    /// The class that declares the next member.
    pub fn next_member(&mut self) -> Option<&'a Path>
        ensures { IfSome result (λ R. MemberTaken R.now self.old self.new) }
    {
        match self.members {
            [] => None,
            [first, rest @ ..] => {
                self.members = rest;
                Some(first)
            }
        }
    }

    /// The kind of the next value.
    pub fn next_kind(&mut self) -> Option<ValKind>
        ensures { IfSome result (λ k. KindTaken k self.old self.new) }
    {
        match self.kinds {
            [] => None,
            [first, rest @ ..] => {
                self.kinds = rest;
                Some(*first)
            }
        }
    }
}
