//! Lists of kinds that share their tails.
ghost use Rattle.std.specs.Prelude.{◌≡◌, ◌<◌, ◌≤◌, ◌^◌, [], ◌∷◌, ◌++◌, IfOk, OnOk, OnErr, length};
ghost use Rattle.jn_code.specs.Rows.{kind_eq};
ghost use Rattle.jn_code.specs.Valid.{kinds_eq};
ghost use Rattle.jn_verify.specs.Tails.{list_at, IsLatest};

use jn_code::OperandKind;
use std::alloc::{AllocError, Global};
use std::marker::Model;

pub fn kind_eq(a: OperandKind, b: OperandKind) -> bool
    ensures { result ≡ kind_eq a b }
{
    match a {
        OperandKind::Int => matches!(b, OperandKind::Int),
        OperandKind::Bool => matches!(b, OperandKind::Bool),
        OperandKind::Reference => matches!(b, OperandKind::Reference),
        OperandKind::Class => matches!(b, OperandKind::Class),
    }
}

/// A kind before a list, which is told by its number.
#[derive(Clone, Copy)]
struct Node {
    kind: OperandKind,
    below: u32,
    height: u32,
}

/// Lists of kinds, the latest first, each with a number. Number 0 is the empty list. Contracts see the lists in the
/// order of their numbers. A longer list costs one node more than the one that it is made of.
#[derive(Drop)]
pub struct Tails {
    nodes: Vec<Node>,
}

impl Model for Tails {
    ghost use Rattle.std.specs.Prelude.{List};
    ghost use Rattle.jn_code.specs.declared.kind.OperandKind.{OperandKind};
    ghost use Rattle.jn_verify.specs.Shared.{lists_of, AreNodes};

    ghost Value = { List (List OperandKind) };

    ghost view = { λ t. lists_of t.nodes.items };

    ghost invariant = { λ t. AreNodes t.nodes.items };
}

impl Tails {
    pub fn new(alloc: Global) -> Tails
        ensures { result ≡ [] ∷ [] }
    {
        Tails {
            nodes: Vec::new(alloc),
        }
    }

    /// The number of the empty list.
    pub fn none(&self) -> u32
        ensures empty { list_at self.now result ≡ [] }
        ensures there { result < length self.now }
    {
        let _nodes = &self.nodes;
        0
    }

    /// The latest kind, and the number of those before it.
    pub fn latest(&self, n: u32) -> Option<(OperandKind, u32)>
        requires { n < length self.now }
        ensures { IsLatest self.now n result }
    {
        let nodes = &self.nodes;
        if n == 0 {
            return None;
        }
        let node = nodes[n as usize - 1];
        Some((node.kind, node.below))
    }

    pub fn height(&self, n: u32) -> usize
        requires { n < length self.now }
        ensures length { result ≡ length (list_at self.now n) }
        ensures low { result ≤ n }
    {
        let nodes = &self.nodes;
        if n == 0 {
            return 0;
        }
        let node = nodes[n as usize - 1];
        node.height as usize
    }

    /// The list with this kind before list n. It comes behind the others.
    pub fn push(&mut self, n: u32, kind: OperandKind) -> Result<u32, AllocError>
        requires there { n < length self.old }
        requires few { length self.old < 2 ^ 32 }
        ensures number { IfOk result (λ m. m ≡ length self.old) }
        ensures pushed { OnOk result (self.new ≡ self.old ++ (kind ∷ list_at self.old n) ∷ []) }
        ensures as_before { OnErr result (self.new ≡ self.old) }
    {
        let node = Node {
            kind,
            below: n,
            height: self.height(n) as u32 + 1,
        };
        self.nodes.push(node)?;
        Ok(self.nodes.len() as u32)
    }

    /// From the latest on, until the tails are the same one.
    pub fn same(&self, a: u32, b: u32) -> bool
        requires a { a < length self.now }
        requires b { b < length self.now }
        ensures { result ≡ kinds_eq (list_at self.now a) (list_at self.now b) }
    {
        let mut m = a;
        let mut n = b;
        while m != n {
            let Some((j, below_m)) = self.latest(m) else {
                return self.height(n) == 0;
            };
            let Some((k, below_n)) = self.latest(n) else {
                return false;
            };
            if !kind_eq(j, k) {
                return false;
            }
            m = below_m;
            n = below_n;
        }
        true
    }
}
