//! The generated source.
ghost use Rattle.std.specs.Prelude.{◌≡◌, ◌++◌, ◌+◌, IfOk, OnOk};
ghost use Rattle.jn_big.specs.Source.{first_family, family, families, print_line, print_lines, main_start, main_end, big_source};

use crate::{put, put_number};
use std::alloc::{AllocError, Global};

/// The bytes of the source for `n`: n + 1 families, each behind the first adapting the one before it, and `Main`, which
/// prints n + 1 lines.
#[tactic(auto, unfolding(crate::specs::Source::big_source))]
pub fn big(alloc: Global, n: u8) -> Result<Vec<u8>, AllocError>
    ensures { IfOk result (λ v. v.items ≡ big_source n) }
{
    let mut out = Vec::new(alloc);
    put_families(&mut out, n)?;
    put(&mut out, main_start())?;
    put_print_lines(&mut out, n)?;
    put(&mut out, main_end())?;
    Ok(out)
}

fn first_family() -> &'static [u8]
    ensures { result.now ≡ first_family }
{
    b"package f0 {
  class Node {
    int v;
    Node next;
    void Node(int a, Node b) { this.v = a; this.next = b; }
    int weight() { return this.v; }
    int total() { int t = this.weight(); if (this.next != null) { t = t + this.next.total(); } return t; }
  }
  class Make {
    Node chain(int k) { Node h = null; while (0 < k) { h = new Node(k, h); k = k - 1; } return h; }
  }
}
"
}

fn main_start() -> &'static [u8]
    ensures { result.now ≡ main_start }
{
    b"class Main {
  void main() {
    f0!.Node h = new f0.Make().chain(100);
    print(h.total());
"
}

fn main_end() -> &'static [u8]
    ensures { result.now ≡ main_end }
{
    b"  }
}
"
}

fn put_families(out: &mut Vec<u8>, n: u8) -> Result<(), AllocError>
    ensures { OnOk result (out.new.items ≡ out.old.items ++ families n) }
{
    put(out, first_family())?;
    for j in 0..n {
        put_family(out, j + 1, j)?;
    }
    Ok(())
}

fn put_family(out: &mut Vec<u8>, i: u8, j: u8) -> Result<(), AllocError>
    ensures { OnOk result (out.new.items ≡ out.old.items ++ family i j) }
{
    put(out, b"package f")?;
    put_number(out, i)?;
    put(out, b" extends f")?;
    put_number(out, j)?;
    put(out, b" adapts f")?;
    put_number(out, j)?;
    put(out, b" {\n  class Node { int weight() { return super[f")?;
    put_number(out, j)?;
    put(out, b".Node].weight() + 1; } }\n}\n")
}

fn put_print_lines(out: &mut Vec<u8>, n: u8) -> Result<(), AllocError>
    ensures { OnOk result (out.new.items ≡ out.old.items ++ print_lines n) }
{
    for j in 0..n {
        put_print_line(out, j + 1)?;
    }
    Ok(())
}

fn put_print_line(out: &mut Vec<u8>, i: u8) -> Result<(), AllocError>
    ensures { OnOk result (out.new.items ≡ out.old.items ++ print_line i) }
{
    put(out, b"    print(((view f")?;
    put_number(out, i)?;
    put(out, b"!.Node) h).total());\n")
}
