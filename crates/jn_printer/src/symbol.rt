// What the grammar asks for at the place of an operand.

ghost use Rattle.std.specs.Prelude.{◌≡◌};
ghost use Rattle.jn_printer.specs.ExprText.{tightness, is_instance, chain_symbol, operand_symbol, symbol_of};

use jn_base::tree::{Level, Node};

/// The symbols of the grammar that are expressions, from the loosest to the tightest.
#[derive(Clone, Copy)]
pub enum Symbol {
    Expression,
    Conjunction,
    Equality,
    Comparison,
    Sum,
    Product,
    Unary,
    Post,
    Prim,
}

fn tightness(symbol: Symbol) -> u8
    ensures { result ≡ tightness symbol }
{
    match symbol {
        Symbol::Expression => 0,
        Symbol::Conjunction => 1,
        Symbol::Equality => 2,
        Symbol::Comparison => 3,
        Symbol::Sum => 4,
        Symbol::Product => 5,
        Symbol::Unary => 6,
        Symbol::Post => 7,
        Symbol::Prim => 8,
    }
}

/// Whether an instance of the one symbol is an instance of the other.
pub fn is_instance(own: Symbol, asked: Symbol) -> bool
    ensures { result ≡ is_instance own asked }
{
    tightness(asked) <= tightness(own)
}

/// The symbol of a chain of the level.
pub fn chain_symbol(level: Level) -> Symbol
    ensures { result ≡ chain_symbol level }
{
    match level {
        Level::Or => Symbol::Expression,
        Level::And => Symbol::Conjunction,
        Level::Equal => Symbol::Equality,
        Level::Compare => Symbol::Comparison,
        Level::Sum => Symbol::Sum,
        Level::Product => Symbol::Product,
    }
}

/// The symbol that the grammar asks for at each operand of a chain of the level.
pub fn operand_symbol(level: Level) -> Symbol
    ensures { result ≡ operand_symbol level }
{
    match level {
        Level::Or => Symbol::Conjunction,
        Level::And => Symbol::Equality,
        Level::Equal => Symbol::Comparison,
        Level::Compare => Symbol::Sum,
        Level::Sum => Symbol::Product,
        Level::Product => Symbol::Unary,
    }
}

/// The tightest symbol of which an expression of this form is an instance.
pub fn symbol_of(node: &Node) -> Symbol
    ensures { result ≡ symbol_of node.now }
{
    match node {
        Node::Int(_) | Node::Bool(_) | Node::Null | Node::This | Node::Var(_) => Symbol::Prim,
        Node::New(_, _) | Node::Super(_, _, _) => Symbol::Prim,
        Node::Post(_, _) => Symbol::Post,
        Node::Not(_) | Node::Neg(_) | Node::View(_, _) => Symbol::Unary,
        Node::Chain(level, _, _) => chain_symbol(*level),
    }
}
