// What is read of a node, whatever the rows hold.
ghost use Rattle.std.specs.Prelude.{◌≡◌};
ghost use Rattle.expression.specs.Nodes.{operands_of};
ghost use Rattle.store.specs.Nodes.{expression_of};
ghost use Rattle.store.specs.Memory.{memory, fields_at, size_at, depth_at, origin_at, class_at, expression_at};

use super::fields::{class_in, code_in, depth_in, size_in};
use super::node::{Fields, expression_of};
use super::words::{first_at, link_at, second_at, tag_at};
use expression::node::{Expression, Operands};
use origins::words::origin_in;

pub fn fields_at(store: &[[u64; 4]], i: usize) -> Fields
    ensures { result ≡ fields_at (memory store.now) i }
{
    Fields {
        code: code_in(tag_at(store, i)),
        first: first_at(store, i),
        second: second_at(store, i),
    }
}

// Kind, operator, operands, variable, region and index, number: the node as an expression.
pub fn expression_at(store: &[[u64; 4]], i: usize) -> Expression
    ensures { result ≡ expression_at (memory store.now) i }
{
    expression_of(fields_at(store, i))
}

// The operands of a node, by its kind alone: no expression is made of it.
pub fn operands_at(store: &[[u64; 4]], i: usize) -> Operands
    ensures { result ≡ operands_of (expression_at (memory store.now) i) }
{
    operands_in(fields_at(store, i))
}

fn operands_in(f: Fields) -> Operands
    ensures { result ≡ operands_of (expression_of f) }
{
    let kind = f.code % 8;
    let left = f.first as usize;
    let right = f.second as usize;
    match kind {
        1 => Operands::Nothing,
        2 => Operands::Nothing,
        3 => Operands::Nothing,
        4 => Operands::Nothing,
        5 => Operands::One(left),
        6 => Operands::One(left),
        _ => Operands::Two(left, right),
    }
}

pub fn size_at(store: &[[u64; 4]], i: usize) -> u64
    ensures { result ≡ size_at (memory store.now) i }
{
    size_in(tag_at(store, i))
}

pub fn depth_at(store: &[[u64; 4]], i: usize) -> u64
    ensures { result ≡ depth_at (memory store.now) i }
{
    depth_in(tag_at(store, i))
}

// The number of the line that a node came from, plus one; 0 says none.
pub fn origin_at(store: &[[u64; 4]], i: usize) -> u64
    ensures { result ≡ origin_at (memory store.now) i }
{
    origin_in(tag_at(store, i))
}

// Equal trees have one class: the number of the first of them.
pub fn class_at(store: &[[u64; 4]], i: usize) -> u64
    ensures { result ≡ class_at (memory store.now) i }
{
    class_in(link_at(store, i))
}
