// What is written of a node: where it stands, and all that is read of it.
use expression::node::Expression;
use replay::say::{count, word};
use replay::slices::part;
use store::reading::{class_at, depth_at, expression_at, size_at};
use writing::line::{line_length, write_line};

pub fn added(rt: &impl Print, at: usize, nodes: usize, calls: u64) {
    word(rt, b"node");
    count(rt, at as u64);
    count(rt, nodes as u64);
    count(rt, calls);
}

pub fn read(rt: &impl Print, store: &[[u64; 4]], at: usize) {
    count(rt, size_at(store, at));
    count(rt, depth_at(store, at));
    count(rt, class_at(store, at));
    line(rt, expression_at(store, at));
}

// The node as the line of a listing, which ends the line.
fn line(rt: &impl Print, e: Expression) {
    let mut paper = [0u8; 64];
    let length = line_length(e);
    write_line(&mut paper, 0, e);
    let n = part(&paper, length);
    word(rt, b"\t");
    word(rt, &paper[..n]);
}
