// A line of a listing with origins: the line without, whose end moves on by one field.
ghost use Rattle.std.specs.Prelude.{◌≡◌, ◌+◌, ◌≤◌, length};
ghost use Rattle.text.specs.Put.{Put};
ghost use Rattle.writing.specs.Ordering.{origin_end, traced_text};

use super::line::write_line;
use expression::node::Expression;
use node_lines::{LF, TAB};
use origins::fields::write_origin;
use text::writing::write_byte;

// A line, with its end written over by the field and its own end.
pub fn write_traced(out: &mut [u8], at: usize, origin: u64, e: Expression) -> usize
    requires { at + length (traced_text origin e) ≤ length out.old }
    ensures { Put out.old at (traced_text origin e) result out.new }
{
    let plain = write_line(out, at, e);
    write_end(out, plain - 1, origin)
}

// The tab, the origin and the end of the line.
fn write_end(out: &mut [u8], at: usize, origin: u64) -> usize
    requires { at + length (origin_end origin) ≤ length out.old }
    ensures { Put out.old at (origin_end origin) result out.new }
{
    let p = write_byte(out, at, TAB);
    let q = write_origin(out, p, origin);
    write_byte(out, q, LF)
}
