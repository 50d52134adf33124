// A case of a value sheet: it is read, and the lines after it ask for what it says.
use super::say::{double, refused_text};
use super::texts;
use super::texts::next;
use complex::Complex;
use complex::bits::from_bits;
use expression::refusal::Operation;
use memory::layout::TABLE_WORDS;
use replay::line::Line;
use replay::lists::List;
use replay::say::{count, word};
use sheet::{Counts, cell, function_row, read_sheet, variable};

pub fn run(rt: &impl Print, list: &mut List, line: Line, table: &mut [u64; TABLE_WORDS]) {
    let mut text = [0u8; 81920];
    let n = texts::read(list, line, &mut text);
    match read_sheet(&text[..n], table) {
        Ok(counts) => {
            say_read(rt, counts);
            look_up(rt, list, line.fields[4], table, counts);
        }
        Err(why) => refused_text(rt, why),
    }
}

fn say_read(rt: &impl Print, counts: Counts) {
    word(rt, b"read");
    count(rt, counts.variables as u64);
    count(rt, counts.cells as u64);
    count(rt, counts.functions as u64);
    word(rt, b"\n");
}

// Answers the lines that ask for values.
fn look_up(rt: &impl Print, list: &mut List, asked: u64, table: &[u64], counts: Counts) {
    for _ in 0..asked {
        say_found(rt, found(table, counts, next(list)));
    }
}

fn found(table: &[u64], counts: Counts, line: Line) -> Option<Complex> {
    let mark = line.mark;
    let a = line.fields[1];
    let b = line.fields[2];
    match mark {
        b'v' => variable(table, counts, (a % 65536) as u16),
        b'm' => cell(table, counts, (a % 65536) as u16, (b % 4294967296) as u32),
        _ => value_in(function_row(
            table,
            counts,
            operation_of(mark),
            Complex {
                re: from_bits(a),
                im: from_bits(b),
            },
            Complex {
                re: from_bits(line.fields[3]),
                im: from_bits(line.fields[4]),
            },
        )),
    }
}

fn value_in(row: Option<(usize, Complex)>) -> Option<Complex> {
    let (_, z) = row?;
    Some(z)
}

fn operation_of(mark: u8) -> Operation {
    match mark {
        b'1' => Operation::Sine,
        b'2' => Operation::Cosine,
        b'3' => Operation::Exponent,
        b'4' => Operation::SquareRoot,
        _ => Operation::Power,
    }
}

fn say_found(rt: &impl Print, answer: Option<Complex>) {
    match answer {
        Some(z) => {
            word(rt, b"value");
            double(rt, z.re);
            double(rt, z.im);
            word(rt, b"\n");
        }
        None => word(rt, b"nothing\n"),
    }
}
