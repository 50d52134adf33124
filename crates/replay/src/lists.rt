// The lists of cases that a program's arguments name: one is opened, gone through, and ended with what came of it.
ghost use Rattle.io.specs.Counts.{IsPrefixLen};

use super::say;
use opening::say_unopened;
use std::env::FillError;
use std::fs::File;
use std::io;
use std::io::Read;
use std::rt::Env;

// More cases than any list has.
pub const MOST: u64 = 1_000_000;

// As long as a path can be.
const PATH: usize = 4096;

// A list that is gone through once. One that could not be opened has no line.
#[derive(Drop)]
pub struct List {
    file: Option<File>,
}

impl Read for List {
    fn read(&mut self, buf: &mut [u8]) -> io::Result<usize> {
        match &mut self.file {
            Some(file) => file.read(buf),
            None => Ok(0),
        }
    }
}

// Whether there is an argument k.
pub fn is_named(rt: &impl Env, k: usize) -> bool {
    match rt.arg(k, &mut []) {
        Err(FillError::NotPresent) => false,
        _ => true,
    }
}

// Puts argument k at the start of a slice, and answers how long it is: 0 where it is missing or has no place there.
fn name_of(rt: &impl Env, k: usize, path: &mut [u8]) -> usize
    ensures { IsPrefixLen result path.new }
{
    match rt.arg(k, path) {
        Ok(n) => n,
        Err(_) => 0,
    }
}

// Opens the list that argument k names. Says why if it cannot: the list has no line then.
pub fn open(rt: &HostRuntime, k: usize) -> List {
    let mut path = [0u8; PATH];
    let n = name_of(rt, k, &mut path);
    match opening::open(rt, &path[..n]) {
        Ok(file) => List { file: Some(file) },
        Err(error) => {
            say_unopened(&rt.stderr(), &path[..n], &error);
            List { file: None }
        }
    }
}

// Says how many cases the list of argument k had and how many of them are wrong.
pub fn end(rt: &(impl Print + Env), k: usize, cases: u64, wrong: u64) {
    let mut path = [0u8; PATH];
    let n = name_of(rt, k, &mut path);
    say::word(rt, &path[..n]);
    say::word(rt, b": ");
    say::decimal(rt, cases);
    say::word(rt, b" cases, ");
    say::decimal(rt, wrong);
    say::word(rt, b" wrong\n");
}
