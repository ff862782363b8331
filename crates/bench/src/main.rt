// The bench: runs the bench files that its arguments name, or the one that comes from standard input, and writes their lines to standard
// output. What can't be opened, read or written is named on standard error. The quick engine ciphers, or with the switch `--plain` the
// plain one.
#![tactic(auto)]

mod arguments;
mod failure;
mod input;
mod stream;

use arguments::Asked;
use failure::fail;
use std::env::{Env, FillError};
use std::io::ErrorKind;
use std::rt::Files;
use std::{fs, io, str};
use tdes::Engine;

// Opens a file for reading. A name that is no UTF-8 can't be opened.
fn open<R: Files>(rt: &R, path: &[u8]) -> io::Result<R::File> {
    match str::from_utf8(path) {
        Ok(name) => fs::open(rt, name),
        Err(_) => Err(io::Error::new(ErrorKind::InvalidFilename, "the file's name is no UTF-8")),
    }
}

// Where arguments and files come from and lines go, where errors are named, and the engine that ciphers.
#[derive(Drop)]
struct Program<'a, R, E> {
    rt: &'a R,
    errors: &'a E,
    engine: Engine,
}

impl<R: Files + Env + Print, E: Print> Program<'_, R, E> {
    // The file of a name.
    fn run_path(&self, path: &[u8]) {
        match open(self.rt, path) {
            Ok(mut file) => stream::run(self.rt, self.errors, self.engine, &mut file, path),
            Err(error) => fail(self.errors, path, error),
        }
    }

    // The file that an argument names.
    fn run_named(&self, i: usize) {
        let mut path = [0u8; 4096];
        match self.rt.arg(i, &mut path) {
            Ok(length) => self.run_path(&path[..length]),
            Err(FillError::TooLong) => {
                fail(self.errors, b"argument", io::Error::from_raw_os_error(36)) // ENAMETOOLONG
            }
            Err(FillError::NotPresent) => {
                fail(self.errors, b"argument", io::Error::from_raw_os_error(22)) // EINVAL
            }
        }
    }

    // The files from the first one on.
    fn run_files(&self, first: usize) {
        for i in first..arguments::count(self.rt) {
            self.run_named(i);
        }
    }
}

fn main(rt: HostRuntime) {
    let errors = rt.stderr();
    match arguments::read(&rt) {
        Asked::Input(engine) => {
            stream::run(&rt, &errors, engine, &mut rt.reader(), b"standard input")
        }
        Asked::Files(order) => Program {
            rt: &rt,
            errors: &errors,
            engine: order.engine,
        }
        .run_files(order.first),
        Asked::Usage => arguments::help(&rt),
        Asked::Refused(at) => arguments::refuse(&errors, at),
    }
}
