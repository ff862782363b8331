// The arguments: none, `--plain` or `--help`.
use crate::output::write;
use std::env::{Env, FillError};
use tdes::Engine;

// What the arguments ask for: the tests on an engine, or the usage.
#[derive(Clone, Copy)]
pub enum Asked {
    Tests(Engine),
    Help,
}

// Whether there is an argument of this number.
fn is_given(rt: &impl Env, i: usize) -> bool {
    !matches!(rt.arg(i, &mut []), Err(FillError::NotPresent))
}

// What the program's arguments ask for; nothing where they are other ones, of which one may have no room.
pub fn read(rt: &impl Env) -> Option<Asked> {
    if !is_given(rt, 1) {
        return Some(Asked::Tests(Engine::Quick));
    }
    if is_given(rt, 2) {
        return None;
    }
    let mut word = [0; 4096];
    let length = rt.arg(1, &mut word).ok()?;
    match &word[..length] {
        b"--plain" => Some(Asked::Tests(Engine::Plain)),
        b"--help" => Some(Asked::Help),
        _ => None,
    }
}

// The usage, on standard output.
pub fn help(out: &impl Print) {
    write(out, b"usage: cipher [--plain]\n");
    write(
        out,
        b"Answers each line 'KIND KEY START TEXT' of standard input with a line; README.md lists the kinds.\n",
    );
    write(
        out,
        b"  --plain  by the plain engine, straight from FIPS 46-3, instead of the quick one; no answer changes\n",
    );
    write(out, b"  --help   prints this and does nothing else\n");
}

// Other arguments: what is wrong and what to do, on standard error.
pub fn refuse(errors: &impl Print) {
    write(
        errors,
        b"cipher: takes one argument at most, '--plain' or '--help': run 'cipher --help' for what they do\n",
    );
}
