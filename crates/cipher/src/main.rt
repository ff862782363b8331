// Answers tests of the cipher: each line of standard input is a test, `KIND KEY START TEXT`, and gets a line of standard output,
// the result in hexadecimal digits or what is malformed. README.md lists the kinds. The quick engine ciphers, or with the argument
// `--plain` the plain one.
#![tactic(auto)]

mod answers;
mod arguments;
mod line;
mod malformed;
mod output;
mod test;

use answers::Answers;
use arguments::Asked;
use std::io::Read;
use tdes::Engine;

// Answers the tests on standard input; a read that fails ends it. A proved loop has to end: it counts its turns up to a number that no
// run reaches.
fn answer_all(rt: &(impl Input + Print), engine: Engine) {
    let mut input = rt.reader();
    let mut answers = Answers::new(rt, engine);
    let mut buffer = [0; 65536];
    for _ in 0..u64::MAX {
        let n = input.read(&mut buffer).unwrap_or(0);
        if n == 0 {
            break;
        }
        answers.take(&buffer[..n]);
    }
    answers.end();
}

fn main(rt: HostRuntime) {
    match arguments::read(&rt) {
        Some(Asked::Tests(engine)) => answer_all(&rt, engine),
        Some(Asked::Help) => arguments::help(&rt),
        None => arguments::refuse(&rt.stderr()),
    }
}
