// The program's arguments: switches, and behind them the files to run. They are judged from left to right, and all of them before any file
// is run.
ghost use Rattle.std.specs.Prelude.{◌≡◌};
ghost use Rattle.bench.specs.Arguments.{word_of, after_switches, after_files, after, nothing};

use std::env::{Env, FillError};
use tdes::Engine;

// What one argument is. Unknown: it starts with a dash and is no switch; no `None`, since it is a word that the definitions judge.
#[derive(Clone, Copy)]
pub enum Word {
    Plain,
    Help,
    Unknown,
    Name,
}

// The files from an argument on, by an engine.
#[derive(Clone, Copy)]
pub struct Order {
    pub engine: Engine,
    pub first: usize,
}

// What is asked for: standard input, as no file is named; the files; the usage; or nothing, as an argument is refused. A refusal is no
// `Err`: no plainer, as the usage is final too, and is no error.
#[derive(Clone, Copy)]
pub enum Asked {
    Input(Engine),
    Files(Order),
    Usage,
    Refused(usize),
}

impl Word {
    // What an argument's bytes are.
    #[tactic(auto, unfolding(crate::specs::Arguments::word_of, crate::specs::Arguments::dashed))]
    fn of(s: &[u8]) -> Word
        ensures { result ≡ word_of s.now }
    {
        match s {
            b"--plain" => Word::Plain,
            b"--help" => Word::Help,
            [b'-', ..] => Word::Unknown, // a dash leads it
            _ => Word::Name,
        }
    }

    // What is asked for with it behind switches alone, where its number is `at`.
    #[tactic(auto, unfolding(crate::specs::Arguments::after_switches))]
    fn after_switches(self, engine: Engine, at: usize) -> Asked
        ensures { result ≡ after_switches engine self at }
    {
        match self {
            Word::Plain => Asked::Input(Engine::Plain),
            Word::Help => Asked::Usage, // and nothing is run
            Word::Unknown => Asked::Refused(at),
            Word::Name => Asked::Files(Order { engine, first: at }),
        }
    }

    // What is asked for with it behind a file's name.
    #[tactic(auto, unfolding(crate::specs::Arguments::after_files))]
    fn after_files(self, order: Order, at: usize) -> Asked
        ensures { result ≡ after_files order self at }
    {
        match self {
            Word::Plain => Asked::Refused(at), // a switch holds for all files
            Word::Help => Asked::Usage,
            Word::Unknown => Asked::Refused(at), // and no file before it is run
            Word::Name => Asked::Files(order),
        }
    }
}

impl Asked {
    // What is asked for before the first argument.
    #[tactic(auto, unfolding(crate::specs::Arguments::nothing))]
    fn nothing() -> Asked
        ensures { result ≡ nothing }
    {
        Asked::Input(Engine::Quick)
    }

    // What is asked for with one argument more, the one of this number.
    #[tactic(auto, unfolding(crate::specs::Arguments::after))]
    fn after(self, word: Word, at: usize) -> Asked
        ensures { result ≡ after self word at }
    {
        match self {
            Asked::Input(engine) => word.after_switches(engine, at),
            Asked::Files(order) => word.after_files(order, at),
            Asked::Usage | Asked::Refused(_) => self,
        }
    }
}

// Whether there is an argument of this number. `cipher` has it too: the two programs share no crate above the cipher's.
fn is_given(rt: &impl Env, i: usize) -> bool {
    !matches!(rt.arg(i, &mut []), Err(FillError::NotPresent))
}

// How many arguments there are, the program's name among them.
pub fn count(rt: &impl Env) -> usize {
    (0..usize::MAX)
        .find(|i| !is_given(rt, *i))
        .unwrap_or(usize::MAX)
}

// The argument of a number. One that can't be read is refused as an unknown one is.
fn read_word(rt: &impl Env, i: usize) -> Word {
    let mut bytes = [0u8; 4096];
    match rt.arg(i, &mut bytes) {
        Ok(length) => Word::of(&bytes[..length]),
        Err(_) => Word::Unknown,
    }
}

// What the program's arguments ask for.
pub fn read(rt: &impl Env) -> Asked {
    (1..count(rt)).fold(
        Asked::nothing(),
        |asked, i| asked.after(read_word(rt, i), i),
    )
}

// Writes bytes, as `cipher` does. Where that fails, they are passed over.
fn write(out: &impl Print, bytes: &[u8]) {
    let _ = out.write_all(bytes);
}

// The usage, on standard output.
pub fn help(out: &impl Print) {
    write(out, b"usage: bench [--plain] [FILE..]\n");
    write(
        out,
        b"Runs each bench file, or without one standard input, on a card of its own; README.md lists frames and lines.\n",
    );
    write(
        out,
        b"  --plain  by the plain engine, straight from FIPS 46-3, instead of the quick one; no line changes\n",
    );
    write(out, b"  --help   prints this and does nothing else\n");
    write(
        out,
        b"Switches stand before the first file. A file whose name starts with a dash is given as ./NAME.\n",
    );
}

// An argument that is refused: which, and what to do, on standard error. Its number is printed, and none of its bytes.
pub fn refuse(errors: &impl Print, at: usize) {
    write(errors, b"bench: argument ");
    let _ = errors.print(at);
    write(
        errors,
        b" is no file's name and no switch before the first one: nothing is run; run 'bench --help'\n",
    );
}
