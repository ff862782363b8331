// The answers to the lines of the input, which comes in pieces of any size.
use crate::line::Line;
use crate::malformed::Malformed;
use crate::output::{print_digits, write};
use crate::test::{ROOM, Test};
use tdes::Engine;

// Where the answers go, the engine that ciphers, and the line that has begun.
#[derive(Drop)]
pub struct Answers<'a, P: Print> {
    out: &'a P,
    engine: Engine,
    line: Line,
}

impl<'a, P: Print> Answers<'a, P> {
    // Nothing has come yet.
    pub fn new(out: &'a P, engine: Engine) -> Answers<'a, P> {
        Answers {
            out,
            engine,
            line: Line::new(),
        }
    }

    // Takes the next bytes of the input. A line feed has the line answered.
    pub fn take(&mut self, bytes: &[u8]) {
        for (feeds, piece) in bytes.split(|byte| *byte == b'\n').enumerate() {
            if feeds != 0 {
                self.answer();
                self.line.clear();
            }
            self.line.append(piece);
        }
    }

    // The end of the input ends a line that has begun.
    pub fn end(&self) {
        if !self.line.is_empty() {
            self.answer();
        }
    }

    // Writes the answer to the line: what its test gives, or what is malformed.
    fn answer(&self) {
        if let Err(malformed) = self.run() {
            write(self.out, malformed.answer());
        }
    }

    // Writes what the line's test gives. Its room is cleared where the line is a test, and not before.
    fn run(&self) -> Result<(), Malformed> {
        let test = Test::of(self.line.bytes()?)?;
        let mut room = [0; ROOM];
        print_digits(self.out, test.run(self.engine, &mut room)?);
        Ok(())
    }
}
