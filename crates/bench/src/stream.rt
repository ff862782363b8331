// A bench file as it comes from a reader: in pieces of any size, each run as far as its frames are whole, before the next is awaited.
ghost use Rattle.std.specs.Prelude.{true, false, ◌≡◌, ◌≤◌, ◌<◌, MatchResult, length};
ghost use Rattle.framing.specs.declared.next.Next.{Next};
ghost use Rattle.bench.specs.Going.{turns_again, file_goes_on};
ghost use Rattle.bench.specs.InHand.{HandTurned, HandDrained, PieceRun};

use crate::failure::fail;
use crate::input::{AREA_SIZE, Input};
use bench_file::Runner;
use framing::Next;
use std::io::Read;
use tdes::Engine;

// The file has ended, or what it takes to go on has failed, which is said already.
#[derive(Clone, Copy)]
struct Ended;

// How many of the bytes in hand are used, and how it goes on.
#[derive(Clone, Copy)]
struct Hand {
    used: usize,
    next: Next,
}

// Whether more of the bytes in hand can be used at once: a line had no room before.
fn again(next: Next) -> bool
    ensures { result ≡ turns_again next true }
{
    next == Next::Full
}

// Whether the file goes on: all was written, and X is not among the lines.
#[tactic(auto, unfolding(crate::specs::Going::file_goes_on, framing::specs::Stream::is_over))]
fn goes_on(went: Result<Next, Ended>) -> bool
    ensures { MatchResult went (λ next. result ≡ file_goes_on next true) (λ _. (next : Next) → result ≡ file_goes_on next false) }
{
    matches!(went, Ok(Next::Full | Next::More))
}

// A bench file as it runs: where its lines are written and what fails is named, what runs its frames, and the area for lines.
#[derive(Drop)]
struct Stream<'a, 'm, O, E> {
    out: &'a O,
    errors: &'a E,
    runner: Runner<'m>,
    output: [u8; AREA_SIZE],
}

impl<O: Print, E: Print> Stream<'_, '_, O, E> {
    // Writes lines to standard output, and says where that fails.
    fn write(&self, lines: &[u8]) -> Result<(), Ended> {
        match self.out.write_all(lines) {
            Ok(()) => Ok(()),
            Err(error) => {
                fail(self.errors, b"standard output", error);
                Err(Ended)
            }
        }
    }

    // One turn, whose lines are written together.
    fn turn(&mut self, input: &[u8], used: usize) -> Result<Hand, Ended>
        requires { used ≤ length input.now }
        ensures { HandTurned self.old.runner input.now used self.old.output result self.new.runner self.new.output }
    {
        let turned = self.runner.turn(&input[used..], &mut self.output);
        self.write(&self.output[..turned.written])?;
        Ok(Hand {
            used: used + turned.used,
            next: turned.next,
        })
    }

    // All whole frames in hand.
    fn run_in_hand(&mut self, input: &[u8]) -> Result<Hand, Ended>
        requires { 0 < length input.now }
        ensures { HandDrained self.old.runner input.now self.old.output result self.new.runner }
    {
        let mut hand = self.turn(input, 0)?;
        while again(hand.next) {
            hand = self.turn(input, hand.used)?;
        }
        Ok(hand)
    }

    // Runs the bytes in hand, and keeps what is left of them.
    fn run_piece(&mut self, input: &mut Input) -> Result<Next, Ended>
        requires { 0 < input.old.have }
        ensures { PieceRun self.old.runner input.old self.old.output result self.new.runner input.new }
    {
        let hand = self.run_in_hand(input.bytes())?;
        input.keep(hand.used);
        Ok(hand.next)
    }

    // The end of the file.
    fn finish(&mut self, rest: &[u8]) -> Result<(), Ended> {
        let n = bench_file::last_line(rest, &mut self.output);
        self.write(&self.output[..n])
    }

    // Reads once, behind the bytes in hand, and runs them.
    fn read_piece(
        &mut self,
        file: &mut impl Read,
        name: &[u8],
        input: &mut Input,
    ) -> Result<Next, Ended> {
        let n = match input.read(file) {
            Ok(n) => n,
            Err(error) => {
                fail(self.errors, name, error);
                return Err(Ended);
            }
        };
        if n == 0 {
            self.finish(input.bytes())?;
            return Err(Ended);
        }
        self.run_piece(input)
    }
}

// One bench file, with memory and session of its own. A proved loop has to end: it counts its turns up to a number that no run reaches.
pub fn run<'a>(
    out: &'a impl Print,
    errors: &'a impl Print,
    engine: Engine,
    file: &mut impl Read,
    name: &[u8],
) {
    let mut memory = [0; 4096];
    let mut input = Input::new();
    let runner = Runner::new(engine, &mut memory);
    let mut stream = Stream {
        out,
        errors,
        runner,
        output: [0; AREA_SIZE],
    };
    for _ in 0..u64::MAX {
        if !goes_on(stream.read_piece(file, name, &mut input)) {
            break;
        }
    }
}
