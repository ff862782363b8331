// One turn: the whole frames that lead the bytes in hand are run, one a step, and their lines gathered in the output area. And the end of
// the file.
ghost use Rattle.std.specs.Prelude.{true, ◌&&◌, ◌≡◌, ◌+◌, ◌≤◌, leb, length, drop};
ghost use Rattle.framing.specs.Frames.{whole};
ghost use Rattle.framing.specs.Formats.{taken, last_line};
ghost use Rattle.framing.specs.Step.{Puts};
ghost use Rattle.bench_file.specs.Kinds.{size_ok};
ghost use Rattle.bench_file.specs.Lines.{Bench};
ghost use Rattle.bench_file.specs.Printed.{Same};
ghost use Rattle.bench_file.specs.Stream.{longest_line, bench};
ghost use Rattle.bench_file.specs.Step.{StepRuns, BatchRuns, TurnRuns};

use crate::frame::Runner;
use crate::front::front_of;
use crate::line::{LONGEST_LINE, MALFORMED_LINE};
use framing::{Front, Next, Output, frame_size};

// How many bytes were used and written, and how it goes on: the areas stay the caller's.
#[derive(Clone, Copy)]
pub struct Turned {
    pub used: usize,
    pub written: usize,
    pub next: Next,
}

// Whether the next frame is run, whatever the bench carries: its line has room, and it is there.
fn goes_on(rest: &[u8], output: &Output) -> bool
    ensures { (b : Bench) → result ≡ (leb (output.now.written + longest_line) (length output.now.area.now) && taken bench b rest.now) }
{
    output.has_room(LONGEST_LINE) && front_of(rest) == Front::Frame
}

impl Runner<'_> {
    // One frame more, behind the used bytes; how many are used then.
    fn step(&mut self, input: &[u8], used: usize, output: &mut Output) -> usize
        requires { (whole size_ok (drop used input.now) ≡ true) × (output.old.written + longest_line ≤ length output.old.area.now) }
        ensures same { Same self.old self.new }
        ensures same_area { output.new.area.ghost_name ≡ output.old.area.ghost_name }
        ensures steps { StepRuns self.old input.now used output.old result self.new output.new }
    {
        let rest = &input[used..];
        self.run_frame(rest, output);
        used + frame_size(rest)
    }

    // All whole frames that lead, as far as their lines have room; how many bytes they are. They are counted and not cut off, since the
    // definition `Batches` (framing) counts them.
    fn batch(&mut self, input: &[u8], output: &mut Output) -> usize
        requires { output.old.written ≡ 0 }
        ensures same { Same self.old self.new }
        ensures same_area { output.new.area.ghost_name ≡ output.old.area.ghost_name }
        ensures batches { BatchRuns self.old input.now output.old result self.new output.new }
    {
        let mut used = 0;
        while goes_on(&input[used..], output) {
            used = self.step(input, used, output);
        }
        used
    }

    // One turn on the bytes in hand.
    pub fn turn(&mut self, input: &[u8], output: &mut [u8]) -> Turned
        ensures same { Same self.old self.new }
        ensures turns { TurnRuns self.old input.now output.old result self.new output.new }
    {
        let mut lines = Output::new(output);
        let used = self.batch(input, &mut lines);
        if !lines.has_room(LONGEST_LINE) {
            return Turned {
                used,
                written: lines.written,
                next: Next::Full,
            };
        }
        if front_of(&input[used..]) == Front::Malformed {
            lines.append(&MALFORMED_LINE);
            return Turned {
                used,
                written: lines.written,
                next: Next::Over,
            };
        }
        Turned {
            used,
            written: lines.written,
            next: Next::More,
        }
    }
}

// The line at the end of the file, whatever the bench carries: X where bytes are left.
pub fn last_line(rest: &[u8], output: &mut [u8]) -> usize
    ensures { (b : Bench) → Puts (last_line bench b rest.now) output.old 0 result output.new }
{
    if rest.is_empty() {
        return 0;
    }
    octets::paste(output, 0, &MALFORMED_LINE);
    MALFORMED_LINE.len()
}
