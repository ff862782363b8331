// One frame: its call on memory, its line in the output, and the session behind it.
ghost use Rattle.std.specs.Prelude.{true, ◌≡◌, ◌+◌, ◌≤◌, length, drop};
ghost use Rattle.octets.specs.Bytes.{zeros, part};
ghost use Rattle.octets.specs.Words.{word_at};
ghost use Rattle.framing.specs.Frames.{whole};
ghost use Rattle.session.specs.Transitions.{unselected};
ghost use Rattle.purse.specs.Called.{number_of};
ghost use Rattle.purse_spec.specs.History.{install, start, send};
ghost use Rattle.bench_file.specs.Kinds.{area_size, size_ok, first_call};
ghost use Rattle.bench_file.specs.Lines.{session_after};
ghost use Rattle.bench_file.specs.Stream.{longest_line};
ghost use Rattle.bench_file.specs.Printed.{Runs, Same};

use crate::kind::Kind;
use crate::line::{answer_line, put_command};
use framing::{HEADER_SIZE, Output, frame_size};
use octets::{byte_at, word_at};
use purse::{Answer, Called};
use session::Session;
use tdes::Engine;

// The response area, the least that a command takes.
const AREA_SIZE: usize = 32;

// The session behind a call.
#[tactic(auto, unfolding(crate::specs::Lines::session_after))]
fn session_after(session: Session, called: Called) -> Session
    ensures { result ≡ session_after session (number_of called.answer) called.session }
{
    match called.answer {
        Answer::Cut => Session::unselected(),
        Answer::Done => called.session,
        _ => session,
    }
}

// What runs the frames: the engine that ciphers, the card's memory, and the session behind the last call.
#[derive(Drop)]
pub struct Runner<'a> {
    pub engine: Engine,
    pub memory: &'a mut [u8],
    pub session: Session,
}

impl<'a> Runner<'a> {
    // Before the first frame.
    pub fn new(engine: Engine, memory: &'a mut [u8]) -> Runner<'a>
        ensures same_memory { result.memory.ghost_name ≡ memory.entry.ghost_name }
        ensures memory { result.memory.now ≡ memory.old }
        ensures engine { result.engine ≡ engine }
        ensures session { result.session ≡ unselected }
    {
        Runner {
            engine,
            memory,
            session: Session::unselected(),
        }
    }

    // Kind 01: limit, then installation data.
    fn install(&mut self, d: &[u8], output: &mut Output)
        requires { (2 ≤ length d.now) × (output.old.written + longest_line ≤ length output.old.area.now) }
        ensures same { Same self.old self.new }
        ensures same_area { output.new.area.ghost_name ≡ output.old.area.ghost_name }
        ensures runs { Runs (install (drop 2 d.now) (word_at d.now 0)) self.old output.old self.new output.new }
    {
        let limit = usize::from(word_at(d, 0));
        let called = purse::install(self.memory, &d[2..], limit);
        output.append(&answer_line(b'I', called.answer));
        self.session = session_after(self.session, called);
    }

    // Kind 02: limit.
    fn start(&mut self, d: &[u8], output: &mut Output)
        requires { output.old.written + longest_line ≤ length output.old.area.now }
        ensures same { Same self.old self.new }
        ensures same_area { output.new.area.ghost_name ≡ output.old.area.ghost_name }
        ensures runs { Runs (start (word_at d.now 0)) self.old output.old self.new output.new }
    {
        let limit = usize::from(word_at(d, 0));
        let called = purse::start_up(self.memory, limit);
        output.append(&answer_line(b'S', called.answer));
        self.session = session_after(self.session, called);
    }

    // Kind 03: limit, 8 random bytes, command. The response area is the bench's own.
    fn command(&mut self, d: &[u8], output: &mut Output)
        requires { (10 ≤ length d.now) × (output.old.written + longest_line ≤ length output.old.area.now) }
        ensures same { Same self.old self.new }
        ensures same_area { output.new.area.ghost_name ≡ output.old.area.ghost_name }
        ensures runs { Runs (send (drop 10 d.now) (part d.now 2 8) (zeros area_size) (word_at d.now 0))
            self.old output.old self.new output.new }
    {
        let limit = usize::from(word_at(d, 0));
        let mut area = [0u8; AREA_SIZE];
        let called = purse::command(
            self.engine,
            self.memory,
            self.session,
            &d[10..],
            &d[2..10],
            &mut area,
            limit,
        );
        put_command(output, called, &area);
        self.session = session_after(self.session, called);
    }

    // The frame that leads `s`.
    pub(crate) fn run_frame(&mut self, s: &[u8], output: &mut Output)
        requires { (whole size_ok s.now ≡ true) × (output.old.written + longest_line ≤ length output.old.area.now) }
        ensures same { Same self.old self.new }
        ensures same_area { output.new.area.ghost_name ≡ output.old.area.ghost_name }
        ensures runs { Runs (first_call s.now) self.old output.old self.new output.new }
    {
        let d = &s[HEADER_SIZE..frame_size(s)];
        match Kind::of(byte_at(s, 2)) {
            Some(Kind::Installation) => self.install(d, output),
            Some(Kind::Startup) => self.start(d, output),
            Some(Kind::Command) => self.command(d, output),
            None => unreachable!(),
        }
    }
}
