// The lines: what each is, and how those of a command are put behind the others in the output.
ghost use Rattle.std.specs.Prelude.{◌≡◌, ◌+◌, ◌≤◌, ◌<◌, length};
ghost use Rattle.framing.specs.Step.{PutsBehind};
ghost use Rattle.purse.specs.Called.{number_of};
ghost use Rattle.bench_file.specs.Kinds.{area_size};
ghost use Rattle.bench_file.specs.Lines.{digit, hex_pair, answer_line, response_line};
ghost use Rattle.bench_file.specs.Printed.{command_line};
ghost use Rattle.bench_file.specs.Stream.{longest_line};

use framing::Output;
use purse::{Answer, Called};

// The longest line: "C 0", a space, two digits a byte of the response area, a line feed.
pub const LONGEST_LINE: usize = 69;

// X.
pub const MALFORMED_LINE: [u8; 2] = [b'X', b'\n'];

// The digit of a number below 16. The crate `hex` has upper-case digits on the heap alone.
#[tactic(auto, unfolding(crate::specs::Lines::digit))]
fn digit(n: u8) -> u8
    requires { n < 16 }
    ensures { result ≡ digit n }
{
    if n < 10 { b'0' + n } else { b'A' - 10 + n }
}

// The two digits of a byte.
fn hex_pair(byte: u8) -> [u8; 2]
    ensures { result ≡ hex_pair byte }
{
    [digit(byte / 16), digit(byte % 16)]
}

// A letter and an answer of 01's list.
#[tactic(auto, unfolding(crate::specs::Lines::answer_line))]
pub fn answer_line(letter: u8, answer: Answer) -> [u8; 4]
    ensures { result ≡ answer_line letter (number_of answer) }
{
    [letter, b' ', b'0' + u8::from(answer), b'\n']
}

// Answer 0 of a command, and its response.
fn put_response(output: &mut Output, x: &[u8])
    requires { (length x.now ≤ area_size) × (output.old.written + longest_line ≤ length output.old.area.now) }
    ensures same_area { output.new.area.ghost_name ≡ output.old.area.ghost_name }
    ensures puts { PutsBehind (response_line x.now) output.old output.new }
{
    output.append(b"C 0 ");
    for byte in x {
        output.append(&hex_pair(*byte));
    }
    output.append(b"\n");
}

// What a command said, with its response.
pub fn put_command(output: &mut Output, called: Called, area: &[u8])
    requires { (length area.now ≤ area_size) × (output.old.written + longest_line ≤ length output.old.area.now) }
    ensures same_area { output.new.area.ghost_name ≡ output.old.area.ghost_name }
    ensures puts { PutsBehind (command_line called area.now) output.old output.new }
{
    match called.answer {
        Answer::Done => put_response(output, &area[..called.length.min(area.len())]),
        answer => output.append(&answer_line(b'C', answer)),
    }
}
