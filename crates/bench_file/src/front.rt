// What leads the bytes in hand, of the bench's kinds.
ghost use Rattle.std.specs.Prelude.{◌≡◌};
ghost use Rattle.framing.specs.Frames.{front_of};
ghost use Rattle.bench_file.specs.Kinds.{size_ok};

use crate::kind::Kind;
use framing::{Front, leads};
use octets::{byte_at, word_at};

// Whether a kind may have so many bytes of data.
#[tactic(auto, unfolding(crate::specs::Kinds::size_ok))]
fn size_ok(kind: u8, n: u16) -> bool
    ensures { result ≡ size_ok kind n }
{
    n <= 512
        && match Kind::of(kind) {
            Some(Kind::Installation) => 2 <= n,
            Some(Kind::Startup) => n == 2,
            Some(Kind::Command) => 10 <= n,
            None => false,
        }
}

// A whole frame, what no byte behind it can mend, or what more bytes may make a frame.
pub fn front_of(s: &[u8]) -> Front
    ensures { result ≡ front_of size_ok s.now }
{
    leads(s, size_ok(byte_at(s, 2), word_at(s, 3)))
}
