// What leads the bytes in hand.
ghost use Rattle.std.specs.Prelude.{◌≡◌};
ghost use Rattle.framing.specs.Frames.{marked, frame_size, leads};

use octets::word_at;

// Mark, kind and length.
pub const HEADER_SIZE: usize = 5;

// A whole frame; what no byte behind it can mend; or what may become a frame, when more bytes are there.
#[derive(Clone, Copy, PartialEq, Eq, Debug)]
pub enum Front {
    Frame,
    Malformed,
    Awaited,
}

// Whether the mark leads them.
#[tactic(auto, unfolding(crate::specs::Frames::marked))]
fn marked(s: &[u8]) -> bool
    ensures { result ≡ marked s.now }
{
    matches!(s, [0xB5, 0xC3, ..])
}

// The length of the frame whose header it is.
#[tactic(auto, unfolding(crate::specs::Frames::frame_size))]
pub fn frame_size(s: &[u8]) -> usize
    ensures { result ≡ frame_size s.now }
{
    HEADER_SIZE + usize::from(word_at(s, 3))
}

// What leads them, where the reader says whether their kind may have so many bytes of data.
#[tactic(auto, unfolding(crate::specs::Frames::leads))]
pub fn leads(s: &[u8], ok: bool) -> Front
    ensures { result ≡ leads ok s.now }
{
    if s.len() < HEADER_SIZE {
        Front::Awaited
    } else if !marked(s) || !ok {
        Front::Malformed
    } else if s.len() < frame_size(s) {
        Front::Awaited
    } else {
        Front::Frame
    }
}
