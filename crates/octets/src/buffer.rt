// A byte string of at most 128 bytes: put together piece by piece, and copied to an area once.
ghost use Rattle.std.specs.Prelude.{◌≡◌, [], length};
ghost use Rattle.octets.specs.Bytes.{paste};
ghost use Rattle.octets.specs.Buffers.{content, holding, appended, copied};

use crate::writing;

pub const CAPACITY: usize = 128;

// The first `len` bytes are in use. No heap is there, so the bytes lie in the value, with their number beside them.
#[derive(Clone, Copy)]
pub struct Buffer {
    pub bytes: [u8; CAPACITY],
    pub len: usize,
}

impl Buffer {
    // Nothing yet.
    pub fn new() -> Buffer
        ensures { result ≡ holding [] }
    {
        Buffer {
            bytes: [0; CAPACITY],
            len: 0,
        }
    }

    // A piece alone; nothing where it doesn't fit.
    pub fn of(piece: &[u8]) -> Buffer
        ensures { result ≡ appended (holding []) piece.now }
    {
        let mut buffer = Buffer::new();
        buffer.append(piece);
        buffer
    }

    // One piece more; unchanged where it doesn't fit.
    pub fn append(&mut self, piece: &[u8])
        ensures { self.new ≡ appended self.old piece.now }
    {
        if self.len <= CAPACITY && piece.len() <= CAPACITY - self.len {
            writing::paste(&mut self.bytes, self.len, piece);
            self.len += piece.len();
        }
    }

    // The bytes in use.
    pub fn as_slice(&self) -> &[u8]
        ensures { result.now ≡ content self.now }
    {
        &self.bytes[..self.len.min(CAPACITY)]
    }

    // The bytes in use over the front of the area, and how many they are; 0 and nothing where they don't fit. It is no `Option`: the
    // definition `copied` says 0.
    pub fn copy_front(&self, area: &mut [u8]) -> usize
        ensures { (result ≡ copied (content self.now) area.old) × (area.new ≡ paste area.old 0 (content self.now)) }
    {
        let bytes = self.as_slice();
        if area.len() < bytes.len() {
            return 0;
        }
        writing::paste(area, 0, bytes);
        bytes.len()
    }
}
