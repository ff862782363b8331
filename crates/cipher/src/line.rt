// A line of the input.
ghost use Rattle.std.specs.Prelude.{◌≤◌, unwrap_or};
ghost use Rattle.cipher.specs.declared.line.TheConstants.{CAPACITY};

use crate::malformed::Malformed;

// How long a line can be.
const CAPACITY: usize = 4096;

// The first `len` bytes are the line so far; it has no length where there is no room for it all. No heap is used, and a line has a limit.
#[derive(Clone, Copy)]
pub struct Line {
    bytes: [u8; CAPACITY],
    len: Option<usize>,
    ghost fits: { unwrap_or len 0 ≤ CAPACITY },
}

impl Line {
    // Nothing yet.
    pub fn new() -> Line {
        Line {
            bytes: [0; CAPACITY],
            len: Some(0),
        }
    }

    // Nothing again.
    pub fn clear(&mut self) {
        self.len = Some(0);
    }

    // Bytes more; it has no length then where they don't fit.
    pub fn append(&mut self, bytes: &[u8]) {
        match self.len {
            Some(n) if bytes.len() <= CAPACITY - n => {
                self.bytes[n..n + bytes.len()].copy_from_slice(bytes);
                self.len = Some(n + bytes.len());
            }
            _ => self.len = None,
        }
    }

    // Whether no byte has come.
    pub fn is_empty(&self) -> bool {
        self.len == Some(0)
    }

    // All its bytes.
    pub fn bytes(&self) -> Result<&[u8], Malformed> {
        match self.len {
            Some(n) => Ok(&self.bytes[..n]),
            None => Err(Malformed::Line),
        }
    }
}
