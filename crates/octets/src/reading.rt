// Bytes, numbers and fixed parts of a byte string. Past its end all is zero, so nothing is required.
ghost use Rattle.std.specs.Prelude.{◌≡◌, ◌+◌, length};
ghost use Rattle.octets.specs.Bytes.{byte_at, field};
ghost use Rattle.octets.specs.Words.{word_at};

use crate::writing::paste;

// The byte at an index.
pub fn byte_at(s: &[u8], at: usize) -> u8
    ensures { result ≡ byte_at s.now at }
{
    s.get(at).copied().unwrap_or(0)
}

// The byte `i` places after an index: the sum of the two may be past any index.
pub fn byte_from(s: &[u8], at: usize, i: usize) -> u8
    ensures { result ≡ byte_at s.now (at + i) }
{
    if at < s.len() {
        byte_at(&s[at..], i)
    } else {
        0
    }
}

// The number of the two bytes from an index on, the high byte first.
pub fn word_at(s: &[u8], at: usize) -> u16
    ensures { result ≡ word_at s.now at }
{
    let [high, low] = part::<2>(s, at);
    u16::from_be_bytes([high, low])
}

// The bytes of `s` from an index on, as many as the area takes.
pub fn fill(area: &mut [u8], s: &[u8], at: usize)
    ensures { area.new ≡ field s.now at (length area.old) }
{
    area.fill(0);
    if at < s.len() {
        let n = area.len().min(s.len() - at);
        paste(area, 0, &s[at..at + n]);
    }
}

// As many bytes from an index on as the array has.
pub fn part<const N: usize>(s: &[u8], at: usize) -> [u8; N]
    ensures { result ≡ field s.now at N }
{
    if at <= s.len()
        && let Some(bytes) = s[at..].first_chunk::<N>()
    {
        return *bytes;
    }
    let mut bytes = [0; N];
    fill(&mut bytes, s, at);
    bytes
}
