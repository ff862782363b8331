// Writing into an area.
ghost use Rattle.std.specs.Prelude.{◌≡◌};
ghost use Rattle.octets.specs.Bytes.{paste};

// `s` over the bytes of the area from an index on; nothing where it doesn't fit there.
pub fn paste(area: &mut [u8], at: usize, s: &[u8])
    ensures { area.new ≡ paste area.old at s.now }
{
    if at <= area.len() && s.len() <= area.len() - at {
        area[at..at + s.len()].copy_from_slice(s);
    }
}
