// A command's bytes, and the header that they say.
ghost use Rattle.std.specs.Prelude.{◌≡◌, Ok};
ghost use Rattle.octets.specs.Bytes.{field};
ghost use Rattle.apdu.specs.Parsing.{parsed};

use apdu::Apdu;

#[derive(Clone, Copy)]
pub struct Request<'a> {
    pub command: &'a [u8],
    pub header: Apdu,
    ghost parsed: { parsed command.now ≡ Ok header },
}

impl Request<'_> {
    // The first bytes of the data, as many as the array has.
    pub fn data<const N: usize>(&self) -> [u8; N]
        ensures { result ≡ field self.now.command.now 5 N }
    {
        octets::part(self.command, 5)
    }
}
