// A test: what its kind asks of the cipher.
use crate::malformed::Malformed;
use hex::FromHex;
use tdes::Engine;

// The bytes of the longest text: a line has digits for no more.
pub const ROOM: usize = 2048;

// What is done: a DES block, deciphered or not, so many times, each result the next text; or a mode of triple DES, deciphered or not.
#[derive(Clone, Copy)]
enum Kind {
    Des(bool, usize),
    Ecb(bool),
    Cbc(bool),
    Signature,
}

impl Kind {
    // The kind that a field names.
    fn of(field: &[u8]) -> Result<Kind, Malformed> {
        match field {
            b"DE" => Ok(Kind::Des(false, 1)),
            b"DD" => Ok(Kind::Des(true, 1)),
            b"ME" => Ok(Kind::Des(false, 10000)),
            b"MD" => Ok(Kind::Des(true, 10000)),
            b"TE" => Ok(Kind::Ecb(false)),
            b"TD" => Ok(Kind::Ecb(true)),
            b"CE" => Ok(Kind::Cbc(false)),
            b"CD" => Ok(Kind::Cbc(true)),
            b"SG" => Ok(Kind::Signature),
            _ => Err(Malformed::Kind),
        }
    }
}

// The bytes that a field of fixed length says, or what is wrong.
fn fixed<const N: usize>(field: &[u8], wrong: Malformed) -> Result<[u8; N], Malformed> {
    <[u8; N]>::from_hex(field).map_err(|_| wrong)
}

// A kind, and the fields that it reads.
#[derive(Clone, Copy)]
pub struct Test<'a> {
    kind: Kind,
    key: &'a [u8],
    start: &'a [u8],
    text: &'a [u8],
}

impl<'a> Test<'a> {
    // The test that a line says: four fields, with a space between them.
    pub fn of(line: &'a [u8]) -> Result<Test<'a>, Malformed> {
        let mut fields = line.split(|b| *b == b' ');
        match (
            fields.next(),
            fields.next(),
            fields.next(),
            fields.next(),
            fields.next(),
        ) {
            (Some(kind), Some(key), Some(start), Some(text), None) => {
                let kind = Kind::of(kind)?;
                Ok(Test {
                    kind,
                    key,
                    start,
                    text,
                })
            }
            _ => Err(Malformed::Fields),
        }
    }

    // The key, of 8 bytes or of 16.
    fn key<const N: usize>(&self) -> Result<[u8; N], Malformed> {
        fixed(self.key, Malformed::Key)
    }

    // The start value.
    fn start(&self) -> Result<[u8; 8], Malformed> {
        fixed(self.start, Malformed::Start)
    }

    // A dash stands where a kind takes no start value.
    fn no_start(&self) -> Result<(), Malformed> {
        match self.start {
            b"-" => Ok(()),
            _ => Err(Malformed::Start),
        }
    }

    // The bytes that the text says, in the room; a dash says none.
    fn text<'r>(&self, room: &'r mut [u8; ROOM]) -> Result<&'r mut [u8], Malformed> {
        match self.text {
            b"-" => Ok(&mut room[..0]),
            b"" => Err(Malformed::Text),
            digits => {
                let text = room.get_mut(..digits.len() / 2).ok_or(Malformed::Text)?;
                hex::decode_to_slice(digits, text).map_err(|_| Malformed::Text)?;
                Ok(text)
            }
        }
    }

    // A DES block, so many times: NIST SP 800-17's inner loop.
    fn des(&self, engine: Engine, decipher: bool, times: usize) -> Result<[u8; 8], Malformed> {
        let key = self.key()?;
        self.no_start()?;
        let mut block = fixed(self.text, Malformed::Text)?;
        for _ in 0..times {
            // Tried without `next`: no proof covers a call whose result is laid over an array that it reads.
            let next = tdes::des_block(engine, key, decipher, block);
            block = next;
        }
        Ok(block)
    }

    // What the engine makes of the test, in the room.
    pub fn run<'r>(&self, engine: Engine, room: &'r mut [u8; ROOM]) -> Result<&'r [u8], Malformed> {
        match self.kind {
            Kind::Des(decipher, times) => {
                let block = self.des(engine, decipher, times)?;
                room[..8].copy_from_slice(&block);
                Ok(&room[..8])
            }
            Kind::Ecb(decipher) => {
                let key = self.key()?;
                self.no_start()?;
                let text = self.text(room)?;
                tdes::ecb(engine, key, decipher, text);
                Ok(text)
            }
            Kind::Cbc(decipher) => {
                let key = self.key()?;
                let start = self.start()?;
                let text = self.text(room)?;
                if decipher {
                    tdes::cbc_decipher(engine, key, start, text);
                } else {
                    tdes::cbc_encipher(engine, key, start, text);
                }
                Ok(text)
            }
            Kind::Signature => {
                let signature = tdes::signature(
                    engine,
                    self.key()?,
                    self.start()?,
                    self.text(room)?,
                );
                room[..8].copy_from_slice(&signature);
                Ok(&room[..8])
            }
        }
    }
}
