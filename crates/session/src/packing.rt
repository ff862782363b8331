// The session in the C host's 128 bytes, and back.
ghost use Rattle.std.specs.Prelude.{◌≡◌};
ghost use Rattle.session.specs.Packing.{heading, packed, decoded_channel, decoded_offer, decoded, unpacking};

use crate::{Channel, Level, Offer, Pending, Session};
use octets::{Buffer, byte_at, part, word_at};

// The channel that bytes say.
#[tactic(auto, unfolding(crate::specs::Packing::decoded_channel))]
fn decode_channel(bytes: &[u8]) -> Channel
    ensures { result ≡ decoded_channel bytes.now }
{
    Channel {
        level: Level::of(byte_at(bytes, 3)),
        enc: part(bytes, 8),
        mac: part(bytes, 24),
        cmac: part(bytes, 40),
        rmac: part(bytes, 48),
    }
}

// The offer that they say.
#[tactic(auto, unfolding(crate::specs::Packing::decoded_offer))]
fn decode_offer(bytes: &[u8]) -> Offer
    ensures { result ≡ decoded_offer bytes.now }
{
    Offer {
        enc: part(bytes, 56),
        mac: part(bytes, 72),
        expected: part(bytes, 88),
    }
}

// What the bytes say, if they say a session.
#[tactic(auto, unfolding(crate::specs::Packing::decoded))]
fn decode(bytes: &[u8]) -> Session
    ensures { result ≡ decoded bytes.now }
{
    Session {
        selected: byte_at(bytes, 1) == 1,
        verified: byte_at(bytes, 2) == 1,
        channel: decode_channel(bytes),
        pending: Pending::of(byte_at(bytes, 4), word_at(bytes, 5)),
        offer: decode_offer(bytes),
    }
}

impl Session {
    // The eight bytes before the keys.
    fn heading(&self) -> [u8; 8]
        ensures { result ≡ heading self.now }
    {
        let [high, low] = self.pending.amount().to_be_bytes();
        [
            0x01,
            u8::from(self.selected),
            u8::from(self.verified),
            self.channel.level.number(),
            self.pending.number(),
            high,
            low,
            0x00,
        ]
    }

    // The 128 bytes of a session. Inlined: a call of it made `purse_command` on no card 1.8 times as slow.
    #[inline(always)]
    pub fn pack(&self) -> [u8; 128]
        ensures { result ≡ packed self.now }
    {
        let mut buffer = Buffer::of(&self.heading());
        buffer.append(&self.channel.enc);
        buffer.append(&self.channel.mac);
        buffer.append(&self.channel.cmac);
        buffer.append(&self.channel.rmac);
        buffer.append(&self.offer.enc);
        buffer.append(&self.offer.mac);
        buffer.append(&self.offer.expected);
        buffer.bytes
    }

    // The session that bytes of any number read as: those that are its packing, and no others.
    #[tactic(auto, unfolding(crate::specs::Packing::unpacking, crate::specs::Packing::unpacked))]
    pub fn unpack(bytes: &[u8]) -> Option<Session>
        ensures { result ≡ unpacking bytes.now }
    {
        let session = decode(bytes);
        (session.pack().as_slice() == bytes).then_some(session)
    }
}
