// An answer that carries an R-MAC.
ghost use Rattle.std.specs.Prelude.{List, ◌≡◌, ℕ};
ghost use Rattle.octets.specs.Buffers.{holding};
ghost use Rattle.channel.specs.Channel.{rmac_of};

use channel::rmac;
use objects::Context;
use octets::Buffer;

// The R-MAC of an answer's data.
pub fn answer_mac(context: &Context, answer: &Buffer) -> [u8; 8]
    ensures { (x : List ℕ) → answer.now ≡ holding x → result ≡ rmac_of context.now.session.channel.mac
        context.now.session.channel.rmac context.now.session.channel.cmac x }
{
    let channel = &context.session.channel;
    rmac(
        context.engine,
        channel.mac,
        channel.rmac,
        channel.cmac,
        *answer,
    )
}
