// EXTERNAL AUTHENTICATE: the host cryptogram is judged first, then the C-MAC.
ghost use Rattle.std.specs.Prelude.{◌≡◌};
ghost use Rattle.commands_spec.specs.ExternalAuthenticate.{authenticated, external_authenticate_of, level_for};

use apdu::Refusal;
use channel::cmac;
use commands_spec::{Commits, Outcome};
use objects::{Context, done, refused};
use octets::Buffer;
use session::{Channel, Level, Pending, Set};

// The security level that P1 asks for.
#[tactic(auto, unfolding(commands_spec::specs::ExternalAuthenticate::level_for))]
fn level_for(p1: u8, set: Set) -> Level
    ensures { result ≡ level_for p1 set }
{
    match p1 {
        0x11 => Level::Rmac(set),
        _ => Level::Mac(set),
    }
}

// After an INITIALIZE UPDATE under a set; the channel's chain of C-MACs starts from the command's own.
#[tactic(auto, using(octets::proofs::Holding::of_piece), unfolding(commands_spec::specs::ExternalAuthenticate::authenticated, commands_spec::specs::Outcomes::done))]
fn authenticated(context: &Context, set: Set, p1: u8, command: &[u8], body: [u8; 16]) -> Outcome
    ensures { result ≡ authenticated set context.now.head context.now.session p1 command.now body }
{
    let session = context.session;
    let offer = session.offer;
    if body[..8] != offer.expected[..] {
        return refused(
            context.head,
            session.closed(),
            u16::from(Refusal::NotAuthenticated),
        );
    }
    let own = cmac(context.engine, offer.mac, [0; 8], command, 13);
    if body[8..] != own[..] {
        return refused(
            context.head,
            session.closed(),
            u16::from(Refusal::SecurityNotSatisfied),
        );
    }
    let channel = Channel {
        level: level_for(p1, set),
        enc: offer.enc,
        mac: offer.mac,
        cmac: own,
        rmac: [0; 8],
    };
    done(
        Commits::Unchanged,
        context.head,
        session.opened(channel),
        Buffer::new(),
    )
}

// EXTERNAL AUTHENTICATE past step 5.
#[tactic(auto, unfolding(commands_spec::specs::ExternalAuthenticate::external_authenticate_of))]
pub fn external_authenticate(context: &Context, p1: u8, command: &[u8], body: [u8; 16]) -> Outcome
    ensures { result ≡ external_authenticate_of context.now.session.pending context.now.head context.now.session
        p1 command.now body }
{
    match context.session.pending {
        Pending::Update(set) => authenticated(context, set, p1, command, body),
        _ => context.refused(Refusal::ConditionsNotSatisfied),
    }
}
