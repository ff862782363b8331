// What every command is given past the tests of its bytes: the engine that ciphers, the card's head and the session.
ghost use Rattle.std.specs.Prelude.{◌≡◌};
ghost use Rattle.apdu.specs.Refusals.{refusal_word};
ghost use Rattle.session.specs.Access.{access, rank};
ghost use Rattle.session.specs.Transitions.{ended};
ghost use Rattle.commands_spec.specs.KeySets.{dek_of};
ghost use Rattle.commands_spec.specs.Outcomes.{refused};

use crate::{key_sets, outcomes};
use apdu::Refusal;
use card::Head;
use commands_spec::Outcome;
use session::{Access, Session};
use tdes::Engine;

#[derive(Clone, Copy)]
pub struct Context {
    pub engine: Engine,
    pub head: Head,
    pub session: Session,
}

impl Context {
    // What the channel gives access to.
    pub fn access(&self) -> Access
        ensures { rank result ≡ access self.now.session.channel.level }
    {
        self.session.channel.level.access()
    }

    // The DEK of the set that opened the channel, as stored now.
    pub fn dek(&self) -> [u8; 16]
        ensures { result ≡ dek_of self.now.session.channel.level self.now.head }
    {
        key_sets::dek_of(self.session.channel.level, &self.head)
    }

    // A refusal after which nothing is pending.
    pub fn refused(&self, refusal: Refusal) -> Outcome
        ensures { result ≡ refused self.now.head (ended self.now.session) (refusal_word refusal) }
    {
        outcomes::refused(self.head, self.session.ended(), u16::from(refusal))
    }
}
