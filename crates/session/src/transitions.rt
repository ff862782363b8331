// What ends what: each transition gives the session anew.
ghost use Rattle.std.specs.Prelude.{◌≡◌};
ghost use Rattle.session.specs.Transitions.{no_channel, no_offer, unselected};
ghost use Rattle.session.specs.Transitions.{ended, closed, reselected, flagged, offered, opened, chained, answered};

use crate::{Channel, Level, Offer, Pending, Session, Set};

impl Channel {
    // The closed channel.
    fn closed() -> Channel
        ensures { result ≡ no_channel }
    {
        Channel {
            level: Level::Closed,
            enc: [0; 16],
            mac: [0; 16],
            cmac: [0; 8],
            rmac: [0; 8],
        }
    }
}

impl Offer {
    // No offer.
    fn none() -> Offer
        ensures { result ≡ no_offer }
    {
        Offer {
            enc: [0; 16],
            mac: [0; 16],
            expected: [0; 8],
        }
    }
}

impl Session {
    // The unselected session.
    #[tactic(auto, unfolding(crate::specs::Transitions::unselected))]
    pub fn unselected() -> Session
        ensures { result ≡ unselected }
    {
        Session {
            selected: false,
            verified: false,
            channel: Channel::closed(),
            pending: Pending::Nothing,
            offer: Offer::none(),
        }
    }

    // Nothing is pending any more.
    #[tactic(auto, unfolding(crate::specs::Transitions::ended))]
    pub fn ended(self) -> Session
        ensures { result ≡ ended self }
    {
        Session {
            pending: Pending::Nothing,
            offer: Offer::none(),
            ..self
        }
    }

    // And the channel is closed.
    #[tactic(auto, unfolding(crate::specs::Transitions::closed, crate::specs::Transitions::opened))]
    pub fn closed(self) -> Session
        ensures { result ≡ closed self }
    {
        self.opened(Channel::closed())
    }

    // After a SELECT that reached its AID, right or not.
    #[tactic(auto, unfolding(crate::specs::Transitions::reselected, crate::specs::Transitions::closed))]
    pub fn reselected(self, right: bool) -> Session
        ensures { result ≡ reselected right self }
    {
        Session {
            selected: right,
            ..self.closed()
        }
    }

    // The PIN flag, with nothing pending.
    #[tactic(auto, unfolding(crate::specs::Transitions::flagged, crate::specs::Transitions::ended))]
    pub fn flagged(self, verified: bool) -> Session
        ensures { result ≡ flagged verified self }
    {
        Session {
            verified,
            ..self.ended()
        }
    }

    // An INITIALIZE UPDATE is pending; the channel stays.
    #[tactic(auto, unfolding(crate::specs::Transitions::offered))]
    pub fn offered(self, set: Set, offer: Offer) -> Session
        ensures { result ≡ offered set offer self }
    {
        Session {
            pending: Pending::Update(set),
            offer,
            ..self
        }
    }

    // A new channel in the place of any other.
    #[tactic(auto, unfolding(crate::specs::Transitions::opened, crate::specs::Transitions::ended))]
    pub fn opened(self, channel: Channel) -> Session
        ensures { result ≡ opened channel self }
    {
        Session {
            channel,
            ..self.ended()
        }
    }

    // The chain of C-MACs moves on.
    #[tactic(auto, unfolding(crate::specs::Transitions::chained))]
    pub fn chained(mut self, mac: [u8; 8]) -> Session
        ensures { result ≡ chained mac self }
    {
        self.channel.cmac = mac;
        self
    }

    // The chain of R-MACs moves on, and what is pending is as given.
    #[tactic(auto, unfolding(crate::specs::Transitions::answered, crate::specs::Transitions::ended))]
    pub fn answered(self, pending: Pending, mac: [u8; 8]) -> Session
        ensures { result ≡ answered pending mac self }
    {
        Session {
            channel: Channel {
                rmac: mac,
                ..self.channel
            },
            pending,
            ..self.ended()
        }
    }
}
