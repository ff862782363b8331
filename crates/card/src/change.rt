// A change of a card, as one commit makes it.
ghost use Rattle.std.specs.Prelude.{◌≡◌};
ghost use Rattle.card.specs.Changes.{hot_change, logged_change, cold_change};

use crate::head::Head;
use crate::log::Record;

// The head afterwards; the log record that is made, if one is; whether block C is written.
#[derive(Clone, Copy, PartialEq, Eq, Debug)]
pub struct Change {
    pub head: Head,
    pub logged: Option<Record>,
    pub cold: bool,
}

impl Change {
    // Block H alone: number, tries and balance.
    pub fn hot(head: Head) -> Change
        ensures { result ≡ hot_change head }
    {
        Change {
            head,
            logged: None,
            cold: false,
        }
    }

    // Block H and a log record.
    pub fn logged(head: Head, entry: Record) -> Change
        ensures { result ≡ logged_change head entry }
    {
        Change {
            head,
            logged: Some(entry),
            cold: false,
        }
    }

    // Block H and block C: parameters, keys and PIN too.
    pub fn cold(head: Head) -> Change
        ensures { result ≡ cold_change head }
    {
        Change {
            head,
            logged: None,
            cold: true,
        }
    }
}
