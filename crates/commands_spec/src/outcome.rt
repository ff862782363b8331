// What a command gives.
use card::{Head, Record, State};
use octets::Buffer;
use session::Session;

// The commits that a command makes: none; block H; H and a log record; H and block C; H with a state, and then H.
#[derive(Clone, Copy)]
pub enum Commits {
    Unchanged,
    Hot,
    HotAndRecord,
    HotAndCold,
    HotTwice(State),
}

// The status word, which also ends the reply; the commits; the card's head afterwards; the new log record, void where there is none. Word
// and record stand beside the commits, since the definition `transaction` (specs/Sums.antt) reads them of any outcome.
#[derive(Clone, Copy)]
pub struct Outcome {
    pub status: u16,
    pub commits: Commits,
    pub head: Head,
    pub logged: Record,
    pub reply: Buffer,
    pub session: Session,
}
