// What a call says.
ghost use Rattle.std.specs.Prelude.{◌≡◌};
ghost use Rattle.purse.specs.Called.{number_of, storeless, under_limit};

use session::Session;

// The answers of document 01's list, "What a call can say", in its order; 8 is the C host's alone.
#[derive(Clone, Copy, PartialEq, Eq, Debug)]
pub enum Answer {
    Done = 0,
    MemoryLength = 1,
    NoCard = 2,
    AreaLength = 3,
    RandomLength = 4,
    AwaitsStartUp = 5,
    InstallationData = 6,
    Cut = 7,
}

impl From<Answer> for u8 {
    ghost from_gives = { λ answer n. n ≡ number_of answer };

    fn from(answer: Answer) -> u8 {
        answer as u8
    }
}

// The answer; the reported stores; the length of the response; the session handed back, the unselected one where none is.
// The type of the answer is a parameter: answers that a host adds to the list, such as the C host's 8, can be told the same way.
#[derive(Clone, Copy)]
pub struct Called<A = Answer> {
    pub answer: A,
    pub count: usize,
    pub length: usize,
    pub session: Session,
}

// An answer of a run without stores and without a response.
pub fn storeless<A>(answer: A, session: Session) -> Called<A>
    ensures { result ≡ storeless answer session }
{
    Called {
        answer,
        count: 0,
        length: 0,
        session,
    }
}

// A run of `n` stores under a limit: done, or cut.
#[tactic(auto, unfolding(crate::specs::Called::under_limit))]
pub fn finish(n: usize, limit: usize, length: usize, session: Session) -> Called
    ensures { result ≡ under_limit n limit length session }
{
    if limit < n {
        return Called {
            count: limit,
            ..storeless(Answer::Cut, Session::unselected())
        };
    }
    Called {
        answer: Answer::Done,
        count: n,
        length,
        session,
    }
}
