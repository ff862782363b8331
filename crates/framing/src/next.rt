// How it goes on behind a turn.

// The output area is to be emptied first; more bytes are awaited; the refusal is written, and that is the end.
#[derive(Clone, Copy, PartialEq, Eq, Debug)]
pub enum Next {
    Full,
    More,
    Over,
}
