// What is malformed of a line that is no test.

// In the order in which it is looked for: the first one is said.
#[derive(Clone, Copy, Debug, PartialEq, Eq)]
pub enum Malformed {
    Line,
    Fields,
    Kind,
    Key,
    Start,
    Text,
}

impl Malformed {
    // The answer to such a line, with its line feed. No `Display`: tried, and an input of empty lines took 1.9 times the time.
    pub fn answer(self) -> &'static [u8] {
        match self {
            Malformed::Line => b"malformed: line\n",
            Malformed::Fields => b"malformed: fields\n",
            Malformed::Kind => b"malformed: kind\n",
            Malformed::Key => b"malformed: key\n",
            Malformed::Start => b"malformed: start\n",
            Malformed::Text => b"malformed: text\n",
        }
    }
}
