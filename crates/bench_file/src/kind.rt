// The kinds of a bench file's frames.
ghost use Rattle.std.specs.Prelude.{◌≡◌, IfSome, IfNone};
ghost use Rattle.bench_file.specs.Kinds.{number};

// What a frame is for.
#[derive(Clone, Copy, PartialEq, Eq, Debug)]
pub enum Kind {
    Installation,
    Startup,
    Command,
}

impl Kind {
    // The kind of a number; no other number has one. No `TryFrom`: its error would say no more than `None`.
    pub fn of(byte: u8) -> Option<Kind>
        ensures some { IfSome result (λ kind. number kind ≡ byte) }
        ensures none { IfNone result ((kind : Kind) → number kind ≡ byte → ⊥) }
    {
        match byte {
            0x01 => Some(Kind::Installation),
            0x02 => Some(Kind::Startup),
            0x03 => Some(Kind::Command),
            _ => None,
        }
    }
}
