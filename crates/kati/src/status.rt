//! How a run ended.
ghost use Rattle.std.specs.Prelude.{◌≡◌};
ghost use Rattle.kati.specs.Exits.{code_of};

/// How a run came to its end.
#[derive(Debug, Drop, Clone, Copy, PartialEq, Eq)]
pub enum Status {
    /// The plan was written, or the file to be checked is the plan: exit status 0.
    Done,
    /// The file to be checked isn't the plan: exit status 1.
    Differs,
    /// The makefile has a fault: exit status 2.
    Fault,
}

impl From<Status> for u8 {
    ghost from_gives = { λ status code. code ≡ code_of status };

    fn from(status: Status) -> u8 {
        match status {
            Status::Done => 0,
            Status::Differs => 1,
            Status::Fault => 2,
        }
    }
}
