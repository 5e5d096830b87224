ghost use Rattle.std.specs.Prelude.{◌≡◌};
ghost use Rattle.vsync_text.specs.Outcomes.{status_code};

/// How a command ended (docs/CLI.md, "Exit statuses").
#[derive(Clone, Copy, Debug, PartialEq, Eq)]
pub enum Status {
    /// 0: it is done.
    Done,
    /// 1: a trace breaks a rule.
    Broken,
    /// 2: its words are no command.
    Usage,
    /// 3: its input is refused.
    Refused,
    /// 4: memory was refused.
    Memory,
    /// 5: a file or the output failed.
    Outside,
}

impl Status {
    /// Its exit status.
    pub fn code(self) -> u8
        ensures { result ≡ status_code self }
    {
        match self {
            Status::Done => 0,
            Status::Broken => 1,
            Status::Usage => 2,
            Status::Refused => 3,
            Status::Memory => 4,
            Status::Outside => 5,
        }
    }
}
