ghost use Rattle.std.specs.Prelude.{◌≡◌};
ghost use Rattle.otp_server.specs.Lines.{number_of};

/// How a command ended.
#[derive(Clone, Copy, Debug, PartialEq, Eq)]
pub enum Status {
    /// The command was carried out whole.
    Done,
    /// The words are no command.
    Words,
    /// The feed has a fault.
    Feed,
    /// A read of the folder failed.
    Read,
    /// A write of the output failed.
    Write,
    /// Memory ran out.
    Memory,
    /// A message is refused.
    Message,
    /// The query is refused.
    Request,
}

impl Status {
    /// The exit status of the program.
    pub fn number(self) -> u8
        ensures { result ≡ number_of self }
    {
        match self {
            Status::Done => 0,
            Status::Words => 2,
            Status::Feed => 3,
            Status::Read => 4,
            Status::Write => 5,
            Status::Memory => 6,
            Status::Message => 7,
            Status::Request => 8,
        }
    }
}
