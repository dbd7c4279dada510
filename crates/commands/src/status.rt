//! How a run ends.
ghost use Rattle.std.specs.Prelude.{◌≡◌, ◌<◌, length};
ghost use Rattle.commands.specs.Status.{code_of};

/// The status of a run.
#[derive(Clone, Copy, Debug, PartialEq, Eq)]
pub enum Status {
    /// Every line was run.
    Ok,
    /// The words name no command.
    Usage,
    /// A line isn't of the grammar. The lines before it were run.
    BadInput,
    /// The input could not be read.
    ReadFault,
    /// The output could not be written whole.
    WriteFault,
    /// The input is too long.
    TooLong,
    /// There was no memory left.
    Memory,
    /// The network failed, or a link of it.
    NetFault,
    /// The client refused a text of the server.
    ServerSent,
    /// The server does not speak this version of DDP.
    Version,
    /// The server closed the link before the script was done.
    Closed,
    /// The server was silent for too long.
    Timeout,
}

impl Status {
    /// The exit status of the program.
    pub fn code(self) -> u8
        ensures { result ≡ code_of self }
    {
        match self {
            Status::Ok => 0,
            Status::Usage => 2,
            Status::BadInput => 3,
            Status::ReadFault => 4,
            Status::WriteFault => 5,
            Status::TooLong => 6,
            Status::Memory => 7,
            Status::NetFault => 8,
            Status::ServerSent => 9,
            Status::Version => 10,
            Status::Closed => 11,
            Status::Timeout => 12,
        }
    }

    /// What happened, and what to do about it.
    pub fn message(self) -> &'static str
        ensures { 0 < length result.now }
    {
        match self {
            Status::Ok => "every line was run",
            Status::Usage => "the words name no command",
            Status::BadInput =>
                "a line is not of the grammar: the last line of the output tells which; mend it and run again",
            Status::ReadFault =>
                "standard input could not be read, and nothing was written: run again",
            Status::WriteFault =>
                "standard output could not be written whole: make room for it, or read it to its end, and run again",
            Status::TooLong =>
                "the input has more than 67108864 bytes or 1048576 lines, and nothing was run: run fewer events at a time, each time with the application as line 1",
            Status::Memory =>
                "there was no memory left, and the output is not whole: run again with more memory or a shorter input",
            Status::NetFault =>
                "the network failed: see whether the port is free to listen at, or whether a server listens there",
            Status::ServerSent =>
                "the server sent a text that the client refused: the last line of the output tells why",
            Status::Version => "the server does not speak version 1 of DDP",
            Status::Closed => "the server closed the link before the script was done",
            Status::Timeout =>
                "the server was silent for too long: see whether it still runs, or give it more time",
        }
    }
}
