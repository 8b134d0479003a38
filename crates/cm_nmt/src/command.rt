ghost use Rattle.std.specs.Prelude.{◌≡◌, ◌≢◌, MatchOption};
ghost use Rattle.cm_nmt.specs.Codes.{command_of_request, specifier_code, state_left};

/// An NMT command (CiA 301, NMT node control).
#[derive(Clone, Copy, Debug, Default, PartialEq, Eq)]
pub enum Command {
    #[default]
    Start,
    Stop,
    EnterPre,
    ResetNode,
    ResetComm,
}

impl Command {
    ghost use Rattle.cm_nmt.specs.declared.command.Command.{Command as AnyCommand};

    /// The state in which this command leaves a device, as object 1F82h reads it: 4 stopped, 5
    /// operational, 127 pre-operational, 0 (unknown) after a reset.
    pub fn state_left(self) -> u8
        ensures left { result ≡ state_left self }
    {
        match self {
            Command::Start => 5,
            Command::Stop => 4,
            Command::EnterPre => 127,
            Command::ResetNode | Command::ResetComm => 0,
        }
    }

    /// The command specifier, the first byte of the message.
    pub fn specifier(self) -> u8
        ensures specifier { result ≡ specifier_code self }
    {
        match self {
            Command::Start => 0x01,
            Command::Stop => 0x02,
            Command::EnterPre => 0x80,
            Command::ResetNode => 0x81,
            Command::ResetComm => 0x82,
        }
    }

    /// The command that has this specifier; `None` exactly where no command has it.
    pub fn from_specifier(specifier: u8) -> Option<Command>
        ensures exact { MatchOption result
            ((c : AnyCommand) → specifier_code c ≢ specifier)
            (λ c. specifier_code c ≡ specifier) }
    {
        match specifier {
            0x01 => Some(Command::Start),
            0x02 => Some(Command::Stop),
            0x80 => Some(Command::EnterPre),
            0x81 => Some(Command::ResetNode),
            0x82 => Some(Command::ResetComm),
            _ => None,
        }
    }

    /// The command that this value of object 1F82h, request NMT, asks for when it is written: 4 stop,
    /// 5 start, 6 reset node, 7 reset communication, 127 enter pre-operational (CiA 302-2). `None`
    /// for any other value.
    pub fn of_request(value: u8) -> Option<Command>
        ensures value { result ≡ command_of_request value }
    {
        match value {
            4 => Some(Command::Stop),
            5 => Some(Command::Start),
            6 => Some(Command::ResetNode),
            7 => Some(Command::ResetComm),
            127 => Some(Command::EnterPre),
            _ => None,
        }
    }
}
