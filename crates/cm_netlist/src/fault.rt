ghost use Rattle.std.specs.Prelude.{◌≡◌, Some};
ghost use Rattle.cm_netlist.specs.ListFaults.{number_of, words_of};

use std::error::Error;
use std::fmt;

/// Why a network list or a slave is refused.
#[derive(Clone, Copy, Debug, Drop, PartialEq, Eq)]
pub enum NetFault {
    /// The text isn't TOML.
    NotToml = 1,
    /// The list or a slave has a key that no list has.
    UnknownKey,
    /// The list or a slave lacks a needed key.
    MissingKey,
    /// A value isn't of its key's kind.
    WrongKind,
    /// An integer lies outside its range.
    OutOfRange,
    /// The node is listed already.
    DoubleSlave,
    /// The node-ID is the manager's own.
    OwnListed,
    /// 1F81h bit 0 is clear.
    NotListedBit,
    /// A slave has more than 32 writes.
    TooManyWrites,
    /// A write's value doesn't fit its size.
    ValueTooWide,
    /// Memory was refused.
    OutOfMemory,
}

impl NetFault {
    /// The number of the fault; of several the least is given.
    pub fn number(self) -> u8
        ensures number { result ≡ number_of self }
    {
        self as u8
    }

    /// The words of the fault.
    pub fn words(self) -> &'static str
        ensures words { result.now ≡ words_of self }
    {
        match self {
            NetFault::NotToml => "not TOML",
            NetFault::UnknownKey => "unknown key",
            NetFault::MissingKey => "missing key",
            NetFault::WrongKind => "wrong kind",
            NetFault::OutOfRange => "out of range",
            NetFault::DoubleSlave => "double slave",
            NetFault::OwnListed => "own id listed",
            NetFault::NotListedBit => "bit 0 clear",
            NetFault::TooManyWrites => "too many writes",
            NetFault::ValueTooWide => "value too wide",
            NetFault::OutOfMemory => "out of memory",
        }
    }
}

impl fmt::Display for NetFault {
    ghost output = { λ f. Some (words_of f) };

    fn fmt<W: fmt::Write>(&self, f: &mut fmt::Formatter<W>) -> fmt::Result {
        f.write_str(self.words())
    }
}

impl Error for NetFault {}
