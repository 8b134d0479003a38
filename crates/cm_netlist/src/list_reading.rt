ghost use Rattle.std.specs.Prelude.{IfErr, IfOk, List};
ghost use Rattle.cm_netlist.specs.ListsRead.{IsFaultOf, IsFaulty, IsList, IsListOf};

use crate::fault::NetFault;
use crate::network::Network;
use cm_text::{InputFault, read_input};
use std::alloc::Global;
use std::io::Read;
use std::str;

/// The greatest length of a network list's text, in bytes.
pub const LONGEST_LIST: usize = 1_048_576;

/// Why a network list wasn't read.
#[derive(Clone, Copy, Debug, PartialEq, Eq)]
pub enum CheckFault {
    /// The list has this fault.
    List(NetFault),
    /// The input wasn't read, or memory was refused.
    Input(InputFault),
}

/// The network list that bytes say in TOML. A fault of the list is the first that applies to the bytes, which aren't TOML where they
/// aren't UTF-8; any other fault is want of memory.
pub fn list_of(alloc: Global, bytes: &[u8]) -> Result<Network, CheckFault>
    ensures list { IfOk result (IsListOf bytes.now) }
    ensures faulty { IfErr result (IsFaultOf bytes.now) }
{
    let Ok(text) = str::from_utf8(bytes) else {
        return Err(CheckFault::List(NetFault::NotToml));
    };
    match Network::from_toml(alloc, text) {
        Ok(network) => Ok(network),
        Err(NetFault::OutOfMemory) => Err(CheckFault::Input(InputFault::Memory)),
        Err(fault) => Err(CheckFault::List(fault)),
    }
}

/// Reads a network list in TOML to the end of the input. A fault of the list is the first that applies
/// to the bytes, which aren't TOML where they aren't UTF-8; any other fault is of the input: a read
/// failed, the input is longer than 1,048,576 bytes, or memory was refused.
pub fn read_list<R: Read>(alloc: Global, reader: &mut R) -> Result<Network, CheckFault>
    ensures list { IfOk result (IsList (R.remaining reader.old) (R.remaining reader.new)) }
    ensures faulty { IfErr result (IsFaulty (R.remaining reader.old) (R.remaining reader.new)) }
{
    let bytes = match read_input(alloc, reader, LONGEST_LIST) {
        Ok(bytes) => bytes,
        Err(fault) => return Err(CheckFault::Input(fault)),
    };
    list_of(alloc, bytes.as_slice())
}
