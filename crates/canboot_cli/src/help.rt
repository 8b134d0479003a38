//! What the help of the program says.

pub(crate) const ABOUT: &str = "The NMT master of a CANopen network (CiA 301, CiA 302-2)";

pub(crate) const AFTER: &str =
    "Examples; the help of each command has more of them, as 'canboot run --help':
  canboot check --explain examples/lists/machine.toml
  canboot run examples/lists/one-slave.toml
  canboot replay < examples/one-slave.journal

Exit statuses; the help of each command says what they mean there:
  0  the command did what it was asked
  1  the input is refused, the start of a run is refused, or 'scan --check'
     finds a difference
  2  the command line is wrong
  3  a file, a read, a write, memory or a thread failed

What the help of each command says:
  canboot scan --help     how the devices on a bus become a network list
  canboot import --help   how a device file becomes a slave of a network list
  canboot check --help    what a network list holds
  canboot run --help      what is simulated
  canboot live --help     how a CAN bus is reached, and what an operator types
  canboot replay --help   what a journal holds
  canboot mend --help     what becomes of a torn journal
  canboot tell --help     how a journal is told in words
  canboot picture --help  how a journal is drawn";
