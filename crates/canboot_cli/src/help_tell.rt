//! What the help of `tell` says.

pub(crate) const ABOUT_TELL: &str =
    "Reads a journal on standard input and prints its history in words";

pub(crate) const HELP_TELL: &str =
    "Reads a journal on standard input to its end, as 'canboot replay' does, makes
sure that it is a legal history, and prints that history on standard output in
words.

Examples:
  canboot tell < examples/wrong-drive.journal
  canboot tell --node 3 < day.journal

Exit statuses:
  0  the history is printed
  1  the journal is refused; the line on standard error names its first line
     with a fault, as 'canboot replay' does
  2  the command line is wrong
  3  a failed read (an input that is too long among them), a failed write, or
     want of memory

Nothing is printed on standard output where the journal is refused.

Each call but the time has a line, the oldest first, as 'canboot live' tells
it, with its place in the history where it isn't of one node alone. Behind it
stands what became of the network and of slaves:

  network started
  node 7: begun 1
  node 7: status M (product code 00000457, expected 00000456)
  network halted: node 7 has status M; once that is mended, type start
  node 9: lost, reset
  node 2: status Ok, all started
  node 3 isn't booted, and was started too

With --node ID it prints just the lines of the calls that name the node. With
--explain the line of a fault has behind it what was expected there, as
'canboot replay --explain' says it.

Statuses of a boot (CiA 302-2), by the question that ended it:

  Ok  all as expected
  A   the node isn't listed
  B   no device type (1000h) was read
  C   another device type than expected
  D   another vendor-ID (1018h sub 1)
  E   no heartbeat at the state check
  F   no guard response at the state check
  G   its software version isn't verified
  J   a write of its configuration failed
  K   no heartbeat behind its configuration
  L   found operational, and kept so
  M   another product code (1018h sub 2)
  N   another revision (1018h sub 3)
  O   another serial number (1018h sub 4)

  H and I never come";
