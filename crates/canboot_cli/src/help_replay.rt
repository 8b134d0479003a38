//! What the help of `replay` says.

pub(crate) const ABOUT_REPLAY: &str =
    "Reads a journal on standard input and prints its status report";

pub(crate) const HELP_REPLAY: &str =
    "Reads a journal on standard input to its end, makes sure that it is a legal
history, and prints the status report of that history on standard output.

Examples:
  canboot replay < examples/one-slave.journal
  canboot replay --explain < day.journal

Exit statuses:
  0  the report is printed
  1  the journal is refused; the fault line on standard error names its first
     line with a fault: bad header, bad line, bad network, unknown seat, over
     limit, wrong reply
  2  the command line is wrong
  3  a failed read (an input that is too long among them), a failed write, or
     want of memory

Nothing is printed on standard output where the journal is refused or can't be
read.

The report has the phase, the manager's own NMT state, and the number of
entries and of mandatory slaves that aren't booted. Behind them it has each
NMT frame sent, and a line for each listed slave:

  slave 2 state 5 booted yes session 0 last Ok

Behind 'last' stands the status of the slave's last report, or '-' where there
is none. The line ends with 'held' where an operator holds the slave. With
--json the report is one JSON object on a line (docs/report.schema.json), and
a fault is one on standard error (docs/fault.schema.json).

Statuses of a boot (CiA 302-2), by the question that ended it:

  Ok  all as expected
  A   the node isn't listed
  B   no device type (1000h) was read
  C   another device type than expected
  D   another vendor-ID (1018h sub 1)
  E   no heartbeat at the state check
  F   no guard response at the state check
  G   its software version isn't verified
  J   a write of its configuration failed
  K   no heartbeat behind its configuration
  L   found operational, and kept so
  M   another product code (1018h sub 2)
  N   another revision (1018h sub 3)
  O   another serial number (1018h sub 4)

  H and I never come

A journal is a text of ASCII lines, of version 1 or 2, of at most 268,435,456
bytes. Its lines are these, with one space between two fields:

  canboot journal 2
     or canboot journal 1
  network own ID startup 1F80h boottime 1F89h seats N limit N
  slave ID assign 1F81h type 1F84h vendor 1F85h product 1F86h revision 1F87h
        serial 1F88h heartbeat MS date 1F26h time 1F27h writes N
     on one line, for each slave, in rising node-ID
  write INDEX SUB SIZE VALUE
     N times, behind their slave
  entry SEAT CALL = REPLY / ORDERS
     for each call, the oldest first
  end N
     with the number of entries

CALL is one of these:

  start
  begin ID
  report ID SESSION ANSWERS
  signal ID BYTE
  lost ID
  request TARGET VALUE
  read TARGET
  elapsed MS    the time in ms since the network was started, and not since
                the last such call
  hold ID       an operator takes a slave out of booting; in version 2 alone
  release ID    the operator gives it back; in version 2 alone

The limit of the network's line is 1 to 1,048,576, in version 1 to 65,536.
Hexadecimal are the objects but 1F89h, INDEX, SUB and VALUE of a write, the
answers' values and the bytes; all other numbers are decimal. docs/FORMATS.md
has every range, the answers, replies and orders.

With --explain a line that begins with two blanks stands behind the line of a
fault, where something is known. It says what was expected there:

  the manager's answer, at a wrong reply, as 'expected: begun 3 / none'
  'expected: end 7', where the last line is missing or has another number
  which seats there are
  how a line is spelled
  that the line ends in CR LF";
