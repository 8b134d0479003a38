//! What the help of `run` says.

pub(crate) const ABOUT_RUN: &str =
    "Boots simulated slaves, prints a status report and writes a journal";

pub(crate) const HELP_RUN: &str =
    "Boots the network of the list NET with simulated slaves, and prints the status
report of what happened on standard output. No CAN network is needed.

Examples:
  canboot run examples/lists/one-slave.toml --journal one-slave.journal
  canboot run examples/lists/one-slave.toml --silent 2 --attempts 3
  canboot run examples/lists/machine.toml --wrong 3=product:0x999 --dies 2

Exit statuses:
  0  the report is printed, and the journal is written, if one is asked for;
     also where the boot of a slave failed, or the network didn't become
     ready, as the report says; where it was halted standard error says by
     which slave, and of which slaves no boot was begun
  1  the list has a fault ('canboot check --help' names them), or the start is
     refused, since bit 0 of startup is clear ('start refused: 1 NotMaster');
     no report is printed
  2  the command line is wrong, FILE of --journal is NET itself, or a node of
     --wrong, --aborts or --dies isn't listed ('node 9 isn't in the network
     list'); no report is printed
  3  NET can't be opened or read, or is too long; FILE can't be made; a failed
     write; want of memory; or 'no worker', where a thread couldn't be made

Nothing is printed on standard output where no report is due. Standard error
has one line that says why, and with --explain one behind it that says where,
as 'canboot check --explain' does; --explain doesn't go with --json.

NET is a network list, and 'canboot check --help' says what it holds. The
report is as 'canboot replay' prints it. It has a line for each listed slave,
which ends with the status of its last boot that came to an end ('canboot
replay --help' has the letters). With --json the report is one JSON object on
a line (docs/report.schema.json), and a fault is one on standard error
(docs/fault.schema.json).

Before the boot standard error has a line 'canboot: warning: slave ID: ..' for
each slave that any device is taken for, that nobody watches, that nothing
makes send its heartbeat in time, or that is started with all nodes though its
boot failed; 'canboot check --explain' says the same. So it is said of each
value of --wrong that no boot compares. These are no faults.

Each slave agrees with the list: it has each object as the list expects it,
acknowledges each write, and is heard in pre-operational. These options make
slaves that don't agree, for trying what a list does then:

  --silent 2,5-9          nodes 2 and 5 to 9 give no answer
  --wrong 3=product:999   slave 3 has product code 999 in the place of the one
                          that is expected; so with device_type, vendor,
                          revision, serial, date and time, the keys of the
                          list. The value is decimal, or hexadecimal behind 0x
  --aborts 3=1018         slave 3 aborts each read and write of object 1018h,
                          with SDO abort code 0602 0000h: it doesn't exist
  --dies 3                slave 3 is booted as it should, and then it is lost:
                          behind all boots the operator reports each slave
                          that dies and is booted, in rising node-ID

Each of them may be given several times, and --dies takes a list as --silent
does. Of one node silence counts before aborts, aborts before wrong values,
and of two values of one object the later one. What the boot of a slave
doesn't ask changes nothing: a value isn't read where the list has 0 for it. A
node of --wrong, --aborts or --dies that isn't listed is refused, with status
2; one of --silent that isn't listed has no effect.

A silent slave with bit 2 of its assignment comes to status B at each attempt,
also with bit 5, and so it isn't booted; if it is mandatory, the network
doesn't become ready. Without bit 2 it is asked no question: its silence shows
only where its heartbeat is waited for, as status K, and else it is booted.

Any failed boot of a mandatory slave but one with status B halts the network:
its phase is 'halted', and slaves whose boot hasn't begun by then aren't
booted. So it is with a mandatory slave that has bits 2 and 5 of its
assignment, whose boot fails with status G.

A seat is one who makes calls of the manager. Seat 1 is an operator, who
starts the network, reports behind the boots which slaves are lost, and says
at the end that 0 ms went by. Each of the N workers of --workers is a thread
with a seat of its own, 2 to N + 1, and a bus of its own. The slaves are
counted from 0 in rising node-ID, and slave K belongs to worker K modulo N:
that worker boots it, one after another with its other slaves.

An attempt at a slave is three things: the begin of its boot, the questions of
the boot, and the report of the answers. Another attempt follows only after
status B, where the slave gave no value of object 1000h, or where the session
of the attempt was dropped before its report.

With one worker the output and the journal of a list are always the same. With
several workers the order of the entries may differ from run to run, and with
it the numbers of the sessions and what depends on the order.

--journal writes the journal to FILE. 'canboot replay < FILE' accepts it, and
prints the same report. FILE is made once NET is read; what FILE had before is
lost. After a list that is refused, or a start that is refused, an empty FILE
stays. FILE can't be NET itself: then nothing is made, nor where a node of an
option isn't listed.";
