//! What the help of `live` says.

pub(crate) const ABOUT_LIVE: &str =
    "Boots and watches a network on a CAN bus, writes report and journal";

/// The two ways to say where the bus is.
pub(crate) const USAGE_LIVE: &str = "canboot live [OPTIONS] <NET> --receive <FILE> --send <FILE>
       canboot live [OPTIONS] <NET> --slcan <DEVICE>";

pub(crate) const HELP_LIVE: &str =
    "Boots the slaves of the network list NET on a CAN bus, watches them until the
run ends, and prints the status report of what happened on standard output.
These are real devices: the start of the network resets each slave that isn't
kept alive, and canboot starts a booted slave where startup says so.

Examples, of which the last has no operator, and ends by itself after 10
seconds:
  canboot live NET --receive <(candump -L can0) --send >(canplayer -t can0=can0)
  canboot live NET --slcan /dev/ttyACM0 --workers 8 --journal day.journal
  canboot live NET --slcan /dev/ttyACM0 --for 10 < /dev/null

Exit statuses:
  0  the report is printed, and the journal is written, if one is asked for;
     also where the boot of a slave failed, or the network didn't become
     ready, as the report says
  1  the list has a fault ('canboot check --help' names them), the file of
     --names has one, or the start is refused, since bit 0 of startup is clear
     ('start refused: 1 NotMaster'); nothing is printed on standard output
  2  the command line is wrong, the file of --events or --status is NET
     itself, or that of --status is another file of the run
  3  a file or a device can't be opened or made; a failed read; a failed
     write; want of memory; or 'no worker', where a thread couldn't be made

A bus that ends is a failed read, and one that can't be written a failed
write: canboot writes the report and the journal of what was done all the
same. A failed write of the journal ends no run, and the report is printed.

'canboot check --help' says what NET holds. The report is as 'canboot replay'
prints it.


Reaching the bus

canboot opens no CAN interface, and starts no other program. Frames come and
go as lines of can-utils, or over a serial adapter. canboot passes over those
with identifiers of 29 bits and those of CAN FD.

With can-utils, canboot reads the lines of 'candump -L can0' from the path of
--receive, and writes lines for 'canplayer -t can0=can0' to the path of
--send. A shell such as bash makes both paths, as in the first example. The
interface in the lines that canboot writes is always can0. So for another
interface it is 'candump -L vcan0' and 'canplayer -t vcan0=can0', which sends
on vcan0 what the lines have for can0.

A serial adapter speaks SLCAN; canboot reads and writes its device, the one of
--slcan. It opens the adapter's channel (O), closes it at the end (C), and
sends no other setting. So before it runs, make the device raw and set the bit
rate, here S6 for 500 kbit/s:

  stty -F /dev/ttyACM0 raw -echo
  printf 'S6\\r' > /dev/ttyACM0


Booting

First canboot starts the network. It boots a slave once the slave's boot-up
message comes, or --settle MS behind the reset without one. It boots one that
is kept alive, and so isn't reset, at once. N workers (--workers N) boot the
slaves, and try each at most as often as --attempts says. Another attempt
follows only after status B, or where the session of the last one was dropped
before its report. A worker waits --answer MS for an SDO answer and for a
guard answer, and the slave's heartbeat time for a heartbeat.

Statuses of a boot (CiA 302-2), by the question that ended it:

  Ok  all as expected
  A   the node isn't listed
  B   no device type (1000h) was read
  C   another device type than expected
  D   another vendor-ID (1018h sub 1)
  E   no heartbeat at the state check
  F   no guard response at the state check
  G   its software version isn't verified
  J   a write of its configuration failed
  K   no heartbeat behind its configuration
  L   found operational, and kept so
  M   another product code (1018h sub 2)
  N   another revision (1018h sub 3)
  O   another serial number (1018h sub 4)

  H and I never come

Before the first call standard error has the same warnings as 'canboot run'
gives before its boot, without 'canboot: '.

With --heartbeat MS the manager sends a heartbeat of its own, on 700h + own:
boot-up at first, and then its NMT state each MS. So slaves that watch it
(1016h) see when it is gone.


Watching

A booted slave with a heartbeat time is lost where its heartbeat doesn't come
in that time. Bits 4 and 6 of startup say what follows.

A booted slave with no heartbeat time, but with a guard time and a retry
factor in its assignment, is guarded: canboot asks for its state each guard
time. An answer counts only with its toggle bit turned. Where none counts
within guard time times retry factor, the slave is lost.

canboot boots a slave again that sends its boot-up message, or that was lost
or reset. Where that happens again and again, it boots the slave 1, 2, 4 ..
60 s later.

A heartbeat with another state than the last one is a signal. One with the
same state is no call, so the journal of a long run stays short. Behind 64
changes canboot tells of a slave once in 10 s.

Where boot_time has gone by and a mandatory slave isn't booted, the network is
halted. There, and where all nodes are stopped, canboot boots nothing by
itself: see 'start' and 'boot'.


Typing

Meanwhile an operator types lines on standard input, or with --operator in the
FIFO of that path, which others open, write and close as often as they like.
The words of a line have spaces between them:

  start        starts the network again: all begins anew; where all nodes were
               stopped, just them
  boot 5       boots slave 5 now
  stop         stops all nodes; 'stop 5', 'start 5', 'reset 5' and 'preop 5'
               are for one node
  request 5 4  writes 4 to 1F82h of slave 5: 4 stop, 5 start, 6 reset node, 7
               reset communication, 127 enter pre-operational; 128 in the
               place of 5 is all nodes
  read 5       reads it: 0 unknown, 1 missing, 4 stopped, 5 operational, 127
               pre-operational
  hold 5       takes slave 5 out of booting, and stops it
  release 5    gives it back
  lost 5       says that slave 5 is lost
  status       shows the report so far
  help         shows these words
  quit, exit   ends the run

Numbers are decimal, or hexadecimal behind 0x. A request 5 to one slave starts
it, whatever its boot came to. Standard error says what a line comes to, with
its place in the history and the call as a journal spells it:

  17 request 5 4: done
  18 request 128 5: refused 12: a mandatory slave isn't booted

Of any other line it says what is wrong with it, and nothing happens.


What is told

Standard error has a line for each change as well, in the order of the
history. It says in words what a status means and which value differed:

  node 5: begun 1
  node 5: status Ok, started
  node 7: status M (product code 00000457, expected 00000456)
  network ready

Each line but one of fault has its time before it, in UTC to the millisecond.
On a terminal words such as lost and ready have colours, unless NO_COLOR is
set and isn't empty.

It says too what else the bus says, and no call follows from it:

  an emergency message of any node, with what its code means; at most ten
    lines of a node in a second, and then how many were left out
  a message of another NMT master, as often
  a node that isn't listed and boots up, once
  that two devices have one node-ID: two answers to one question differ, once
  with 'candump -L can0,0:0,#FFFFFFFF', which hears error frames too: that no
    other node acknowledges, and how the interface is (error warning, error
    passive, off, restarted, error active), each once until it changes, and as
    often as above

With --names FILE nodes have names, which stand in brackets behind a node's
number in what is told, as in 'node 5 (hoist): lost, reset'. FILE is TOML,
with a line such as 5 = \"hoist\" for each name: a node-ID of 1 to 127, and a
text of 1 to 64 bytes with no control characters in it.

With --events FILE canboot writes each thing that is told to FILE too, as a
JSON object on a line of its own. Want of a reader never stops the run:
canboot leaves out what FILE doesn't take, and counts it (events_left_out).

With --status FILE the report so far stands in FILE as a JSON object. canboot
writes it at the start, each second in which something has happened, and at
the end of the run. It writes FILE.new, which then takes the place of FILE, so
that whoever reads FILE finds a whole report. Want of a disk never stops the
run: it is told once.

With --json the report that is printed at the end is such an object too
(docs/report.schema.json), and a fault that ends the run is one on standard
error (docs/fault.schema.json).


The end and the journal

The run ends with 'quit'; --for SECONDS behind the end of the operator's
input, where that is given (a FIFO of --operator has none); or where no more
frames can be received or sent. Without an operator and --for it goes on.

At its end standard error says which nodes run on: they do, unless 'stop' was
typed before 'quit'. A boot that is under way is left without a report, and
starts no slave. canboot prints the report on standard output and writes the
last line of the journal, if --journal names a FILE. 'canboot replay < FILE'
accepts the journal, and prints the same report.

canboot writes the journal while the run goes on: the line of each call before
it sends the frames that follow from it. So where the run is killed, FILE has
each call whose frames left, and 'canboot mend' makes a whole journal of it.

With --journal-sync each line is on the disk before its frames are sent, so
that it outlives the machine's power too; that takes some 0.1 ms a call or
more, as the disk is.

FILE is a new file, made once NET is found without a fault. Where FILE is
there, it is FILE.1, or the first up to FILE.999 that isn't there, and
standard error says so. Where a line can't be written (a full disk), that is
told at once, nothing more is written to FILE, the run goes on, and it ends
with status 3.";
