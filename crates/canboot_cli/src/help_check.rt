//! What the help of `check` says.

pub(crate) const ABOUT_CHECK: &str =
    "Reads a network list in TOML and prints how many slaves it lists";

pub(crate) const HELP_CHECK: &str =
    "Reads the network list NET (TOML, UTF-8, at most 1,048,576 bytes) to its end,
and prints how many slaves it lists. No CAN network is needed.

Example:
  canboot check --explain examples/lists/machine.toml

Exit statuses:
  0  the list has no fault, and the line is printed, with --explain all of it
  1  the list has a fault
  2  the command line is wrong
  3  a file that can't be opened, a failed read (an input that is too long
     among them), a failed write, or want of memory

Standard output has the line 'ok slaves S mandatory M kept K': S slaves are
listed, M of them are mandatory (1F81h bit 3), and K are kept alive (1F81h
bit 4). It has nothing where the list has a fault or can't be read. With
--json it has these numbers as one JSON object,
{\"slaves\":S,\"mandatory\":M,\"kept\":K}, and standard error has a fault as
{\"status\":1,\"fault\":\"..\"}.

A list of one slave, whose line is 'ok slaves 1 mandatory 1 kept 0':

  own = 1
  startup = 1

  [[slave]]
  id = 2
  assignment = 13
  device_type = 0x00020192

With --explain lines behind that one say what the list comes to. They have
what the bits of startup mean. For each slave they have what its boot asks, in
its order, what each wrong answer ends with, what is written, and how the
slave is watched then. Lines that begin with 'warning' come last. They are no
faults, and the status is 0:

  a slave with a device type, an identity or writes, but bit 2 of its
    assignment clear: nothing is compared or written, and any device is taken
    for it
  a slave without a heartbeat time, and without a guard time and a retry
    factor: nobody watches it
  a slave with a heartbeat time, but no write of 1017h that sets a shorter one
    that isn't 0
  an assignment with bit 1, 6 or 7
  a slave that isn't mandatory and is booted, where all nodes are started at
    once (startup bit 1, without bits 2 and 3): it is started too where its
    boot fails
  no slave
  bit 0 of startup clear

Keys of the list, where 'needed' stands behind those that have to be given. A
number has a range of 0 to 4,294,967,295 where no other one is given, and is 0
where it isn't needed and isn't given:

  own          the manager's own node-ID, 1 to 127; needed
  startup      1F80h, NMT startup; needed
  boot_time    1F89h, boot time of the mandatory slaves in ms; 0: no limit
  slave        an array of tables, one for each slave, in any order; if it
               isn't given: no slave

Keys of each slave, in the same way:

  id           its node-ID, 1 to 127, neither own nor another slave's; needed
  assignment   1F81h, slave assignment, with bit 0 set; needed
  device_type  1F84h, expected device type; 0: not compared
  vendor       1F85h, expected vendor-ID; 0: not compared
  product      1F86h, expected product code; 0: not compared
  revision     1F87h, expected revision number; 0: not compared
  serial       1F88h, expected serial number; 0: not compared
  heartbeat    1016h, time in ms in which a heartbeat has to come, 0 to
               65,535; 0: node guarding, if assignment has its times
  date         1F26h, expected configuration date in days since 1 January
               1984; 0: always configured
  time         1F27h, expected configuration time in ms since midnight;
               0: always configured
  writes       in the place of 1F22h, the writes that configure the slave, in
               their order: an array of at most 32 arrays
               [index, sub-index, size, value]; if it isn't given: none

The index of a write is 0 to 65,535, its sub-index 0 to 255, and its size 1, 2
or 4 bytes. Its value is 0 to 4,294,967,295, where that fits the size.

Bits of startup, 1F80h; others are carried and ignored:

  0  this device is the NMT master; without it every call is refused
  1  0: each slave is started by itself, once it is booted
     1: all are started at once, when every mandatory slave is booted
  2  0: the manager becomes operational by itself, when every mandatory slave
        is booted
     1: the application decides
  3  0: the manager starts slaves
     1: it doesn't
  4  when a mandatory slave that is booted is lost (an error control event),
     all nodes are reset; with neither bit 4 nor bit 6, that slave alone
  6  all nodes are stopped then, in place of any reset

Bits of assignment, 1F81h; others are carried and not used:

  0  the node is a slave of the list; needed
  2  it is booted: its identity is read, it is configured and started. Without
     this bit it isn't asked anything, and only its heartbeat is waited for,
     if it has a heartbeat time
  3  it is mandatory: the network isn't ready before it is booted
  4  it is kept alive: the start of the network doesn't reset it, and where
     its boot finds it operational it isn't configured
  5  its software version is to be verified, which this master can't do: where
     bit 2 is set, its boot fails with status G once its identity was read and
     agrees, unless bit 4 is set and it is found operational
  8 to 15   retry factor
  16 to 31  guard time in ms. Where neither of the two is 0, and heartbeat is,
            'canboot live' guards the slave (node guarding), as with
            0x0064030D each 100 ms

Where faults apply, standard error names the first of these that applies
anywhere in the list:

  not TOML         the bytes aren't UTF-8, or they aren't TOML
  unknown key      the list or a slave has a key that isn't one of these
  missing key      the list or a slave lacks a needed key
  wrong kind       a value is of another kind than above
  out of range     an integer is outside its range
  double slave     two slaves have one id
  own id listed    a slave's id is own
  bit 0 clear      an assignment has bit 0 clear
  too many writes  a slave has more than 32 writes
  value too wide   a write of size 1 has a value above 255, or one of size 2
                   above 65,535

With --explain a line behind it says where the fault is:

  line 9, slave 4: heartbeat = 70000: 0 to 65535 ms

It has the line of the list, the slave, the key and its value, and what is
allowed there; of an unknown key, which known one is like it. A file that
can't be opened is named with the system's reason.";
