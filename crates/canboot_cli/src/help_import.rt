//! What the help of `import` says.

pub(crate) const ABOUT_IMPORT: &str =
    "Prints the slave that a device file (EDS, DCF) gives a network list";

pub(crate) const HELP_IMPORT: &str =
    "Reads the electronic data sheet or device configuration file FILE (CiA 306),
and prints a table [[slave]] on standard output, to append to a network list.

Examples:
  canboot import drive.dcf >> machine.toml
  canboot import --id 5 --mandatory --heartbeat 500 io.eds >> machine.toml

Exit statuses:
  0  the table is printed
  1  the file is no device file, or has neither 1000h nor 1018h; neither it nor
     --id gives a node-ID from 1 to 127; with --mandatory, its device type or
     identity is no number; it gives more than 32 writes, without --first; a
     value isn't a write, without --partly; standard error says which
  2  the command line is wrong
  3  a file that can't be opened, a failed read (a file that is too long among
     them), a failed write, or want of memory

Nothing is printed on standard output where the file is refused.

The table has these keys ('canboot check --help' says what they mean):

  id           that of --id, else the one that a DCF has
  assignment   0x5: it is booted; with --mandatory 0xD
  device_type  the value of 1000h
  vendor, product, revision
               the values of 1018h, else VendorNumber, ProductNumber and
               RevisionNumber of [DeviceInfo]
  serial       the ParameterValue of 1018h sub 4
  heartbeat    that of --heartbeat
  writes       each ParameterValue of an object that can be written

A value is the ParameterValue of its object, else the DefaultValue. One that
is 0 or isn't given isn't listed, and then it isn't compared. One that is no
number isn't either: a line on standard error and a comment tell of it. Where
a slave has to be told from another, see that product and revision stand in
the table.

The writes are in an order that devices accept (CiA 301):

  first the objects that aren't below
  then of each PDO its COB-ID with bit 31 set, no object mapped, the objects
    that are mapped, how many they are, its other parameters and its COB-ID
  1016h and 1017h last

The command leaves out 1000h, 1010h, 1011h, 1018h and 1020h. A value can't be
a write where its data type has no size of 1, 2 or 4 bytes, or where it is no
number of that type. With --partly the others are printed, with --first N the
first N writes at most, of each PDO all or none; a line on standard error and a
comment tell of each that is missing. The command reads the table back as a
network list before it prints it.

FILE has at most 4,194,304 bytes. It has sections in brackets, and keys with
values, in letters of any case; a ; begins a comment. A number is decimal,
hexadecimal behind 0x, octal behind another 0, $NODEID, or the sum of $NODEID
and one of these.";
