//! What the help of `scan` says.

pub(crate) const ABOUT_SCAN: &str =
    "Asks devices on a CAN bus what they are and prints a network list";

pub(crate) const USAGE_SCAN: &str =
    "canboot scan (--receive FILE --send FILE | --slcan DEVICE) [OPTIONS]";

pub(crate) const HELP_SCAN: &str =
    "Asks each node of --nodes over SDO (CiA 301) what it is, and prints on
standard output a network list in TOML of the devices that answered. It sends
no NMT message, and writes nothing to a device: what runs goes on.

Examples:
  canboot scan --receive <(candump -L can0) --send >(canplayer -t can0=can0)
  canboot scan --slcan /dev/ttyACM0 --nodes 1-20 --own 100
  ./canboot-on-can can0 scan --check machine.toml

Exit statuses:
  0  the list is printed; with --check: each listed slave answered each value
     that is expected of it, and no other node that was asked answered
  1  with --check: there is a difference, or the list has a fault
  2  the command line is wrong
  3  a file that can't be opened, frames that can't be received or sent, a bus
     that is off, a failed write, or want of memory or of a thread

'canboot live --help' says what --receive, --send and --slcan are; with
can-utils './canboot-on-can can0 scan' does it.

A node is asked for its device type (1000h), and where that is answered, for
its identity (1018h sub 1 to 4) and its name (1008h). The list has the devices
in rising order of their node-IDs:

  own = 127                   that of --own
  startup = 0x00000001        this device is the NMT master

  [[slave]]  # the name, where it is known
  id = 5
  assignment = 0x00000005     it is booted
  device_type = 0x00020192
  vendor = 0x00000123
  product = 0x00000456
  revision = 0x00010002
  serial = 0x00000789

device_type and the keys below it have what the device answered, as what a
boot expects of it. A value that it didn't give, or that is 0, is left out,
and then it isn't compared.

Standard error has a line where no device was heard, where the bus says that
nobody acknowledges or that the controller isn't well, and for each node at
which two devices answer a question otherwise:

  canboot: no device was heard
  canboot: bus: no other node acknowledges
  canboot: node 5: two devices answer: serial number 00000001 and 00000002

Another program that asks the same nodes over SDO at the same time disturbs
both. The command reads the list back before it prints it; 'canboot check
--explain' says what it comes to. Still to be added are: which slaves are
mandatory, how each is watched, and what is written to it.

With --check NET standard output has a line for each difference to the network
list NET, and 'ok slaves 20' where there is none:

  node 3: missing
     a listed node didn't answer its device type
  node 4: product code 00000457, expected 00000456
     a value isn't the expected one
  node 9: unknown (..)
     a device isn't listed; its device type, vendor-ID and product code stand
     in the brackets

Each listed slave is asked, whatever --nodes has. With --json the differences
are one JSON object on a line (docs/differences.schema.json), and a fault is
one on standard error (docs/fault.schema.json).";
