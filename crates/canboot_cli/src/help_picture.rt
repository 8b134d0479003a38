//! What the help of `picture` says.

pub(crate) const ABOUT_PICTURE: &str =
    "Reads a journal on standard input and draws its history (SVG)";

pub(crate) const HELP_PICTURE: &str =
    "Reads a journal on standard input to its end, as 'canboot replay' does, makes
sure that it is a legal history, and prints a picture of it on standard
output: an SVG document, which any browser shows.

Example:
  canboot picture < examples/wrong-drive.journal > boot.svg

Exit statuses:
  0  the picture is printed
  1  the journal is refused; the line on standard error names its first line
     with a fault, as 'canboot replay' does
  2  the command line is wrong
  3  a failed read (an input that is too long among them), a failed write, or
     want of memory

Nothing is printed on standard output where the journal is refused.

The manager and each listed slave have a lane, in which the entries stand from
left to right, the oldest first. A lane shows, by its colour and its letter:

  the state of the node, as a read of 1F82h gives it:
    ? unknown   M missing   S stopped   P pre-operational   O operational
  below it each boot, from its begin to its report, with the letter of its
    status ('canboot tell --help' has them); a green bar where that is Ok or L
  holds, releases and losses
  a tick for each NMT frame to the node, and across all lanes for one to all

Lines across all lanes say where the network is ready or halted. A pointer
that rests on a part shows what it is: 'entry 12: report of node 7: status M'.

A long history has columns, at most some 1,000 of them. A column stands for as
many entries as the line at the top says. The state in it is the one behind
its last entry, and of the marks of one kind in it the worst is drawn. The
picture has at most some 2,000,000 bytes.";
