//! What the help of `mend` says.

pub(crate) const ABOUT_MEND: &str = "Reads a torn journal on standard input and prints it whole";

pub(crate) const HELP_MEND: &str =
    "Reads a journal that a crash tore on standard input to its end, and prints on
standard output the longest legal journal that it begins with.

Example:
  canboot mend < torn.journal > whole.journal

Exit statuses:
  0  the journal is printed
  1  the lines before the entries aren't whole, or a line that isn't the last
     one is no legal entry; the fault line on standard error names the first
     line with a fault, as 'canboot replay' does
  2  the command line is wrong
  3  a failed read (an input that is too long among them), a failed write, or
     want of memory

Nothing is printed on standard output where nothing is mended, or the input
can't be read.

The input is of version 1 or 2, and has at most 268,435,456 bytes. What is
printed has its lines up to the last entry, and the line 'end N' with the
number of its entries. 'canboot replay' accepts it. A journal that is whole is
printed as it is.

A run that goes on writes the lines of its journal one by one, and 'end N'
when it ends. So where it was killed, or the machine lost its power, the
journal is torn: it has no last line, and the line before may have lost its
end. 'canboot replay' refuses such a journal.

The command cuts at most one line, the last one, torn or whole, where it is
none that can stand there. Then standard error has a line that says how much
it was, as 'canboot: cut 17 bytes, 1 line'.

The number of slaves stands in no line: where the journal was torn before its
first entry, slaves whose lines aren't there aren't missed.";
