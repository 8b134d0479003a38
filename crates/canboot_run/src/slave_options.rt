//! Options of a command line that say what slaves do.

ghost use Rattle.std.specs.Prelude.{◌≡◌, ◌⊎◌, Err, IfErr, None, OnErr, OnOk, false, is_some, true};
ghost use Rattle.canboot_run.specs.SlaveWords.{AreDying, AreSilent, IsAborted, IsAsBefore, IsSaid, IsWrong};
ghost use Rattle.canboot_run.specs.SlaveWords.{aborted_in, says, wrong_in};
ghost use Rattle.cm_typed.specs.NodeLists.{is_node_list};

use crate::slave_faults::SlaveFaults;
use crate::slave_words::{aborted_in, wrong_in};
use canboot_faults::{FAILED, MISUSED, tell_words};
use cm_report::ReportForm;
use cm_typed::with_nodes;
use std::io::Write;

/// An option that says what slaves do.
#[derive(Clone, Copy)]
pub enum SlaveOption {
    /// The nodes of a list give no answer.
    Silent,
    /// A slave gives this value.
    Wrong,
    /// A slave aborts each read and write of this object.
    Aborts,
    /// The nodes of a list are lost once they are booted.
    Dies,
}

impl SlaveOption {
    /// How it is spelled, with its value.
    fn usage(self) -> &'static str {
        match self {
            SlaveOption::Silent => "--silent <LIST>",
            SlaveOption::Wrong => "--wrong <ID=OBJECT:VALUE>",
            SlaveOption::Aborts => "--aborts <ID=INDEX>",
            SlaveOption::Dies => "--dies <LIST>",
        }
    }

    /// What its value is.
    fn explanation(self) -> &'static str {
        match self {
            SlaveOption::Silent | SlaveOption::Dies => {
                "it is node-IDs of 1 to 127, as 3 or 2,5-9"
            }
            SlaveOption::Wrong => {
                "it is a node-ID, device_type, vendor, product, revision, serial, date or time, and a number of 32 bits, \
as 3=product:999 or 3=product:0x3e7"
            }
            SlaveOption::Aborts => {
                "it is a node-ID and an index of four hexadecimal digits, as 3=1018"
            }
        }
    }
}

/// Why an option says nothing.
#[derive(Clone, Copy)]
enum WordFault {
    /// Its value is spelled otherwise.
    Spelling,
    /// Memory was refused.
    OutOfMemory,
}

/// The nodes of the list are silent as well.
fn say_silent(faults: &mut SlaveFaults, text: &[u8]) -> Result<(), WordFault>
    ensures said { OnOk result (AreSilent text.now faults.old faults.new) }
    ensures fault { OnErr result (is_node_list text.now ≡ false) }
    ensures kind { OnErr result (result ≡ Err WordFault.Spelling) }
    ensures kept { OnErr result (faults.new ≡ faults.old) }
{
    match with_nodes(faults.silent, text) {
        Some(nodes) => {
            faults.silent = nodes;
            Ok(())
        }
        None => Err(WordFault::Spelling),
    }
}

/// The nodes of the list die as well.
fn say_dying(faults: &mut SlaveFaults, text: &[u8]) -> Result<(), WordFault>
    ensures said { OnOk result (AreDying text.now faults.old faults.new) }
    ensures fault { OnErr result (is_node_list text.now ≡ false) }
    ensures kind { OnErr result (result ≡ Err WordFault.Spelling) }
    ensures kept { OnErr result (faults.new ≡ faults.old) }
{
    match with_nodes(faults.dying, text) {
        Some(nodes) => {
            faults.dying = nodes;
            Ok(())
        }
        None => Err(WordFault::Spelling),
    }
}

/// One wrong value more.
fn say_wrong(faults: &mut SlaveFaults, text: &[u8]) -> Result<(), WordFault>
    ensures said { OnOk result (IsWrong text.now faults.old faults.new) }
    ensures spelling { result ≡ Err WordFault.Spelling → wrong_in text.now ≡ None }
    ensures memory { result ≡ Err WordFault.OutOfMemory → is_some (wrong_in text.now) ≡ true }
    ensures kept { OnErr result (faults.new.wrong.items ≡ faults.old.wrong.items) }
    ensures others { faults.new ≡ record faults.old { wrong = faults.new.wrong } }
{
    let Some(wrong) = wrong_in(text) else {
        return Err(WordFault::Spelling);
    };
    match faults.wrong.push(wrong) {
        Ok(()) => Ok(()),
        Err(_) => Err(WordFault::OutOfMemory),
    }
}

/// One object more that is aborted.
fn say_aborted(faults: &mut SlaveFaults, text: &[u8]) -> Result<(), WordFault>
    ensures said { OnOk result (IsAborted text.now faults.old faults.new) }
    ensures spelling { result ≡ Err WordFault.Spelling → aborted_in text.now ≡ None }
    ensures memory { result ≡ Err WordFault.OutOfMemory → is_some (aborted_in text.now) ≡ true }
    ensures kept { OnErr result (faults.new.aborted.items ≡ faults.old.aborted.items) }
    ensures others { faults.new ≡ record faults.old { aborted = faults.new.aborted } }
{
    let Some(aborted) = aborted_in(text) else {
        return Err(WordFault::Spelling);
    };
    match faults.aborted.push(aborted) {
        Ok(()) => Ok(()),
        Err(_) => Err(WordFault::OutOfMemory),
    }
}

/// Adds what an option with this value says.
fn say_of_slaves(
    faults: &mut SlaveFaults,
    option: SlaveOption,
    value: &str,
) -> Result<(), WordFault>
    ensures said { OnOk result (IsSaid option value.now faults.old faults.new) }
    ensures spelling { result ≡ Err WordFault.Spelling → says option value.now ≡ false }
    ensures memory { result ≡ Err WordFault.OutOfMemory → says option value.now ≡ true }
    ensures kept { OnErr result (IsAsBefore faults.old faults.new) }
{
    let text = value.as_bytes();
    match option {
        SlaveOption::Silent => say_silent(faults, text),
        SlaveOption::Wrong => say_wrong(faults, text),
        SlaveOption::Aborts => say_aborted(faults, text),
        SlaveOption::Dies => say_dying(faults, text),
    }
}

/// Writes what is wrong with the value of an option, and gives the exit status.
fn misspelled<E: Write>(err: &mut E, option: SlaveOption, value: &str) -> u8
    ensures { result ≡ 2 }
{
    let (usage, explanation) = (option.usage(), option.explanation());
    let _ = write!(
        err,
        "error: invalid value '{value}' for '{usage}': {explanation}\n\nFor more information, try '--help'.\n"
    );
    MISUSED
}

/// Adds what an option with this value says. Where its value is spelled otherwise, that is written as the command line's reader writes
/// it, and the exit status is 2; where memory was refused, that is told in this form, and it is 3. Then all is said of slaves that was said
/// before.
pub fn set_fault<E: Write>(
    form: ReportForm,
    faults: &mut SlaveFaults,
    option: SlaveOption,
    value: &str,
    err: &mut E,
) -> Result<(), u8>
    ensures said { OnOk result (IsSaid option value.now faults.old faults.new) }
    ensures misused { result ≡ Err 2 → says option value.now ≡ false }
    ensures failed { result ≡ Err 3 → says option value.now ≡ true }
    ensures kept { OnErr result (IsAsBefore faults.old faults.new) }
    ensures statuses { IfErr result (λ status. (status ≡ 2) ⊎ (status ≡ 3)) }
{
    match say_of_slaves(faults, option, value) {
        Ok(()) => Ok(()),
        Err(WordFault::Spelling) => Err(misspelled(err, option, value)),
        Err(WordFault::OutOfMemory) => Err(tell_words(form, FAILED, "out of memory", err)),
    }
}
