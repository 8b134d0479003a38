//! The text of a slave that is made of a device file, read back before it is given.

ghost use Rattle.std.specs.Prelude.{◌++◌, IfOk};
ghost use Rattle.cm_netlist.specs.ReadBack.{IsListOf, manager_text};
ghost use Rattle.canboot_import.specs.Imports.{IsImported};
ghost use Rattle.canboot_import.specs.LinesRead.{AreTold};

use crate::imported::{ImportFault, ImportWords, Imported, slave_of};
use crate::slave_text::{put_all_unwritten, put_imported, put_uncompared};
use cm_device::{FileFault, read_items};
use cm_netlist::is_read_back;
use std::alloc::Global;
use std::io::{self, Write};

/// A slave's text, and what of its file it doesn't have.
#[derive(Drop)]
pub(crate) struct ImportedText {
    /// Its table of a network list in TOML.
    pub slave: Vec<u8>,
    /// A line for each value of the file that its device isn't compared with though it stands there, and for each that is no write.
    pub told: Vec<u8>,
}

/// The lines of what isn't compared with the device or written to it.
fn told_of(alloc: Global, slave: &Imported<'_>) -> io::Result<Vec<u8>>
    ensures { IfOk result (λ t. AreTold slave.now.identity t.items) }
{
    let mut told = Vec::new(alloc);
    put_uncompared(alloc, &slave.identity, "not compared: ", &mut told)?;
    let mut behind = Vec::new(alloc);
    let unwritten = slave.settings.unwritten.as_slice();
    put_all_unwritten(unwritten, "not written: ", &mut behind)?;
    told.write_all(behind.as_slice())?;
    Ok(told)
}

/// The slave's text, which is read back before.
fn text_of<'a>(alloc: Global, slave: &Imported<'a>) -> Result<ImportedText, ImportFault<'a>>
    ensures list { IfOk result (λ t.
        IsListOf (manager_text slave.now.id ++ t.slave.items) slave.now.id slave.now.entry) }
    ensures told { IfOk result (λ t. AreTold slave.now.identity t.told.items) }
{
    let mut text = Vec::new(alloc);
    if put_imported(alloc, slave, &mut text).is_err() {
        return Err(ImportFault::File(FileFault::OutOfMemory));
    }
    let Ok(told) = told_of(alloc, slave) else {
        return Err(ImportFault::File(FileFault::OutOfMemory));
    };
    match is_read_back(alloc, text.as_slice(), slave.id, &slave.entry) {
        Ok(true) => Ok(ImportedText { slave: text, told }),
        Ok(false) => Err(ImportFault::NoList),
        Err(_) => Err(ImportFault::File(FileFault::OutOfMemory)),
    }
}

/// The slave that a device file gives, as a table of a network list in TOML.
///
/// `file` is an electronic data sheet or a device configuration file (CiA 306). The slave's writes are the values that it gives of
/// objects that can be written, in an order that devices accept (CiA 301); what can't be a write is told in
/// [`ImportedText::told`], and so is what stands in the file as a part of its identity and is no number. Of a mandatory slave that
/// is a fault. The text is read back before it is given.
pub(crate) fn import<'a>(
    alloc: Global,
    file: &'a [u8],
    words: ImportWords,
) -> Result<ImportedText, ImportFault<'a>>
    ensures { IfOk result (λ t. IsImported file.now words t.slave.items t.told.items) }
{
    match read_items(alloc, file) {
        Ok(items) => {
            let slave = slave_of(alloc, items.as_slice(), &words)?;
            text_of(alloc, &slave)
        }
        Err(fault) => Err(ImportFault::File(fault)),
    }
}
