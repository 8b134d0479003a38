ghost use Rattle.std.specs.Prelude.{◌≡◌, ◌≤◌, false, length, IfOk};
ghost use Rattle.cm_text.specs.Input.{ReadsAll, ReadsMore, ReadsUntil, SkipsAll};

use std::alloc::Global;
use std::io::Read;

/// Room for the bytes of one read.
pub type Block = [u8; 16384];

/// More turns than any loop makes. A loop must be known to end, and where an input ends, say, is known only once it is read:
/// so a loop whose end isn't known counts to this.
pub const ENDLESS: u64 = u64::MAX;

/// Why an input was not read.
#[derive(Clone, Copy, Debug, PartialEq, Eq)]
pub enum InputFault {
    /// The reader failed, or gave more bytes than it may.
    Read,
    /// Memory was refused.
    Memory,
}

/// Puts the bytes of one read, at most `most`, behind others. The answer is their number, which is
/// 0 at the end of the input alone.
fn read_more<R: Read>(
    reader: &mut R,
    block: &mut Block,
    bytes: &mut Vec<u8>,
    most: usize,
) -> Result<usize, InputFault>
    ensures { IfOk result (λ n. ReadsMore most (R.remaining reader.old) (R.remaining reader.new)
        bytes.old.items bytes.new.items n) }
{
    let Ok(count) = reader.read(block) else {
        return Err(InputFault::Read);
    };
    if count > most {
        return Err(InputFault::Read);
    }
    if bytes.extend_from_slice(&block[..count]).is_err() {
        return Err(InputFault::Memory);
    }
    Ok(count)
}

/// Puts the bytes of a reader behind others, until there are `enough` or its end is reached; with
/// them there are at most `most`. The answer is whether the end was reached.
pub fn read_until<R: Read>(
    reader: &mut R,
    block: &mut Block,
    bytes: &mut Vec<u8>,
    enough: usize,
    most: usize,
) -> Result<bool, InputFault>
    requires { length bytes.old.items ≤ most }
    ensures read { IfOk result (λ ended. ReadsUntil most
        (R.remaining reader.old) (R.remaining reader.new) bytes.old.items bytes.new.items ended) }
    // Before the end it doesn't stop with fewer bytes than are enough.
    ensures enough { IfOk result (λ ended. ended ≡ false → enough ≤ length bytes.new.items) }
{
    for _ in 0..ENDLESS {
        if bytes.len() >= enough {
            return Ok(false);
        }
        let most = most - bytes.len();
        if read_more(reader, block, bytes, most)? == 0 {
            return Ok(true);
        }
    }
    Err(InputFault::Read)
}

/// All bytes of a reader, which has then been read to its end. They are at most `most`.
pub fn read_input<R: Read>(
    alloc: Global,
    reader: &mut R,
    most: usize,
) -> Result<Vec<u8>, InputFault>
    ensures { IfOk result (λ v.
        ReadsAll most (R.remaining reader.old) (R.remaining reader.new) v.items) }
{
    let mut bytes: Vec<u8> = Vec::new(alloc);
    let mut block: Block = [0u8; 16384];
    if read_until(reader, &mut block, &mut bytes, usize::MAX, most)? {
        Ok(bytes)
    } else {
        Err(InputFault::Read)
    }
}

/// Reads to the end of the input, at most `most` bytes, and keeps none. The answer is their number.
pub fn skip_rest<R: Read>(
    reader: &mut R,
    block: &mut Block,
    most: usize,
) -> Result<usize, InputFault>
    ensures { IfOk result (λ n. SkipsAll most (R.remaining reader.old) (R.remaining reader.new) n) }
{
    let mut skipped = 0;
    for _ in 0..ENDLESS {
        let Ok(count) = reader.read(block) else {
            return Err(InputFault::Read);
        };
        if count == 0 {
            return Ok(skipped);
        }
        if count > most - skipped {
            return Err(InputFault::Read);
        }
        skipped += count;
    }
    Err(InputFault::Read)
}
