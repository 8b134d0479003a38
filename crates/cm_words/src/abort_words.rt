//! What SDO abort codes say (CiA 301, SDO abort codes).

ghost use Rattle.std.specs.Prelude.{◌≡◌};
ghost use Rattle.cm_words.specs.AbortCodes.{abort_words, access_words, device_words, value_words};

/// What stands behind an SDO abort code of the device.
fn device_words(code: u32) -> &'static str
    ensures { result.now ≡ device_words code }
{
    match code {
        0x0800_0000 => ": general error",
        0x0800_0020 => ": data cannot be transferred or stored to the application",
        0x0800_0021 => {
            ": data cannot be transferred or stored to the application because of local control"
        }
        0x0800_0022 => {
            ": data cannot be transferred or stored to the application because of the present device state"
        }
        0x0800_0023 => {
            ": object dictionary dynamic generation fails or no object dictionary is present"
        }
        0x0800_0024 => ": no data available",
        _ => "",
    }
}

/// What stands behind an SDO abort code of a value, or of the device.
fn value_words(code: u32) -> &'static str
    ensures { result.now ≡ value_words code }
{
    match code {
        0x0607_0010 => ": data type does not match, length of service parameter does not match",
        0x0607_0012 => ": data type does not match, length of service parameter too high",
        0x0607_0013 => ": data type does not match, length of service parameter too low",
        0x0609_0011 => ": sub-index does not exist",
        0x0609_0030 => ": invalid value for parameter",
        0x0609_0031 => ": value of parameter written too high",
        0x0609_0032 => ": value of parameter written too low",
        0x0609_0036 => ": maximum value is less than minimum value",
        0x060A_0023 => ": resource not available: SDO connection",
        _ => device_words(code),
    }
}

/// What stands behind an SDO abort code of access or mapping, of a value, or of the device.
fn access_words(code: u32) -> &'static str
    ensures { result.now ≡ access_words code }
{
    match code {
        0x0601_0000 => ": unsupported access to an object",
        0x0601_0001 => ": attempt to read a write only object",
        0x0601_0002 => ": attempt to write a read only object",
        0x0602_0000 => ": object does not exist in the object dictionary",
        0x0604_0041 => ": object cannot be mapped to the PDO",
        0x0604_0042 => {
            ": the number and length of the objects to be mapped would exceed PDO length"
        }
        0x0604_0043 => ": general parameter incompatibility reason",
        0x0604_0047 => ": general internal incompatibility in the device",
        0x0606_0000 => ": access failed due to a hardware error",
        _ => value_words(code),
    }
}

/// What stands behind an SDO abort code: its words; nothing behind one that CiA 301 doesn't have.
pub(crate) fn abort_words(code: u32) -> &'static str
    ensures { result.now ≡ abort_words code }
{
    match code {
        0x0503_0000 => ": toggle bit not alternated",
        0x0504_0000 => ": SDO protocol timed out",
        0x0504_0001 => ": client or server command specifier not valid or unknown",
        0x0504_0002 => ": invalid block size",
        0x0504_0003 => ": invalid sequence number",
        0x0504_0004 => ": CRC error",
        0x0504_0005 => ": out of memory",
        _ => access_words(code),
    }
}
