//! Numbers in hexadecimal digits, as a journal spells them.

ghost use Rattle.std.specs.Prelude.{Some};
ghost use Rattle.std.specs.Fmt.{DisplaysOnOk};
ghost use Rattle.cm_text.specs.Hex.{hex_eight, hex_four, hex_two};

use cm_text::{hex2, hex4, hex8};
use std::{fmt, str};

/// Writes digits.
fn write_digits<W: fmt::Write>(f: &mut fmt::Formatter<W>, digits: &[u8]) -> fmt::Result
    ensures { DisplaysOnOk W.write_str_gives f.old result (Some digits.now) f.new }
{
    match str::from_utf8(digits) {
        Ok(text) => f.write_str(text),
        Err(_) => Err(fmt::Error),
    }
}

/// A byte in two digits, `0` to `9` and `A` to `F`.
#[derive(Clone, Copy)]
pub struct HexTwo(pub u8);

impl fmt::Display for HexTwo {
    ghost output = { λ n. Some (hex_two n.0) };

    fn fmt<W: fmt::Write>(&self, f: &mut fmt::Formatter<W>) -> fmt::Result {
        write_digits(f, &hex2(self.0))
    }
}

/// A number of 16 bits in four such digits, the high one first.
#[derive(Clone, Copy)]
pub struct HexFour(pub u16);

impl fmt::Display for HexFour {
    ghost output = { λ n. Some (hex_four n.0) };

    fn fmt<W: fmt::Write>(&self, f: &mut fmt::Formatter<W>) -> fmt::Result {
        write_digits(f, &hex4(self.0))
    }
}

/// A number of 32 bits in eight such digits, the high one first.
#[derive(Clone, Copy)]
pub struct HexEight(pub u32);

impl fmt::Display for HexEight {
    ghost output = { λ n. Some (hex_eight n.0) };

    fn fmt<W: fmt::Write>(&self, f: &mut fmt::Formatter<W>) -> fmt::Result {
        write_digits(f, &hex8(self.0))
    }
}
