ghost use Rattle.std.specs.Prelude.{◌≡◌, ◌≤◌, ◌∷◌, [], MatchOption, IfSome, IfNone};
ghost use Rattle.cm_text.specs.Words.{split};
ghost use Rattle.cm_text.specs.Decimal.{dec_of};
ghost use Rattle.cm_text.specs.Hex.{two_of, four_of, eight_of};
ghost use Rattle.cm_text.specs.FieldReading.{with_rest, field_at, word_is, is_empty};
ghost use Rattle.cm_text.specs.Ends.{IsOfOtherWidth, IsFirst};

use crate::decimal::read_decimal;
use crate::hex::{read_hex2, read_hex4, read_hex8};
use crate::near::{behind_text, first, near_decimal, near_field};
use crate::places::cut;

/// The parts of some bytes that are still to be read: the fields of a line, with a space as
/// separator, or the lines of a text, with a line feed. Contracts see the list of these parts.
///
/// Where a reading method gives `None`, nothing is said of what is left then, unless it says so.
#[derive(Clone, Copy)]
pub struct Fields<'a> {
    separator: u8,
    rest: Option<&'a [u8]>,
}

impl<'a> Fields<'a> {
    ghost use Rattle.cm_text.specs.Left.{left};

    /// All parts of the bytes between the separators; so empty bytes are one empty part.
    pub fn new(bytes: &'a [u8], separator: u8) -> Fields<'a>
        ensures { left result ≡ split separator bytes.now }
    {
        Fields {
            separator,
            rest: Some(bytes),
        }
    }

    /// Whether no part is left.
    pub fn is_done(&self) -> bool
        ensures { result ≡ is_empty (left self.now) }
    {
        self.rest.is_none()
    }

    /// The next part, which may be empty; `None` exactly where none is left, and then none is left
    /// afterwards.
    pub fn next_field(&mut self) -> Option<&'a [u8]>
        ensures { MatchOption result
            ((left self.old ≡ []) × (left self.new ≡ []))
            (λ w. left self.old ≡ w.now ∷ left self.new) }
    {
        let (word, rest) = cut(self.rest?, self.separator);
        self.rest = rest;
        Some(word)
    }

    /// `Some` where the next field is just this text; `None` where it is another, or no field is
    /// left, and then nothing was read.
    #[inline(always)]
    #[tactic(auto, unfolding(crate::specs::FieldReading::field_at), using(crate::proofs::Fronts::keyword_again))]
    pub fn keyword(&mut self, text: &[u8]) -> Option<()>
        ensures value { field_at (word_is text.now) (left self.old)
            ≡ with_rest result (left self.new) }
        ensures taken { IfSome result (λ u. left self.old ≡ text.now ∷ left self.new) }
        ensures stays { IfNone result (left self.new ≡ left self.old) }
    {
        self.rest = behind_text(self.rest?, text, self.separator)?;
        Some(())
    }

    /// The number, 0 to `most`, that the next field spells in decimal, as `read_decimal` reads it;
    /// `None` where it spells none, or no field is left.
    #[inline(always)]
    pub fn decimal(&mut self, most: u64) -> Option<u64>
        ensures value { field_at (dec_of most) (left self.old) ≡ with_rest result (left self.new) }
        ensures small { IfSome result (λ n. n ≤ most) }
    {
        if self.separator == b' '
            && let Some(bytes) = self.rest
            && let Some((n, rest)) = near_decimal(bytes, most)
        {
            self.rest = Some(rest);
            return Some(n);
        }
        self.any_decimal(most)
    }

    /// The byte that the next field spells in two digits, as `read_hex2` reads it; `None` where it
    /// spells none, or no field is left.
    pub fn hex2(&mut self) -> Option<u8>
        ensures { field_at two_of (left self.old) ≡ with_rest result (left self.new) }
    {
        read_hex2(self.word(2)?)
    }

    /// The number of 16 bits that the next field spells in four digits, as `read_hex4` reads it;
    /// `None` where it spells none, or no field is left.
    pub fn hex4(&mut self) -> Option<u16>
        ensures { field_at four_of (left self.old) ≡ with_rest result (left self.new) }
    {
        read_hex4(self.word(4)?)
    }

    /// The number of 32 bits that the next field spells in eight digits, as `read_hex8` reads it;
    /// `None` where it spells none, or no field is left.
    pub fn hex8(&mut self) -> Option<u32>
        ensures { field_at eight_of (left self.old) ≡ with_rest result (left self.new) }
    {
        self.hex8_or_stay()
    }

    /// As `hex8`; and where it gives `None`, nothing was read.
    #[inline(always)]
    pub fn hex8_or_stay(&mut self) -> Option<u32>
        ensures value { field_at eight_of (left self.old) ≡ with_rest result (left self.new) }
        ensures stays { IfNone result (left self.new ≡ left self.old) }
    {
        if self.separator == b' '
            && let Some(bytes) = self.rest
            && let Some((word, rest)) = near_field(bytes, 8)
            && let Some(n) = read_hex8(word)
        {
            self.rest = Some(rest);
            return Some(n);
        }
        self.any_hex8_or_stay()
    }

    // The next field, which is read, if it has so many bytes and they are plain; what else is no
    // such field.
    #[inline(always)]
    fn word(&mut self, width: usize) -> Option<&'a [u8]>
        ensures { MatchOption result
            (IsOfOtherWidth width (left self.old))
            (λ w. IsFirst width w.now (left self.new) (left self.old)) }
    {
        let bytes = self.rest?;
        let (word, rest) = if self.separator == b' ' {
            first(bytes, width)?
        } else {
            cut(bytes, self.separator)
        };
        self.rest = rest;
        Some(word)
    }

    // As `decimal`, whatever the separator is, however many digits there are and wherever they end.
    #[inline(never)]
    #[tactic(auto, unfolding(crate::specs::FieldReading::field_at))]
    fn any_decimal(&mut self, most: u64) -> Option<u64>
        ensures value { field_at (dec_of most) (left self.old) ≡ with_rest result (left self.new) }
        ensures small { IfSome result (λ n. n ≤ most) }
    {
        read_decimal(self.next_field()?, most)
    }

    // As `hex8_or_stay`, whatever the separator is and wherever the field ends.
    #[inline(never)]
    fn any_hex8_or_stay(&mut self) -> Option<u32>
        ensures value { field_at eight_of (left self.old) ≡ with_rest result (left self.new) }
        ensures stays { IfNone result (left self.new ≡ left self.old) }
    {
        let mut ahead = *self;
        let n = read_hex8(ahead.word(8)?)?;
        *self = ahead;
        Some(n)
    }
}
