ghost use Rattle.std.specs.Prelude.{◌≡◌, ◌+◌, ◌<◌, ◌≤◌, ◌^◌, ℕ, List, [], IfNone, IfSome, Some, length, slice_get};
ghost use Rattle.cm_receiving.specs.Places.{HasLineAt};
ghost use Rattle.cm_receiving.specs.Cutting.{IsCounting};

use crate::line_cutter::LineCutter;

/// Cuts what is read into lines, each with its place: how many bytes stand before the one that ends it.
#[derive(Drop)]
pub struct LineCounter {
    lines: LineCutter,
    taken: u64,
}

impl LineCounter {
    /// Nothing was read yet.
    pub fn new() -> LineCounter
        ensures taken { result.taken ≡ 0 }
        ensures counting { (t : List ℕ) → IsCounting t result }
    {
        LineCounter {
            lines: LineCutter::new(),
            taken: 0,
        }
    }

    /// Takes the next byte of what is read. Where it ends a line of 1 to 128 bytes, which is to be read with
    /// [`LineCounter::line`], the answer is the line's place. No other line stands there.
    pub fn take(&mut self, byte: u8) -> Option<u64>
        requires { self.old.taken < 2 ^ 63 }
        ensures taken { self.new.taken ≡ self.old.taken + 1 }
        ensures counting { (t : List ℕ) → slice_get t self.old.taken ≡ Some byte
            → IsCounting t self.old → IsCounting t self.new }
        ensures place { IfSome result (λ place. place ≡ self.old.taken) }
        ensures line { IfSome result (λ place. (t : List ℕ) → slice_get t self.old.taken ≡ Some byte
            → IsCounting t self.old → HasLineAt t place self.new.lines.line.items) }
        ensures only { IfSome result (λ place. (t : List ℕ) → slice_get t self.old.taken ≡ Some byte
            → IsCounting t self.old → (line : List ℕ) → HasLineAt t place line
            → line ≡ self.new.lines.line.items) }
        ensures none { IfNone result ((t : List ℕ) → slice_get t self.old.taken ≡ Some byte
            → IsCounting t self.old → (line : List ℕ) → HasLineAt t self.old.taken line
            → length line ≤ 128 → line ≡ []) }
    {
        let place = self.taken;
        let is_line = self.lines.take(byte);
        self.taken = place + 1;
        if is_line { Some(place) } else { None }
    }

    /// The line that the last byte ended, without that byte.
    pub fn line(&self) -> &[u8]
        ensures { result.now ≡ self.now.lines.line.items }
    {
        self.lines.line()
    }
}
