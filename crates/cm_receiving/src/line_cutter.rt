ghost use Rattle.std.specs.Prelude.{◌≡◌, ◌<◌, ◌≤◌, ◌++◌, ◌∷◌, ◌⊎◌, [], ℕ, List, IsTrue, IsFalse, length};
ghost use Rattle.cm_receiving.specs.Places.{EndsLine, EndsWithLine};
ghost use Rattle.cm_receiving.specs.Cutting.{IsCutting};

use arrayvec::ArrayVec;

/// Cuts bytes into lines, each of up to 128 bytes. A longer line is passed over, in the memory of a short one.
#[derive(Drop)]
pub struct LineCutter {
    line: ArrayVec<u8, 128>,
    is_too_long: bool,
    is_ended: bool,
}

impl LineCutter {
    /// Nothing was read yet.
    pub fn new() -> LineCutter
        ensures { IsCutting [] result }
    {
        LineCutter {
            line: ArrayVec::new(),
            is_too_long: false,
            is_ended: false,
        }
    }

    /// Begins the next line, where one was ended.
    fn begin(&mut self)
        ensures going { IsFalse self.new.is_ended }
        ensures line { (taken : List ℕ) → IsCutting taken self.old → IsFalse self.new.is_too_long
            → EndsWithLine taken self.new.line.items }
        ensures long { (taken : List ℕ) → IsCutting taken self.old → IsTrue self.new.is_too_long
            → (line : List ℕ) → EndsWithLine taken line → 128 < length line }
    {
        if self.is_ended {
            self.line.clear();
            self.is_too_long = false;
            self.is_ended = false;
        }
    }

    /// Ends the line. The answer is whether it is to be read.
    fn end(&mut self) -> bool
        ensures ended { IsTrue self.new.is_ended }
        ensures line { self.new.line.items ≡ self.old.line.items }
        ensures whole { IsTrue result → IsFalse self.old.is_too_long }
        ensures passed { IsFalse result → IsFalse self.old.is_too_long → self.old.line.items ≡ [] }
    {
        self.is_ended = true;
        !self.is_too_long && !self.line.is_empty()
    }

    /// Takes a byte of the line.
    fn add(&mut self, byte: u8)
        ensures going { self.new.is_ended ≡ self.old.is_ended }
        ensures added { IsFalse self.new.is_too_long → IsFalse self.old.is_too_long
            × (self.new.line.items ≡ self.old.line.items ++ byte ∷ []) }
        ensures long { IsTrue self.new.is_too_long → IsFalse self.old.is_too_long
            → 128 ≤ length self.old.line.items }
    {
        match self.line.try_push(byte) {
            Ok(()) => {}
            Err(_) => self.is_too_long = true,
        }
    }

    /// Takes the next byte. The answer is whether it ends a line that is read with [`LineCutter::line`]: a line
    /// feed and a carriage return do, where the line has 1 to 128 bytes.
    pub fn take(&mut self, byte: u8) -> bool
        ensures cutting { (taken : List ℕ) → IsCutting taken self.old
            → IsCutting (taken ++ byte ∷ []) self.new }
        ensures line { IsTrue result → (taken : List ℕ) → IsCutting taken self.old
            → EndsLine byte × EndsWithLine taken self.new.line.items }
        ensures none { IsFalse result → (taken : List ℕ) → IsCutting taken self.old → EndsLine byte
            → (line : List ℕ) → EndsWithLine taken line → length line ≤ 128 → line ≡ [] }
    {
        self.begin();
        if byte == b'\n' || byte == b'\r' {
            return self.end();
        }
        self.add(byte);
        false
    }

    /// The line that the last byte ended, without that byte.
    pub fn line(&self) -> &[u8]
        ensures { result.now ≡ self.now.line.items }
    {
        self.line.as_slice()
    }
}
