ghost use Rattle.std.specs.Prelude.{◌≡◌, ◌++◌, ◌∷◌, [], Bool, List, false};
ghost use Rattle.cm_receiving.specs.Strangers.{behind_byte, ends_line, is_told, is_told_behind, left_behind, left_of, tells};

/// How many lines are read, of which none is a frame, until that is told.
const ENOUGH: u8 = 16;

/// Counts the lines of no frame that are read before the first frame.
#[derive(Clone, Copy, Debug, PartialEq, Eq)]
pub(crate) struct Strangers {
    /// How many are left until it is told that none is a frame; 0 once it was told, or a frame was read.
    left: u8,
    /// Whether the line that is read has bytes.
    is_begun: bool,
}

/// Whether the byte ends a line.
fn ends_line(byte: u8) -> bool
    ensures { result ≡ ends_line byte }
{
    byte == b'\n' || byte == b'\r'
}

/// How many lines are left until it is told, behind a line.
#[tactic(auto, using(crate::proofs::Untold::left_more))]
fn left_behind(left: u8, is_frame: bool) -> u8
    ensures value { result ≡ left_behind left is_frame }
    ensures lines { (lines : List Bool) → left ≡ left_of lines → result ≡ left_of (lines ++ is_frame ∷ []) }
{
    if is_frame { 0 } else { left.saturating_sub(1) }
}

/// Whether it is told behind a line.
#[tactic(auto, using(crate::proofs::Untold::told_more))]
fn is_told(left: u8, is_frame: bool) -> bool
    ensures value { result ≡ is_told left is_frame }
    ensures lines { (lines : List Bool) → left ≡ left_of lines → result ≡ is_told_behind (lines ++ is_frame ∷ []) }
{
    !is_frame && left == 1
}

impl Strangers {
    /// Nothing was read yet.
    pub(crate) fn new() -> Strangers
        ensures { result ≡ record { left = 16; is_begun = false } }
    {
        Strangers {
            left: ENOUGH,
            is_begun: false,
        }
    }

    /// Takes the next byte, and whether it ends the line of a frame. The answer is whether it is to be told now that no
    /// line is a frame.
    pub(crate) fn take(&mut self, byte: u8, is_frame: bool) -> bool
        ensures behind { self.new ≡ behind_byte self.old byte is_frame }
        ensures told { result ≡ tells self.old byte is_frame }
    {
        let is_whole = self.is_begun && ends_line(byte);
        self.is_begun = !ends_line(byte);
        if !is_whole {
            return false;
        }
        let left = self.left;
        self.left = left_behind(left, is_frame);
        is_told(left, is_frame)
    }
}
