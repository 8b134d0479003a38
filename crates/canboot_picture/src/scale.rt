//! How a picture is divided into columns, and where these stand.

ghost use Rattle.std.specs.Prelude.{◌≡◌, ◌+◌, ◌*◌, ◌-◌, ◌≤◌, ◌^◌};
ghost use Rattle.canboot_picture.specs.Spans.{left_of, top_of};

/// How a picture is divided into columns.
#[derive(Clone, Copy)]
pub struct Scale {
    /// How many entries a column stands for.
    pub width: u32,
    /// How wide a column is, in pixels.
    pub pitch: u32,
    /// How many entries there are.
    pub entries: u32,
}

/// Columns beside each other in which a node is shown in one state.
#[derive(Clone, Copy)]
pub struct Span {
    /// Its first column; the leftmost one is 0.
    pub first: u32,
    /// The column behind its last one.
    pub end: u32,
    /// The state, as object 1F82h reads it: 0 unknown, 1 missing, 4 stopped, 5 operational, 127 pre-operational.
    pub state: u8,
}

/// Both multiplied.
pub(crate) fn product(one: u32, other: u32) -> u64
    ensures value { result ≡ one * other }
    ensures small { result ≤ 2 ^ 64 - 2 ^ 33 + 1 }
{
    one as u64 * other as u64
}

impl Scale {
    /// Where a column begins, in pixels from the left.
    pub(crate) fn left_of(&self, column: u32) -> u64
        ensures value { result ≡ left_of self.now column }
        ensures small { result ≤ 2 ^ 64 - 2 ^ 33 + 97 }
    {
        96 + product(column, self.pitch)
    }
}

/// Where a lane begins, in pixels from the top. The manager's is lane 0.
pub(crate) fn top_of(row: u32) -> u64
    ensures value { result ≡ top_of row }
    ensures small { result ≤ 2 ^ 38 }
{
    64 + row as u64 * 30
}
