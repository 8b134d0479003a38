ghost use Rattle.std.specs.Prelude.{◌≡◌};
ghost use Rattle.cm_bus.specs.Patience.{is_late, next_part, patience_of, waited, waited_in_vain};

/// How long a part of a wait is at most, in ms.
const PART_MS: u32 = 10;

/// How much later a part may end than it should, in ms.
const MOST_LATE_MS: u64 = 20;

/// How many parts of one wait aren't counted at most, since they ended late.
const MOST_PARDONED: u8 = 50;

/// How much longer an answer is waited for. It is waited for in parts of 10 ms. Time in which the process didn't run is no
/// waiting time: a part that ends late, by more than 20 ms, isn't counted, of 50 in one wait, so that what came meanwhile is
/// heard first.
#[derive(Clone, Copy, Debug, PartialEq, Eq)]
pub struct Patience {
    /// So many ms.
    left_ms: u32,
    /// So many parts more may end late without being counted.
    pardons: u8,
}

/// Whether a part of so many ms ended late, behind so many ms.
fn is_late(part_ms: u32, took_ms: u64) -> bool
    ensures { result ≡ is_late part_ms took_ms }
{
    u64::from(part_ms) + MOST_LATE_MS < took_ms
}

impl Patience {
    /// Nothing is waited for.
    pub fn none() -> Patience
        ensures { result ≡ patience_of 0 }
    {
        Patience::new(0)
    }

    /// It is waited for so many ms.
    pub(crate) fn new(wait_ms: u32) -> Patience
        ensures { result ≡ patience_of wait_ms }
    {
        Patience {
            left_ms: wait_ms,
            pardons: MOST_PARDONED,
        }
    }

    /// How long the next part of the wait is, in ms; `None` once it is over.
    pub(crate) fn next_part(&self) -> Option<u32>
        ensures { result ≡ next_part self.now }
    {
        if self.left_ms == 0 {
            None
        } else {
            Some(self.left_ms.min(PART_MS))
        }
    }

    /// So many ms were waited, until something was heard.
    pub(crate) fn wait(&mut self, took_ms: u64)
        ensures { self.new ≡ waited self.old took_ms }
    {
        let took = took_ms.min(u64::from(PART_MS)) as u32;
        self.left_ms = self.left_ms.saturating_sub(took);
    }

    /// A part of the wait has ended, behind so many ms, and nothing was heard.
    pub(crate) fn wait_in_vain(&mut self, part_ms: u32, took_ms: u64)
        ensures { self.new ≡ waited_in_vain self.old part_ms took_ms }
    {
        if is_late(part_ms, took_ms) && 0 < self.pardons {
            self.pardons -= 1;
        } else {
            self.left_ms = self.left_ms.saturating_sub(part_ms);
        }
    }
}
