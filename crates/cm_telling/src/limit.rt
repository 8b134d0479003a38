ghost use Rattle.std.specs.Prelude.{◌≡◌, ℕ, List, [], ◌∷◌, is_some, slice_get, true};
ghost use Rattle.cm_telling.specs.Limiting.{KeepsLines, behind_message, behind_turn, is_a_second_old, is_open, is_told, left_out_now};
ghost use Rattle.cm_telling.specs.Limiting.{lines_with, none_told, told_more};

/// In which time so many lines are told at most, in ms.
const TIME_MS: u64 = 1000;

/// How often something of one kind is told: at most ten times in any second; what comes beyond is counted, and told by its number.
#[derive(Clone, Copy)]
pub struct Limit {
    /// When the last ten lines were told, in ms, the newest first.
    told: [Option<u64>; 10],
    /// How many messages were left out since.
    left_out: u32,
}

/// Whether a line was told a second ago or before, or never.
fn is_a_second_old(told: Option<u64>, now: u64) -> bool
    ensures { result ≡ is_a_second_old told now }
{
    match told {
        Some(told) => TIME_MS <= now.saturating_sub(told),
        None => true,
    }
}

impl Limit {
    /// Nothing was told.
    pub(crate) fn new() -> Limit
        ensures value { result ≡ none_told }
        ensures lines { KeepsLines result [] }
    {
        Limit {
            told: [None; 10],
            left_out: 0,
        }
    }

    /// Whether a line may be told now: fewer than ten were in the last second.
    fn is_open(&self, now: u64) -> bool
        ensures value { result ≡ is_open self.now now }
        ensures lines { (ts : List ℕ) → KeepsLines self.now ts → result ≡ is_a_second_old (slice_get ts 9) now }
    {
        is_a_second_old(self.told[9], now)
    }

    /// A line is told now.
    fn tell(&mut self, now: u64)
        ensures told { self.new.told ≡ told_more now self.old.told }
        ensures left_out { self.new.left_out ≡ 0 }
        ensures lines { (ts : List ℕ) → KeepsLines self.old ts → KeepsLines self.new (now ∷ ts) }
    {
        let [a, b, c, d, e, f, g, h, i, _] = self.told;
        self.told = [Some(now), a, b, c, d, e, f, g, h, i];
        self.left_out = 0;
    }

    /// A message comes. Whether it is told: a line may be told, and none was left out before it.
    pub(crate) fn take(&mut self, now: u64) -> bool
        ensures told { result ≡ is_told self.old now }
        ensures behind { self.new ≡ behind_message self.old now }
        ensures lines { (ts : List ℕ) → KeepsLines self.old ts → KeepsLines self.new (lines_with result now ts) }
        ensures when { (ts : List ℕ) → KeepsLines self.old ts → result ≡ true → is_a_second_old (slice_get ts 9) now ≡ true }
    {
        let is_told = self.left_out == 0 && self.is_open(now);
        if is_told {
            self.tell(now);
        } else {
            self.left_out = self.left_out.saturating_add(1);
        }
        is_told
    }

    /// How many messages were left out, if that is to be told now.
    pub(crate) fn turn(&mut self, now: u64) -> Option<u32>
        ensures told { result ≡ left_out_now self.old now }
        ensures behind { self.new ≡ behind_turn self.old now }
        ensures lines { (ts : List ℕ) → KeepsLines self.old ts → KeepsLines self.new (lines_with (is_some result) now ts) }
        ensures when { (ts : List ℕ) → KeepsLines self.old ts → is_some result ≡ true
            → is_a_second_old (slice_get ts 9) now ≡ true }
    {
        if self.left_out == 0 || !self.is_open(now) {
            return None;
        }
        let count = self.left_out;
        self.tell(now);
        Some(count)
    }
}
