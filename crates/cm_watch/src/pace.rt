ghost use Rattle.std.specs.Prelude.{◌≡◌, None, is_none};
ghost use Rattle.cm_watch.specs.Paces.{behind_at, is_caught_up, pace_after, since_look, still_at, waited_since};

/// How late a look at the input may come, in ms.
const MOST_LATE_MS: u64 = 20;

/// For how long nothing is read once all that came was read, in ms.
const STILL_MS: u64 = 20;

/// How long what is received is waited for at most, in ms.
const MOST_WAIT_MS: u64 = 1000;

/// When the time may be looked at. A process that was stopped and goes on finds in its input what came meanwhile: until
/// that was read, no slave is late. So behind a look at the input that comes late, by more than 20 ms, it is waited
/// until nothing is read for 20 ms, at most a second.
#[derive(Clone, Copy)]
pub struct Pace {
    /// When the input was looked at last, in ms.
    looked: Option<u64>,
    /// How many bytes were read by then.
    received: u64,
    /// Since when nothing was read, by the looks so far.
    still: u64,
    /// Since when what is received is waited for.
    behind: Option<u64>,
}

/// Since when what is received is waited for.
fn waited_since(since: Option<u64>, now: u64, ago: u64) -> Option<u64>
    ensures { result ≡ waited_since since now ago }
{
    if MOST_WAIT_MS <= ago {
        return Some(now);
    }
    if MOST_LATE_MS < ago {
        return Some(since.unwrap_or(now));
    }
    since
}

impl Pace {
    /// The input wasn't looked at yet.
    pub fn new() -> Pace
        ensures { result ≡ record { looked = None; received = 0; still = 0; behind = None } }
    {
        Pace {
            looked: None,
            received: 0,
            still: 0,
            behind: None,
        }
    }

    /// How long ago the input was looked at, in ms.
    fn since_look(&self, now: u64) -> u64
        ensures { result ≡ since_look self.now.looked now }
    {
        match self.looked {
            Some(looked) => now.saturating_sub(looked),
            None => 0,
        }
    }

    /// Since when nothing was read.
    fn still_at(&self, now: u64, received: u64) -> u64
        ensures { result ≡ still_at self.now now received }
    {
        if self.since_look(now) <= MOST_LATE_MS && received == self.received {
            self.still
        } else {
            now
        }
    }

    /// Whether what is received needn't be waited for any more.
    fn is_caught_up(&self, now: u64, received: u64, since: u64) -> bool
        ensures { result ≡ is_caught_up self.now now received since }
    {
        MOST_WAIT_MS <= now.saturating_sub(since)
            || STILL_MS <= now.saturating_sub(self.still_at(now, received))
    }

    /// Since when what is received is waited for, if it is.
    fn behind_at(&self, now: u64, received: u64) -> Option<u64>
        ensures { result ≡ behind_at self.now now received }
    {
        let since = waited_since(self.behind, now, self.since_look(now))?;
        if self.is_caught_up(now, received, since) {
            None
        } else {
            Some(since)
        }
    }

    /// Looks at the input at this time, in ms, of which so many bytes were read: whether the time may be looked at.
    pub fn look(&mut self, now_ms: u64, received: u64) -> bool
        ensures answer { result ≡ is_none (behind_at self.old now_ms received) }
        ensures kept { self.new ≡ pace_after self.old now_ms received }
    {
        let still = self.still_at(now_ms, received);
        let behind = self.behind_at(now_ms, received);
        *self = Pace {
            looked: Some(now_ms),
            received,
            still,
            behind,
        };
        behind.is_none()
    }
}
