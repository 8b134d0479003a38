//! What the operator types, which waits until all else that has happened was taken.

ghost use Rattle.std.specs.Prelude.{◌≡◌, IfSome};

use cm_receiving::Notification;

/// What was told of typing and is put off: lines, and behind them that no more are typed.
#[derive(Drop)]
pub(crate) struct Typing {
    lines: u64,
    is_over: bool,
}

impl Typing {
    /// Nothing was typed.
    pub(crate) fn new() -> Typing {
        Typing {
            lines: 0,
            is_over: false,
        }
    }

    /// Whether nothing is put off.
    pub(crate) fn is_empty(&self) -> bool {
        self.lines == 0 && !self.is_over
    }

    /// Puts a notification off, if it is one of typing; another comes back.
    pub(crate) fn put_off(&mut self, notification: Notification) -> Option<Notification>
        ensures { IfSome result (λ h. h ≡ notification) }
    {
        match notification {
            Notification::Typed => {
                self.lines = self.lines.saturating_add(1);
                None
            }
            Notification::NoMoreTyped => {
                self.is_over = true;
                None
            }
            other => Some(other),
        }
    }

    /// What comes next of what is put off.
    pub(crate) fn next(&mut self) -> Option<Notification> {
        if self.lines > 0 {
            self.lines -= 1;
            return Some(Notification::Typed);
        }
        if self.is_over {
            self.is_over = false;
            return Some(Notification::NoMoreTyped);
        }
        None
    }
}
