//! What a register or a book leaves that closes.

use cm_register::{Book, Closed, Register, RunName, Seat, Wire};

/// How many entries there are, and how many lists of a seat's calls.
#[derive(Clone, Copy)]
pub(crate) struct Left {
    pub(crate) entries: usize,
    pub(crate) lists: usize,
}

fn left_in<W: Wire>(closed: &Closed<W>) -> Left {
    Left {
        entries: closed.history.len(),
        lists: closed.lists.len(),
    }
}

/// Closes a register. `None` where it doesn't close with these seats.
pub(crate) fn left_by<W: Wire, K: RunName>(
    register: Register<W, K>,
    seats: Vec<Seat<K>>,
) -> Option<Left> {
    match register.close(seats) {
        Ok(closed) => Some(left_in(&closed)),
        Err(_) => None,
    }
}

/// Closes a book. `None` where it doesn't close with these seats.
pub(crate) fn left_by_book<W: Wire, K: RunName>(
    book: Book<W, K>,
    seats: Vec<Seat<K>>,
) -> Option<Left> {
    match book.close(seats) {
        Ok(closed) => Some(left_in(&closed)),
        Err(_) => None,
    }
}
