//! By what a live run tells what happens: in words, and to other programs.

use crate::events::Events;
use crate::given_up::GivenUps;
use cm_events::Event;
use cm_telling::Notices;
use cm_words::{Nodes, RunEnds, say};
use std::fmt::Display;
use std::io::Write;
use std::sync::Wait;
use std::time::Clock;

/// By what is told what happens: in words, and to other programs.
#[derive(Drop)]
pub struct Teller {
    pub events: Events,
    pub notices: Notices,
    pub given_up: GivenUps,
    /// It was told that a line of the journal couldn't be written.
    is_unrecorded_told: bool,
    /// It was told that the file of the status couldn't be written.
    is_unshown_told: bool,
}

impl Teller {
    /// Nothing is told yet.
    pub fn new(events: Events) -> Teller {
        Teller {
            events,
            notices: Notices::new(),
            given_up: GivenUps::new(),
            is_unrecorded_told: false,
            is_unshown_told: false,
        }
    }

    /// Says this, and tells other programs the same.
    pub fn tell<R: Wait + Clock, E: Write, D: Display>(
        &mut self,
        err: &mut E,
        rt: &R,
        words: &D,
        event: &Event<'_>,
    ) {
        let _ = say(err, words);
        self.events.tell(rt, event);
    }

    /// Tells once what can't be written: the journal and the file of the status, where it is so, and the events.
    pub fn tell_unwritten<R: Wait + Clock, E: Write>(
        &mut self,
        err: &mut E,
        rt: &R,
        is_unrecorded: bool,
        is_unshown: bool,
    ) {
        if is_unrecorded && !self.is_unrecorded_told {
            self.is_unrecorded_told = true;
            let words = "journal: write failed; what follows isn't recorded";
            self.tell(err, rt, &words, &Event::JournalFailed);
        }
        if is_unshown && !self.is_unshown_told {
            self.is_unshown_told = true;
            let _ = say(err, &"status: write failed; it is tried again each second");
        }
        if self.events.take_cut() {
            let _ = say(
                err,
                &"events: write failed; what follows isn't written there",
            );
        }
    }

    /// Tells that the run ends, and which nodes run on.
    pub fn tell_end<R: Wait + Clock, E: Write>(
        &mut self,
        err: &mut E,
        rt: &R,
        running: &Option<Nodes>,
    ) {
        let event = Event::RunEnds(Nodes::as_list(running));
        self.tell(err, rt, &RunEnds(running), &event);
    }
}
