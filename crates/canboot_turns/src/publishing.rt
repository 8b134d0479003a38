//! How versions of a live run's history are shown to readers who take no lock: the one that watches takes the entries from the
//! register in batches, and shows a version with all of them.

ghost use Rattle.std.specs.Prelude.{◌≡◌, true, IfOk};
ghost use mathlib.Core.List.{IsPrefix};

use crate::register::LiveRegister;
use cm_history::Entry;
use cm_register::RunName;
use cm_versions::{Publisher, VersionReader};
use std::alloc::{AllocError, Global};
use std::sync::Wait;

/// How many entries are taken from the register at once, at most.
const BATCH: usize = 64;

/// How many batches are taken at once, at most: more than a history has.
const MOST_BATCHES: u32 = 16_385;

/// How many readers there are at once, at most: the one that watches, and the one that keeps the file of the status.
const READERS: usize = 2;

/// Who is to show versions of this register's history, and two who read them; nothing is shown yet. Refused where memory is.
pub fn open_versions<K: RunName, R: Wait + Clone + Drop, M: LiveRegister<K, R>>(
    alloc: Global,
    rt: &R,
    register: &M,
) -> Result<(Publisher<K, R>, VersionReader<K>, VersionReader<K>), AllocError> {
    let start = register.past(rt).first(0);
    let theirs = rt.clone()?;
    let publisher = Publisher::new(alloc, theirs, register.network(), start.again(), READERS)?;
    let first = publisher.reader(start.again())?;
    let second = publisher.reader(start)?;
    Ok((publisher, first, second))
}

/// What is taken from the register at once.
#[derive(Drop)]
pub(crate) struct Batches {
    buffer: Vec<Entry>,
    /// There are entries that the publisher was told, and that readers weren't shown.
    is_behind: bool,
}

impl Batches {
    /// Nothing is taken yet.
    pub fn new(alloc: Global) -> Batches {
        Batches {
            buffer: Vec::new(alloc),
            is_behind: false,
        }
    }

    /// Takes the entries that come next from the register, as many as there is room for. Whether there were some.
    fn take<K: RunName, R: Wait + Drop, M: LiveRegister<K, R>>(
        &mut self,
        rt: &R,
        register: &M,
        publisher: &mut Publisher<K, R>,
    ) -> Result<bool, AllocError>
        ensures shown { publisher.new.shown ≡ publisher.old.shown }
    {
        self.buffer.clear();
        self.buffer.reserve(BATCH)?;
        let known = publisher.told();
        let Some(after) = register.entries_from(rt, &known, &mut self.buffer) else {
            return Ok(false);
        };
        if self.buffer.is_empty() {
            return Ok(false);
        }
        self.is_behind = true;
        publisher.tell_all(&after, self.buffer.as_slice())?;
        Ok(true)
    }

    /// Takes all entries that the register has.
    fn take_all<K: RunName, R: Wait + Drop, M: LiveRegister<K, R>>(
        &mut self,
        rt: &R,
        register: &M,
        publisher: &mut Publisher<K, R>,
    ) -> Result<(), AllocError>
        ensures shown { publisher.new.shown ≡ publisher.old.shown }
    {
        for _ in 0..MOST_BATCHES {
            if !self.take(rt, register, publisher)? {
                break;
            }
        }
        Ok(())
    }

    /// Takes all entries that the register has, and where there are some that readers weren't shown, shows them a version with all of
    /// them. Whether it did. Where memory is refused the next time goes on from there. It waits for the lock a batch at a time, and
    /// for readers who are still in the version before the last one.
    pub fn show<K: RunName, R: Wait + Drop, M: LiveRegister<K, R>>(
        &mut self,
        rt: &R,
        register: &M,
        publisher: &mut Publisher<K, R>,
    ) -> Result<bool, AllocError>
        ensures shown { IfOk result (λ is_new. is_new ≡ true → publisher.new.shown ≡ publisher.new.told) }
        ensures later { IsPrefix publisher.old.shown publisher.new.shown }
    {
        self.take_all(rt, register, publisher)?;
        if !self.is_behind {
            return Ok(false);
        }
        publisher.publish()?;
        self.is_behind = false;
        Ok(true)
    }
}
