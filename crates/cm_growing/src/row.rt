//! The words that readers look at, and the steps that change them.
ghost use Rattle.std.specs.Prelude.{◌≡◌, ◌≤◌, ◌<◌, ◌-◌, [], ◌∷◌, ◌++◌, ℕ, None, true, List, length};
ghost use Rattle.std.specs.Prelude.{reverse, slice_set, take, IsTrue};
ghost use mathlib.Core.List.{IsPrefix};
ghost use Rattle.logbook.specs.Pages.{Cell, cell};
ghost use Rattle.cm_netlist.specs.Network.{listing};
ghost use Rattle.cm_history.specs.Legal.{IsAnswered, most_entries};
ghost use Rattle.cm_growing.specs.Items.{IsOf, IsSame, entries_in, shown_at, since_in};
ghost use Rattle.cm_growing.specs.Row.{AreWords, Found, HasRow, IsAdded, IsPending, IsReady};
ghost use Rattle.cm_growing.specs.Words.{word_since};
ghost use Rattle.cm_growing.specs.declared.log_item.LogItem.{LogItem as Item};

use crate::current::Current;
use crate::history_name::HistoryName;
use crate::log_item::LogItem;
use crate::row_rule::{
    Adding, AskEntry, AskMoved, AskShown, AskStored, End, Look, NoGain, Put, RowRule, SeenLog,
    Storing,
};
use crate::status::{GONE, NodeWord, Status};
use cm_history::Entry;
use cm_nmt::NodeId;
use logbook::{Plain, Word};
use std::marker::PhantomData;

/// The words of a row.
pub(crate) type Words = Vec<Word<LogItem, u64, RowRule>>;

/// A word for the status, and one for each node, under the node's ID.
#[derive(Drop)]
pub(crate) struct Row<K: HistoryName> {
    words: Words,
    of: PhantomData<K>,
    ghost words_are: { AreWords K.log words.items },
}

impl<K: HistoryName> Row<K> {
    /// The row of these words.
    pub(crate) fn of(words: Words) -> Row<K>
        requires { AreWords K.log words.items }
    {
        Row {
            words,
            of: PhantomData,
        }
    }

    /// The number that is in a word now.
    #[inline(always)]
    pub(crate) fn look(&self, key: usize, seen: &mut SeenLog) -> u64
        requires { (key < 128) × (seen.old.book ≡ K.log) }
        ensures book { seen.new.book ≡ seen.old.book }
        ensures later { IsPrefix seen.old.log seen.new.log }
        ensures found { Found key result seen.new.log }
    {
        let mut offer = seen.plain::<NoGain, u64, AskShown>(&0);
        self.words[key].load::<Look, NoGain>(seen, &mut offer)
    }

    /// Changes a word, and adds an item to the log, where the word has the old number.
    #[inline(always)]
    fn put<X, A: Plain<X, LogItem, u64>>(
        &self,
        key: usize,
        old: u64,
        new: u64,
        about: &X,
        seen: &mut SeenLog,
    ) -> bool
        requires key { (key < 128) × (seen.old.book ≡ K.log) × (A.state about.now ≡ None) }
        requires keeps { (cells : List Cell) (log : List Item) → HasRow cells log
            → IsPrefix seen.old.log log → (cell cells key).0 ≡ old
            → HasRow (slice_set cells key (new, true)) (log ++ A.ask about.now ∷ []) }
        ensures book { seen.new.book ≡ seen.old.book }
        ensures later { IsPrefix seen.old.log seen.new.log }
        ensures added { IsTrue result → (log : List Item) × Found key old log
            × IsPrefix seen.old.log log × (seen.new.log ≡ log ++ A.ask about.now ∷ []) }
    {
        let mut offer = seen.plain::<NoGain, X, A>(about);
        let mut pen = seen.no_pen();
        let found = self.words[key].compare_exchange::<Put, NoGain>(
            old, new, seen, &mut offer, &mut pen,
        );
        found == old
    }

    /// Adds the next entry to the log, where the history has so many, and the first word is this. The words of all
    /// nodes are right with so many, and the first word has no node's state then.
    #[inline(always)]
    pub(crate) fn announce(
        &self,
        count: u64,
        entry: &Entry,
        from: &Current,
        seen: &mut SeenLog,
    ) -> bool
        requires of { (seen.old.book ≡ K.log) × IsOf K.net seen.old.log }
        requires count { (count < most_entries) × (count ≤ length (entries_in seen.old.log)) }
        requires answered { IsAnswered (listing K.net) entry.now
            (reverse (take count (entries_in seen.old.log))) }
        requires same { (t : ℕ) → 1 ≤ t → t < 128 → IsSame (listing K.net) seen.old.log count t }
        ensures book { seen.new.book ≡ seen.old.book }
        ensures later { IsPrefix seen.old.log seen.new.log }
        ensures next { IsTrue result → IsPending (listing K.net) seen.new.log count entry.now }
    {
        let new = Status {
            count: count + 1,
            done: count,
            node: 0,
            state: 0,
        };
        self.put::<Entry, AskEntry>(0, from.status(count).word(), new.word(), entry, seen)
    }

    /// Adds the next entry to the log, with which nothing else is shown of any node but one, where the history has
    /// so many, and the first word is this. Readers see it from then on.
    #[inline(always)]
    pub(crate) fn add(
        &self,
        count: u64,
        entry: &Entry,
        from: &Current,
        to: &Current,
        seen: &mut SeenLog,
    ) -> bool
        requires of { (seen.old.book ≡ K.log) × IsOf K.net seen.old.log }
        requires count { (count < most_entries) × (count ≤ length (entries_in seen.old.log)) }
        requires answered { IsAnswered (listing K.net) entry.now
            (reverse (take count (entries_in seen.old.log))) }
        requires ready { IsReady (listing K.net) seen.old.log count entry.now to.now }
        ensures book { seen.new.book ≡ seen.old.book }
        ensures later { IsPrefix seen.old.log seen.new.log }
        ensures added { IsTrue result → IsAdded seen.new.log count entry.now }
    {
        let adding = Adding {
            entry,
            count: count + 1,
            node: to.node,
        };
        self.put::<Adding<'_>, AskMoved>(
            0,
            from.status(count).word(),
            to.status(count + 1).word(),
            &adding,
            seen,
        )
    }

    /// Stores what is shown of a node with so many entries, and with one less, where its word has this older
    /// number.
    #[inline(always)]
    pub(crate) fn store(&self, id: NodeId, old: u64, new: NodeWord, seen: &mut SeenLog) -> bool
        requires of { (seen.old.book ≡ K.log) × IsOf K.net seen.old.log }
        requires older { word_since old < new.since }
        requires count { (new.since ≤ most_entries) × (new.since ≤ length (entries_in seen.old.log)) }
        requires state { new.state ≡ shown_at (listing K.net) (entries_in seen.old.log) new.since id }
        requires before { new.before ≡ shown_at (listing K.net) (entries_in seen.old.log) (new.since - 1) id }
        ensures book { seen.new.book ≡ seen.old.book }
        ensures later { IsPrefix seen.old.log seen.new.log }
        ensures stored { IsTrue result → new.since ≤ since_in seen.new.log id }
    {
        let about = Storing {
            node: id,
            since: new.since,
        };
        self.put::<Storing, AskStored>(usize::from(id.get()), old, new.word(), &about, seen)
    }

    /// Says that the words of all nodes are right with so many entries, where they were with one less.
    #[inline(always)]
    pub(crate) fn show(&self, count: u64, seen: &mut SeenLog) -> bool
        requires of { (seen.old.book ≡ K.log) × IsOf K.net seen.old.log }
        requires count { (0 < count) × (count ≤ most_entries)
            × (count ≤ length (entries_in seen.old.log)) }
        requires same { (t : ℕ) → 1 ≤ t → t < 128
            → IsSame (listing K.net) seen.old.log count t }
        ensures book { seen.new.book ≡ seen.old.book }
        ensures later { IsPrefix seen.old.log seen.new.log }
    {
        let old = Status {
            count,
            done: count - 1,
            node: 0,
            state: 0,
        };
        let new = Status { done: count, ..old };
        self.put::<u64, AskShown>(0, old.word(), new.word(), &count, seen)
    }

    /// Says that the history is shown no more.
    pub(crate) fn end(&self, seen: &mut SeenLog)
        requires { seen.old.book ≡ K.log }
    {
        let word = self.look(0, seen);
        let mut offer = seen.plain::<NoGain, u64, AskShown>(&0);
        let mut pen = seen.no_pen();
        let _found = self.words[0].compare_exchange::<End, NoGain>(
            word, GONE, seen, &mut offer, &mut pen,
        );
    }
}
