//! What waits to be told once its frames were handed to the wire.

ghost use Rattle.std.specs.Prelude.{◌≡◌, ℕ, ◌+◌, ◌-◌, ◌<◌, ◌≤◌, ◌^◌, min, List, [], ◌∷◌, ◌++◌, length, IfSome, IfNone, OnOk, OnErr};
ghost use Rattle.cm_history.specs.Legal.{most_entries};
ghost use Rattle.cm_telling.specs.InOrder.{Holds, IsTold};
ghost use Rattle.cm_telling.specs.Waiting.{Gives, Tells, left_untold, next_told, placed_at, untold_of};
ghost use Rattle.cm_telling.specs.declared.in_order.Placed.{Placed as At};
ghost use Rattle.cm_telling.specs.declared.waiting.Untold.{Untold as Kept};

use crate::in_order::{InOrder, Placed};
use cm_history::MOST_ENTRIES;
use cm_watch::Told;
use std::alloc::{AllocError, Global};
use std::collections::VecDeque;

/// What is to be told once its frames were handed to the wire (own).
#[derive(Drop)]
pub struct Untold<T> {
    pub value: T,
    /// What an operator is told behind it.
    pub told: Told,
    /// Whether the network was halted before it.
    pub is_halted: bool,
    /// Its place in the history, counted from 1.
    pub place: u64,
    /// How many frames it and all values before it have, at most 2^64 - 1.
    frames: u64,
}

/// What waits to be told: each value once, in the order of the history, once its frames were handed to the wire (own).
#[derive(Drop)]
pub struct Waiting<T> {
    order: InOrder<T>,
    /// The oldest first.
    untold: VecDeque<Untold<T>>,
    /// How many frames the values so far have, at most 2^64 - 1.
    frames: u64,
}

impl<T: Drop> Waiting<T> {
    /// Nothing has come, and nothing waits.
    pub fn new(alloc: Global) -> Waiting<T>
        ensures order { Holds result.order [] [] }
        ensures untold { result.untold.items ≡ [] }
        ensures frames { result.frames ≡ 0 }
        ensures tells { Tells result [] [] [] [] }
    {
        Waiting {
            order: InOrder::new(alloc),
            untold: VecDeque::new(alloc),
            frames: 0,
        }
    }

    /// A value comes, before which so many stand in the history, 0 to 2^64 - 1; of those of one place the first is given. Where
    /// memory is refused it doesn't.
    pub fn take(&mut self, position: u64, value: T) -> Result<(), AllocError>
        ensures came { (arrived told : List (At T)) → Holds self.old.order arrived told
            → OnOk result (Holds self.new.order (arrived ++ placed_at position value ∷ []) told) }
        ensures refused { (arrived told : List (At T)) → Holds self.old.order arrived told
            → OnErr result (Holds self.new.order arrived told) }
        ensures tells { (arrived given : List (At T)) (said : List (Kept T)) (counts : List ℕ)
            → Tells self.old arrived given said counts
            → OnOk result (Tells self.new (arrived ++ placed_at position value ∷ []) given said counts) }
        ensures stays { (arrived given : List (At T)) (said : List (Kept T)) (counts : List ℕ)
            → Tells self.old arrived given said counts
            → OnErr result (Tells self.new arrived given said counts) }
        ensures untold { self.new.untold.items ≡ self.old.untold.items }
        ensures frames { self.new.frames ≡ self.old.frames }
    {
        self.order.take(Placed { position, value })
    }

    /// The next value of the history, where it has come, and fewer than [`MOST_ENTRIES`] stand before it.
    pub fn next(&mut self) -> Option<T>
        ensures told { (arrived told : List (At T)) → Holds self.old.order arrived told
            → IfSome result
            (λ v. Holds self.new.order arrived (told ++ placed_at (length told) v ∷ [])) }
        ensures few { IfSome result (λ v. self.old.order.next < most_entries) }
        ensures all_told { (arrived told : List (At T)) → Holds self.old.order arrived told
            → length told < most_entries → IfNone result (IsTold arrived told) }
        ensures none { IfNone result (self.new.order ≡ self.old.order) }
        ensures gives { (arrived given : List (At T)) (said : List (Kept T)) (counts : List ℕ)
            → Tells self.old arrived given said counts
            → IfSome result (λ v. Gives self.new arrived given said counts v) }
        ensures stays { (arrived given : List (At T)) (said : List (Kept T)) (counts : List ℕ)
            → Tells self.old arrived given said counts
            → IfNone result (Tells self.new arrived given said counts) }
        ensures untold { self.new.untold.items ≡ self.old.untold.items }
        ensures frames { self.new.frames ≡ self.old.frames }
    {
        if self.order.count() >= u64::from(MOST_ENTRIES) {
            return None;
        }
        match self.order.next() {
            Some(placed) => Some(placed.value),
            None => None,
        }
    }

    /// How many values [`Waiting::next`] has given: the place of the last of them, counted from 1.
    pub fn count(&self) -> u64
        ensures { result ≡ self.now.order.next }
    {
        self.order.count()
    }

    /// The value, with what is told with it, waits behind the others for so many frames more. Its place is the number of values
    /// that [`Waiting::next`] has given. Where memory is refused it doesn't wait.
    pub fn wait(
        &mut self,
        value: T,
        told: Told,
        is_halted: bool,
        frames: u64,
    ) -> Result<(), AllocError>
        ensures waits { OnOk result (self.new.untold.items
            ≡ self.old.untold.items
            ++ untold_of value told is_halted self.old.order.next self.new.frames ∷ []) }
        ensures sum { OnOk result (self.new.frames ≡ min (self.old.frames + frames) (2 ^ 64 - 1)) }
        ensures tells { (arrived given : List (At T)) (said : List (Kept T)) (counts : List ℕ)
            → Gives self.old arrived given said counts value
            → OnOk result (Tells self.new arrived (given ++ placed_at (length given) value ∷ []) said (counts ++ frames ∷ [])) }
        ensures refused { OnErr result (self.new.untold.items ≡ self.old.untold.items) }
        ensures same_sum { OnErr result (self.new.frames ≡ self.old.frames) }
        ensures order { self.new.order ≡ self.old.order }
    {
        let sum = self.frames.saturating_add(frames);
        self.untold.push_back(Untold {
            value,
            told,
            is_halted,
            place: self.order.count(),
            frames: sum,
        })?;
        self.frames = sum;
        Ok(())
    }

    /// The next that waits, once so many frames were handed to the wire; at the end of a run at once. With it, whether its
    /// frames were.
    pub fn next_handed(&mut self, handed: u64, is_end: bool) -> Option<(Untold<T>, bool)>
        ensures told { result ≡ next_told self.old.untold.items handed is_end }
        ensures tells { (arrived given : List (At T)) (said : List (Kept T)) (counts : List ℕ)
            → Tells self.old arrived given said counts
            → IfSome result (λ next. Tells self.new arrived given (said ++ next.0 ∷ []) counts) }
        ensures stays { (arrived given : List (At T)) (said : List (Kept T)) (counts : List ℕ)
            → Tells self.old arrived given said counts
            → IfNone result (Tells self.new arrived given said counts) }
        ensures left { self.new.untold.items ≡ left_untold self.old.untold.items handed is_end }
        ensures order { self.new.order ≡ self.old.order }
        ensures frames { self.new.frames ≡ self.old.frames }
    {
        let is_handed = match self.untold.front() {
            Some(first) => first.frames <= handed,
            None => return None,
        };
        if is_handed || is_end {
            let untold = self.untold.pop_front()?;
            Some((untold, is_handed))
        } else {
            None
        }
    }
}
