ghost use Rattle.std.specs.Prelude.{◌≡◌, ◌<◌, ◌^◌, List, [], ◌∷◌, ◌++◌, None, IfSome, IfNone, OnOk, OnErr};
ghost use Rattle.cm_telling.specs.InOrder.{Holds, IsFirstAt, IsTold, entry_at};
ghost use Rattle.cm_telling.specs.declared.in_order.Placed.{Placed as At};

use std::alloc::{AllocError, Global};

/// What has a place in a history, as an entry has.
#[derive(Drop)]
pub struct Placed<T> {
    /// How many entries stand before it.
    pub position: u64,
    pub value: T,
}

/// What comes in any order, and is told in that of the history.
#[derive(Drop)]
pub struct InOrder<T> {
    next: u64,
    /// The oldest first.
    waiting: Vec<Placed<T>>,
}

impl<T: Drop> InOrder<T> {
    /// Nothing has come, and nothing was told.
    pub fn new(alloc: Global) -> InOrder<T>
        ensures { Holds result [] [] }
    {
        InOrder {
            next: 0,
            waiting: Vec::new(alloc),
        }
    }

    /// One comes; of those of one position the first is told. Where memory is refused it doesn't.
    pub fn take(&mut self, placed: Placed<T>) -> Result<(), AllocError>
        ensures came { (arrived told : List (At T)) → Holds self.old arrived told
            → OnOk result (Holds self.new (arrived ++ placed ∷ []) told) }
        ensures refused { (arrived told : List (At T)) → Holds self.old arrived told
            → OnErr result (Holds self.new arrived told) }
    {
        self.waiting.push(placed)?;
        Ok(())
    }

    /// How many were told.
    pub fn count(&self) -> u64
        ensures { result ≡ self.now.next }
    {
        self.next
    }

    /// Where the next waits.
    fn place_of_next(&self) -> Option<usize>
        ensures found { IfSome result (λ i. IsFirstAt self.now.waiting.items i self.now.next) }
        ensures missing { IfNone result (entry_at self.now.waiting.items self.now.next ≡ None) }
    {
        for place in 0..self.waiting.len() {
            if self.waiting[place].position == self.next {
                return Some(place);
            }
        }
        None
    }

    /// The next to be told, where it has come.
    pub fn next(&mut self) -> Option<Placed<T>>
        requires { self.old.next < 2 ^ 63 }
        ensures told { (arrived told : List (At T)) → Holds self.old arrived told
            → IfSome result (λ e. Holds self.new arrived (told ++ e ∷ [])) }
        ensures all_told { (arrived told : List (At T)) → Holds self.old arrived told
            → IfNone result (IsTold arrived told) }
        ensures kept { IfNone result (self.new ≡ self.old) }
    {
        let Some(place) = self.place_of_next() else {
            return None;
        };
        self.next += 1;
        let placed = self.waiting.remove(place);
        Some(placed)
    }
}
