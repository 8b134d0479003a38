//! The law of what is told: how many lines of one kind are in a second.

ghost use Rattle.cm_telling.specs.Limiting.{IsTenASecond};

/// Of lines each of which was told when one might be, at most ten are in any second.
pub fn ten_a_second()
    ensures { IsTenASecond }
{}
