ghost use Rattle.std.specs.Prelude.{◌≡◌, [], ◌∷◌, ◌++◌, IfOk, IfErr, OnErr};

/// Puts one more item behind the others; `refused` where memory is.
#[inline(always)]
pub fn push_or<T: Copy, E: Copy>(list: &mut Vec<T>, item: T, refused: E) -> Result<(), E>
    ensures put { IfOk result (λ u. list.new.items ≡ list.old.items ++ item ∷ []) }
    ensures refused { IfErr result (λ e. e ≡ refused) }
    ensures kept { OnErr result (list.new.items ≡ list.old.items) }
{
    if list.push(item).is_ok() {
        Ok(())
    } else {
        Err(refused)
    }
}
