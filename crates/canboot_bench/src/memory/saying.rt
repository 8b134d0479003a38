//! What is said of an answer.

/// Says that this call was refused memory.
pub(crate) fn refused<R: Print>(rt: &R, call: &str) -> Option<()> {
    println!(rt; "{call}: out of memory").ok()
}

/// Says that the call with this number was refused memory.
pub(crate) fn refused_at<R: Print>(rt: &R, call: &str, number: u32) -> Option<()> {
    println!(rt; "{call} {number}: out of memory").ok()
}

/// Says what was done in the end.
pub(crate) fn done<R: Print>(rt: &R, call: &str, count: usize) -> Option<()> {
    println!(rt; "{call}: done, {count}").ok()
}

/// `None` where this isn't so.
pub(crate) fn surely(is_so: bool) -> Option<()> {
    if is_so { Some(()) } else { None }
}
