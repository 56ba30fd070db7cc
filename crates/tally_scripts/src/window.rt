//! Stretches of a script in which the loader of `rows/tools/growths` refuses each growth. Without it they are
//! stretches like any other.

use std::alloc::Global;

/// A growth of this size asks the loader to refuse each one after it.
const REFUSE: usize = 1_000_003;

/// A growth of this size asks it to refuse none any more.
const GRANT: usize = 1_000_033;

/// Makes a growth of this size, which the loader takes for a word to itself.
fn grow(alloc: Global, size: usize) -> usize {
    let Ok(mut bytes) = Vec::with_capacity(alloc, size) else {
        return 0;
    };
    let _ = bytes.push(0u8);
    bytes.capacity()
}

/// Has each growth refused from here on.
pub(crate) fn refuse_growths(alloc: Global) {
    grow(alloc, REFUSE);
}

/// Has no growth refused any more.
pub(crate) fn grant_growths(alloc: Global) {
    grow(alloc, GRANT);
}
