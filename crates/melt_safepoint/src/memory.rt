//! What becomes of memory that a run gives back.
//!
//! A collection makes a new space and gives the old one back, and so does an epoch with the words that its threads
//! share. A page that comes from the system anew costs more than to copy all that stands on it, so these pieces are to
//! be used again.

use std::alloc::Global;

/// Words of a piece just below 32 MB. The C library learns from no piece that is larger.
const LARGE: usize = 4_186_112;

/// Lets pieces of memory that are given back be used again by this process, where they have fewer than 32 MB. It is
/// called once, before a run.
///
/// The C library of GNU gives a piece of 128 KB and more back to the system at once, until it has seen that such pieces
/// come and go: from then on it keeps those that are no larger than the largest it saw (mallopt(3),
/// `M_MMAP_THRESHOLD`). So it is shown a large one, of which no page is touched. With another library, or where there
/// is no memory, nothing comes of it.
pub fn keep_memory(alloc: Global) {
    let shown = Vec::<u64>::with_capacity(alloc, LARGE);
    drop(shown);
}
