//! What may go to another thread.

use crate::{Bytes, Fragment, Part, Samples, Text};

fn is_shared<T: Send + Sync>(_: &T) {}

/// Fragments and their parts may be sent to another thread, and be shared by threads.
pub fn fragments_are_shared(
    part: &Part,
    bytes: &Bytes,
    samples: &Samples,
    fragment: &Fragment,
    text: &Text,
) {
    is_shared(part);
    is_shared(bytes);
    is_shared(samples);
    is_shared(fragment);
    is_shared(text);
}
