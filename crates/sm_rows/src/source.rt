//! Where the values of a row are from.

/// Whether a text names a source: `section STANDARD PART`, `program NAME`, `reference scripts/NAME`, `learnt` or `plain`.
pub(crate) fn is_source(text: &str) -> bool {
    match text.split_once(' ') {
        None => matches!(text, "learnt" | "plain"),
        Some(("section", rest)) => match rest.split_once(' ') {
            Some((standard, part)) => !standard.is_empty() && !part.is_empty(),
            None => false,
        },
        Some(("program", name)) => !name.is_empty(),
        Some(("reference", name)) => name.starts_with("scripts/"),
        Some(_) => false,
    }
}
