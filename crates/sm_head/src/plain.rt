//! Plain, slow programs that compute what a part of a reply shows.
ghost use Rattle.std.specs.Prelude.{◌≡◌, IfOk};
ghost use Rattle.sm_head.specs.Shown.{shows_status, body_of};

use sm_model::NoMemory;
use std::alloc::Global;

/// Whether a part of a reply begins with the version and that status.
pub fn shows_status(alloc: Global, status: u16, part: &[u8]) -> Result<bool, NoMemory>
    ensures { IfOk result (λ shows. shows ≡ shows_status status part.now) }
{
    let begun = format!(in alloc; "HTTP/1.1 {status}")?;
    Ok(part.starts_with(begun.as_bytes()))
}

/// What stands behind the first empty line of a part of a reply, nothing where there is none.
pub fn body_of(part: &[u8]) -> &[u8]
    ensures { result.now ≡ body_of part.now }
{
    for i in 0..part.len() {
        if part[i..].starts_with(b"\r\n\r\n") {
            return &part[i + 4..];
        }
    }
    &part[part.len()..]
}
