//! Paths, which end where `.isml/` first stands.
ghost use Rattle.std.specs.Prelude.{◌≡◌, ◌==◌};
ghost use Rattle.std.specs.List.{list_any};
ghost use Rattle.sm_addr.specs.Paths as spec;
ghost use Rattle.sm_addr.specs.Paths.{IsIsmlAt};

fn has_question(path: &[u8]) -> bool
    ensures { result ≡ list_any (λ b. b == 63) path.now }
{
    path.iter().any(|b| *b == b'?')
}

/// Whether the bytes are 1 to 512 bytes, and none is `?`.
pub fn is_short_path(path: &[u8]) -> bool
    ensures { result ≡ spec.is_short path.now }
{
    if path.len() == 0 || path.len() > 512 {
        return false;
    }
    !has_question(path)
}

/// Where the first `.isml/` stands.
pub fn isml_at(text: &[u8]) -> Option<usize>
    ensures { IsIsmlAt text.now result }
{
    for at in 0..text.len() {
        if text[at..].starts_with(b".isml/") {
            return Some(at);
        }
    }
    None
}
