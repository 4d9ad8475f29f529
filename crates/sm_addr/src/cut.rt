//! A text cut into what stands before and behind.
ghost use Rattle.std.specs.Prelude.{◌≡◌, ◌≤◌, ◌==◌, length, None, Some, MatchOption};
ghost use Rattle.std.specs.List.{position_or_len};
ghost use Rattle.sm_addr.specs.Cuts as spec;

/// What stands behind that beginning, where the text has it.
pub fn behind<'t>(text: &'t [u8], beginning: &[u8]) -> Option<&'t [u8]>
    ensures { MatchOption result (spec.behind beginning.now text.now ≡ None) (λ rest. spec.behind beginning.now text.now ≡ Some rest.now) }
{
    text.strip_prefix(beginning)
}

/// What stands before that end, where the text has it.
pub fn before<'t>(text: &'t [u8], end: &[u8]) -> Option<&'t [u8]>
    ensures { MatchOption result (spec.before end.now text.now ≡ None) (λ front. spec.before end.now text.now ≡ Some front.now) }
{
    text.strip_suffix(end)
}

// Where that byte first stands, or the length.
fn first(text: &[u8], byte: u8) -> usize
    ensures is { result ≡ position_or_len (λ b. b == byte) text.now }
    ensures within { result ≤ length text.now }
{
    for (at, b) in text.iter().enumerate() {
        if *b == byte {
            return at;
        }
    }
    text.len()
}

/// What stands before that byte where it is first, and from there on; nothing in the second part where it isn't there.
pub fn cut_at(text: &[u8], byte: u8) -> (&[u8], &[u8])
    ensures front { result.0.now ≡ spec.up_to byte text.now }
    ensures rest { result.1.now ≡ spec.from byte text.now }
{
    text.split_at(first(text, byte))
}
