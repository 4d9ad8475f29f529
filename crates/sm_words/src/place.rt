//! Where an origin is, among the words.
ghost use Rattle.std.specs.Prelude.{◌≡◌};
ghost use Rattle.std.specs.List.{list_all};
ghost use Rattle.sm_words.specs.Places.{holds_isml, is_host, is_host_byte, is_path, is_path_byte};

// An ASCII digit or letter, `.`, `-` or `:`.
fn is_host_byte(byte: u8) -> bool
    ensures { result ≡ is_host_byte byte }
{
    matches!(byte, b'0'..=b'9' | b'a'..=b'z' | b'A'..=b'Z' | b'.' | b'-' | b':')
}

// Neither `?` nor a control byte.
fn is_path_byte(byte: u8) -> bool
    ensures { result ≡ is_path_byte byte }
{
    byte >= 32 && byte != 127 && byte != 63
}

fn are_host_bytes(text: &[u8]) -> bool
    ensures { result ≡ list_all is_host_byte text.now }
{
    text.iter().all(|byte| is_host_byte(*byte))
}

fn are_path_bytes(text: &[u8]) -> bool
    ensures { result ≡ list_all is_path_byte text.now }
{
    text.iter().all(|byte| is_path_byte(*byte))
}

// Whether `.isml/` stands somewhere in the text.
fn holds_isml(text: &[u8]) -> bool
    ensures { result ≡ holds_isml text.now }
{
    let mut rest = text;
    while let [_, more @ ..] = rest {
        if rest.starts_with(b".isml/") {
            return true;
        }
        rest = more;
    }
    false
}

/// Whether the word is 1 to 255 letters, digits, `.`, `-` and `:`.
#[tactic(auto, unfolding(crate::specs::Places::is_host))]
pub fn is_host(word: &str) -> bool
    ensures { result ≡ is_host word.now }
{
    let text = word.as_bytes();
    !text.is_empty() && text.len() <= 255 && are_host_bytes(text)
}

/// Whether the word is 1 to 512 bytes without `?`, control bytes and `.isml/`.
#[tactic(auto, unfolding(crate::specs::Places::is_path))]
pub fn is_path(word: &str) -> bool
    ensures { result ≡ is_path word.now }
{
    let text = word.as_bytes();
    !text.is_empty() && text.len() <= 512 && are_path_bytes(text) && !holds_isml(text)
}
