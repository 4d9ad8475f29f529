//! What the fields of a head say.
ghost use Rattle.std.specs.Prelude.{◌≡◌, ◌<◌, List, ℕ, length, All, map};
ghost use Rattle.std.specs.Char.{to_ascii_lowercase};
ghost use Rattle.std.specs.Str.{bytes_eq};
ghost use Rattle.httparse.specs.Spans.{IsHeaderWithin, header_bytes};
ghost use Rattle.sm_head.specs.Fields as spec;
ghost use Rattle.sm_head.specs.Fields.{values_in, IsLookup};

use httparse::spans::HeaderSpan;

/// The values of the fields of one name, without white space at both ends.
#[derive(Clone, Copy, Debug, Drop)]
pub enum Lookup<'b> {
    Absent,
    Once(&'b [u8]),
    Several,
}

/// Whether two texts are equal without regard to case.
pub fn same_text(text: &[u8], wanted: &[u8]) -> bool
    ensures { result ≡ bytes_eq (map to_ascii_lowercase text.now) (map to_ascii_lowercase wanted.now) }
{
    text.eq_ignore_ascii_case(wanted)
}

/// The only value of the fields of that name.
pub fn look_up<'b>(bytes: &'b [u8], fields: &[HeaderSpan], name: &[u8]) -> Lookup<'b>
    requires { All (IsHeaderWithin (length bytes.now)) fields.now }
    ensures { IsLookup result (values_in name.now (map (header_bytes bytes.now) fields.now)) }
{
    let mut found = Lookup::Absent;
    for field in fields {
        if same_text(field.name.of(bytes), name) {
            found = match found {
                Lookup::Absent => Lookup::Once(field.value.of(bytes)),
                Lookup::Once(_) | Lookup::Several => Lookup::Several,
            };
        }
    }
    found
}

/// Whether a field of that name has that value, without regard to case.
pub fn has_value(bytes: &[u8], fields: &[HeaderSpan], name: &[u8], text: &[u8]) -> bool
    requires { All (IsHeaderWithin (length bytes.now)) fields.now }
    ensures { result ≡ spec.has_value name.now text.now (map (header_bytes bytes.now) fields.now) }
{
    let mut found = false;
    for field in fields {
        if same_text(field.name.of(bytes), name) {
            found |= same_text(field.value.of(bytes), text);
        }
    }
    found
}

/// Whether there is a value.
pub fn is_there(found: Lookup<'_>) -> bool
    ensures { (values : List (List ℕ)) → IsLookup found.entry values → result ≡ spec.is_there values }
{
    match found {
        Lookup::Absent => false,
        Lookup::Several | Lookup::Once(_) => true,
    }
}

/// Whether there are several values.
pub fn is_several(found: Lookup<'_>) -> bool
    ensures { (values : List (List ℕ)) → IsLookup found.entry values → result ≡ spec.is_several values }
{
    match found {
        Lookup::Several => true,
        Lookup::Absent | Lookup::Once(_) => false,
    }
}

/// Whether there is a value other than that text, without regard to case.
pub fn is_other(found: Lookup<'_>, text: &[u8]) -> bool
    ensures { (values : List (List ℕ)) → IsLookup found.entry values → result ≡ spec.is_other text.now values }
{
    match found {
        Lookup::Absent => false,
        Lookup::Once(value) => !same_text(value, text),
        Lookup::Several => true,
    }
}
