//! Names of streams and tracks.
ghost use Rattle.std.specs.Prelude.{◌≡◌, ◌^◌, ◌<◌, ℕ, false, true, length, take_while, IfOk, Err, decimal, bytes_eq};
ghost use Rattle.std.specs.Cmp.{partial_equiv_from_equiv};
ghost use Rattle.std.specs.Cmp.Lexicographic.{nat_list_eq_equiv};
ghost use Rattle.std.specs.Cmp.Rules.{hashing};
ghost use Rattle.std.specs.Hash as fed;
ghost use Rattle.std.specs.Str.Lossy.{utf8_valid_len};
ghost use Rattle.sm_model.specs.Names.{is_name, is_name_byte, first_wrong};
ghost use Rattle.std.proofs.Common.{rules};
ghost use Rattle.sm_model.specs.declared.name.NameFault.TheVariants.{Form, NoMemory};

use crate::NoMemory;
use std::alloc::{AllocError, Global};
use std::hash::{Hash, Hasher};
use std::marker::Model;
use thiserror::Error;

/// The name of a stream or a track: 1 to 64 bytes of UTF-8, each an ASCII letter or digit, `_`, `-`, `.`, a space,
/// or a byte of a character beyond ASCII. Contracts see its bytes.
#[derive(Debug, Drop)]
pub struct Name {
    text: String,
}

impl PartialEq for Name {
    ghost eq = { λ a b. bytes_eq a b };

    ghost laws = { partial_equiv_from_equiv nat_list_eq_equiv };

    fn eq(&self, other: &Name) -> bool {
        self.text.as_str() == other.text.as_str()
    }
}

impl Eq for Name {
    ghost laws = { nat_list_eq_equiv };
}

impl Hash for Name {
    ghost hash_input = { λ n. fed.str n };

    ghost respects_eq = { Prim.search (hashing, rules) };

    fn hash<H: Hasher>(&self, state: &mut H) {
        self.text.as_str().hash(state);
    }
}

impl Model for Name {
    ghost use Rattle.std.specs.Prelude.{◌≡◌, true, List, ℕ, string_bytes};
    ghost use Rattle.std.specs.Str.Lossy.{utf8_valid_len};
    ghost use Rattle.sm_model.specs.Names.{is_name};

    ghost Value = { List ℕ };

    ghost view = { λ n. string_bytes n.text };

    ghost invariant = { λ n. is_name (string_bytes n.text) ≡ true };
}

/// Why bytes are refused as a name.
#[derive(Clone, Copy, Debug, PartialEq, Eq, Error)]
pub enum NameFault {
    /// The bytes are no name. `at` is the place of the first byte that fits none, counted from 0, or their number
    /// where they are too few or too many.
    #[error("no name: wrong at byte {at}")]
    Form { at: u64 },
    #[error("out of memory")]
    NoMemory,
}

impl From<AllocError> for NameFault {
    ghost from_gives = { λ _ e. e ≡ NoMemory };

    fn from(_: AllocError) -> NameFault {
        NameFault::NoMemory
    }
}

fn is_name_byte(byte: u8) -> bool
    ensures { result ≡ is_name_byte byte }
{
    matches!(byte, b'0'..=b'9' | b'a'..=b'z' | b'A'..=b'Z' | b'_' | b'-' | b'.' | b' ' | 0x80..)
}

// How many bytes from the first on a name may hold.
fn plain_len(bytes: &[u8]) -> usize
    ensures { result ≡ length (take_while is_name_byte bytes.now) }
{
    bytes.iter().take_while(|byte| is_name_byte(**byte)).count()
}

// How many bytes from the first on are UTF-8.
#[tactic(auto, using(crate::proofs::NameLemmas::whole_text))]
fn text_len(bytes: &[u8]) -> usize
    ensures { result ≡ utf8_valid_len bytes.now }
{
    match str::from_utf8(bytes) {
        Ok(text) => text.len(),
        Err(fault) => fault.valid_up_to(),
    }
}

impl Name {
    /// The name that these bytes are. It is refused exactly where they are none, with the place.
    #[tactic(auto, unfolding(crate::specs::Names::is_name, crate::specs::Names::first_wrong))]
    pub fn read(alloc: Global, bytes: &[u8]) -> Result<Name, NameFault>
        ensures named { IfOk result (λ name. (name ≡ bytes.now) × (is_name bytes.now ≡ true)) }
        ensures form { (at : ℕ) → result ≡ Err (Form at) → (is_name bytes.now ≡ false) × (at ≡ first_wrong bytes.now) }
    {
        let wrong = plain_len(bytes).min(text_len(bytes));
        if wrong < bytes.len() || bytes.is_empty() || bytes.len() > 64 {
            return Err(NameFault::Form { at: wrong as u64 });
        }
        match str::from_utf8(bytes) {
            Ok(text) => Ok(Name {
                text: String::from_str(alloc, text)?,
            }),
            Err(fault) => Err(NameFault::Form {
                at: fault.valid_up_to() as u64,
            }),
        }
    }

    /// Whether these bytes are a name.
    #[tactic(auto, unfolding(crate::specs::Names::is_name, crate::specs::Names::first_wrong))]
    pub fn fits(bytes: &[u8]) -> bool
        ensures { result ≡ is_name bytes.now }
    {
        let right = plain_len(bytes).min(text_len(bytes));
        !bytes.is_empty() && bytes.len() <= 64 && right == bytes.len()
    }

    /// The name of a track that no header names: its track_ID in decimal.
    #[tactic(auto, using(crate::proofs::NameLemmas::decimal_is_name))]
    pub fn of_track(alloc: Global, id: u32) -> Result<Name, NoMemory>
        ensures { IfOk result (λ name. name ≡ decimal id) }
    {
        Ok(Name {
            text: format!(in alloc; "{id}")?,
        })
    }

    /// The bytes of the name, lent. They are a name.
    pub fn as_bytes(&self) -> &[u8]
        ensures same { result.now ≡ self.now }
        ensures named { is_name self.now ≡ true }
    {
        self.text.as_bytes()
    }

    /// The text of the name, lent.
    pub fn as_str(&self) -> &str
        ensures { result.now ≡ self.now }
    {
        self.text.as_str()
    }

    /// An equal name.
    pub fn copy(&self, alloc: Global) -> Result<Name, NoMemory>
        ensures { IfOk result (λ name. name ≡ self.now) }
    {
        Ok(Name {
            text: self.text.clone()?,
        })
    }
}
