//! Fields that flags bring (ISO/IEC 14496-12, 4.2): version and flags are read as one number of 32 bits.
ghost use Rattle.std.specs.Prelude.{◌≡◌, ◌≤◌, ◌<◌, ◌+◌, length};
ghost use Rattle.sm_model.specs.Fields.{version, has, field, given};

use sm_box::u32_at;

// Whether version and flags have a flag.
#[tactic(auto, unfolding(sm_model::specs::Fields::has))]
pub(crate) fn has(word: u32, flag: u32) -> bool
    ensures { result ≡ has word flag }
{
    word & flag != 0
}

// The bytes that a field takes: none without its flag.
#[tactic(auto, unfolding(sm_model::specs::Fields::field))]
pub(crate) fn field(word: u32, flag: u32, width: usize) -> usize
    ensures value { result ≡ field word flag width }
    ensures bound { result ≤ width }
{
    if has(word, flag) { width } else { 0 }
}

// A field of 32 bits, or what holds without its flag.
#[tactic(auto, unfolding(sm_model::specs::Fields::given, sm_model::specs::Fields::field))]
pub(crate) fn given(word: u32, flag: u32, at: usize, bytes: &[u8], other: u32) -> u32
    requires { at + field word flag 4 ≤ length bytes.now }
    ensures { result ≡ given word flag at bytes.now other }
{
    if has(word, flag) {
        u32_at(bytes, at)
    } else {
        other
    }
}

// The version of a full box.
#[tactic(auto, unfolding(sm_model::specs::Fields::version))]
pub(crate) fn version(bytes: &[u8]) -> u8
    requires { 0 < length bytes.now }
    ensures { result ≡ version bytes.now }
{
    bytes[0]
}
