//! Big-endian numbers that stand at a place.
ghost use Rattle.std.specs.Prelude.{◌≡◌, ◌≤◌, ◌+◌, length};
ghost use Rattle.sm_model.specs.Numbers.{number32_at, number64_at};

/// The 32-bit number at a place.
#[tactic(auto, unfolding(sm_model::specs::Numbers::number32_at))]
pub fn u32_at(bytes: &[u8], at: usize) -> u32
    requires { at + 4 ≤ length bytes.now }
    ensures { result ≡ number32_at at bytes.now }
{
    let (_, rest) = bytes.split_at(at);
    let (front, _) = rest.split_at(4);
    u32::from_be_bytes([front[0], front[1], front[2], front[3]])
}

/// The 64-bit number at a place.
#[tactic(auto, unfolding(sm_model::specs::Numbers::number64_at))]
pub fn u64_at(bytes: &[u8], at: usize) -> u64
    requires { at + 8 ≤ length bytes.now }
    ensures { result ≡ number64_at at bytes.now }
{
    let (_, rest) = bytes.split_at(at);
    let (front, _) = rest.split_at(8);
    u64::from_be_bytes([
        front[0], front[1], front[2], front[3], front[4], front[5], front[6], front[7],
    ])
}
