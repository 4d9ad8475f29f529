//! A number by which the body of a record is known again.
ghost use Rattle.std.specs.Prelude.{◌≤◌};

// Its bits have no pattern, and it is odd, so that no product loses any.
const ODD: u64 = 0x9e37_79b9_7f4a_7c15;

// A number in which each bit of both has its part.
fn mixed(state: u64, word: u64) -> u64 {
    (state ^ word).wrapping_mul(ODD).rotate_left(29)
}

// The eight bytes from a place on.
fn word_at(bytes: &[u8; 32], at: usize) -> u64
    requires { at ≤ 24 }
{
    u64::from_le_bytes([
        bytes[at],
        bytes[at + 1],
        bytes[at + 2],
        bytes[at + 3],
        bytes[at + 4],
        bytes[at + 5],
        bytes[at + 6],
        bytes[at + 7],
    ])
}

// 64 bits of all bytes of a body. A body that was hashed with its digest, or was made here, is known by it when it is read again, at
// a small part of the digest's time: four words are taken at once, each into a number of its own, so that none waits for another.
pub(crate) fn check_of(body: &[u8]) -> u64 {
    let (mut a, mut b, mut c, mut d) = (body.len() as u64, 1, 2, 3);
    for part in body.chunks(32) {
        match part.first_chunk::<32>() {
            Some(words) => {
                a = mixed(a, word_at(words, 0));
                b = mixed(b, word_at(words, 8));
                c = mixed(c, word_at(words, 16));
                d = mixed(d, word_at(words, 24));
            }
            None => {
                for byte in part {
                    a = mixed(a, *byte as u64);
                }
            }
        }
    }
    mixed(mixed(a, b), mixed(c, d))
}
