// Little-endian numbers in a slice of bytes (specs/Words.antt). Past the end of a slice every byte
// counts as 0.
#![tactic(auto)]

ghost use Rattle.std.specs.Prelude.{◌≡◌, ◌<◌, get_or};
ghost use Rattle.words.specs.Words.{u32_at, u64_at, word_of};

// The byte at place i.
fn byte(s: &[u8], i: usize) -> u8
    ensures { result ≡ get_or s.now i 0 }
{
    s.get(i).copied().unwrap_or(0)
}

// The u32 that starts at place i.
pub fn u32_at(s: &[u8], i: usize) -> u64
    ensures { (result ≡ u32_at s.now i) × (result < 4294967296) }
{
    if s.len() <= i {
        return 0;
    }
    let bytes = [byte(s, i), byte(s, i + 1), byte(s, i + 2), byte(s, i + 3)];
    u64::from(u32::from_le_bytes(bytes))
}

// The u64 that starts at place i.
pub fn u64_at(s: &[u8], i: usize) -> u64
    ensures { result ≡ u64_at s.now i }
{
    if s.len() <= i {
        return 0;
    }
    // A sum of two, as in its definition: eight bytes in an array are no plainer.
    u32_at(s, i) + 4294967296 * u32_at(s, i + 4)
}

// Number k, counted from 0, of a slice of u64s. Where the slice does not hold the whole of it, 0.
#[tactic(auto, unfolding(crate::specs::Words::word_of))]
pub fn word(s: &[u8], k: usize) -> u64
    ensures { result ≡ word_of s.now k }
{
    if k < s.len() / 8 { u64_at(s, 8 * k) } else { 0 }
}
