// Words of 32 bits in a list of bytes, the lowest byte first. Serves document 01, "The sheet and the printed table".

#![tactic(auto)]

ghost use Rattle.std.specs.Prelude.{◌≡◌, ◌+◌, ◌*◌, ◌^◌, ◌≤◌, ◌<◌, length};
ghost use Rattle.terms.specs.Numbers.{written};
ghost use Rattle.terms.specs.Words.{word_at, words_at};

// The word at byte i.
pub fn word_at(bytes: &[u8], i: usize) -> u64
    requires { i + 4 ≤ length bytes.now }
    ensures { (result ≡ word_at bytes.now i) × (result < 2 ^ 32) }
{
    u64::from(u32::from_le_bytes([bytes[i], bytes[i + 1], bytes[i + 2], bytes[i + 3]]))
}

// Writes `count` words from byte `from` on to the first entries of a list with room for them.
#[tactic(auto, using(crate::proofs::FrontLaws::stored), unfolding(terms::specs::Numbers::list_of))]
pub fn read_words(bytes: &[u8], from: usize, count: usize, words: &mut [u64])
    requires { (from + 4 * count ≤ length bytes.now) × (count ≤ length words.old) }
    ensures { words.new ≡ written words.old 0 (words_at bytes.now from count) }
{
    for (i, word) in words[..count].iter_mut().enumerate() {
        *word = word_at(bytes, from + 4 * i);
    }
}
