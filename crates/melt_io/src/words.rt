//! Words as bytes: 8 bytes for each word, its lowest byte first.
ghost use Rattle.std.specs.Prelude.{◌≡◌, ℕ, ◌*◌, ◌^◌, ◌<◌, List, All, length};
ghost use Rattle.melt_io.specs.Words.{word_bytes, words_in_bytes};

use byteorder::{ByteOrder, LittleEndian};

/// Writes the bytes of each word, one word after the other.
pub fn put_words(words: &[u64], out: &mut [u8])
    requires { length out.old ≡ 8 * length words.now }
    ensures { out.new ≡ word_bytes words.now }
{
    LittleEndian::write_u64_into(words, out);
}

/// Reads the words whose bytes these are.
pub fn get_words(bytes: &[u8], words: &mut [u64])
    requires { length bytes.now ≡ 8 * length words.old }
    ensures { words.new ≡ words_in_bytes (length words.old) bytes.now }
{
    LittleEndian::read_u64_into(bytes, words);
}

/// The words that are read from the bytes of words are those words.
pub fn words_read_back()
    ensures { (words : List ℕ) → All (λ word. word < 2 ^ 64) words
        → words_in_bytes (length words) (word_bytes words) ≡ words }
{}
