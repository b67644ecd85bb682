// Words and numbers as text, laid out on a lent buffer.
#![tactic(auto)]

ghost use Rattle.std.specs.Prelude.{◌≡◌, ◌+◌, ◌*◌, ◌≤◌, ◌<◌, length, set};
ghost use Rattle.std.proofs.lemmas.List.Edits.{sets};
ghost use Rattle.text.specs.Text.{decimal_of, line_with, onto};

use itoa::Buffer;

// The byte b at `at`, and the place after it.
fn put(b: u8, out: &mut [u8], at: usize) -> usize
    requires { at < length out.old }
    ensures end { result ≡ at + 1 }
    ensures written { out.new ≡ set out.old at b }
{
    out[at] = b;
    at + 1
}

// The bytes of a word at the front of `out`; answers how many.
fn put_word(word: &[u8], out: &mut [u8]) -> usize
    requires { length word.now ≤ length out.old }
    ensures end { result ≡ length word.now }
    ensures written { out.new ≡ sets out.old 0 word.now }
{
    let mut end = 0;
    for byte in word {
        end = put(*byte, out, end);
    }
    end
}

// The digits of n from `at` on, and the place after them.
fn put_number(n: u64, out: &mut [u8], at: usize) -> usize
    requires { at + 20 ≤ length out.old }
    ensures end { (result ≡ at + length (decimal_of n)) × (result ≤ at + 20) }
    ensures written { out.new ≡ sets out.old at (decimal_of n) }
{
    let mut buffer = Buffer::new();
    let digits = buffer.format(n).as_bytes();
    let end = at + digits.len();
    out[at..end].copy_from_slice(digits);
    end
}

// A line at the front of `out`: a word, each number after a space, and a line feed; answers how many bytes it takes. The bytes behind it stay.
// A number takes at most 21 bytes with its space.
#[tactic(auto, unfolding(crate::specs::Text::spaced))]
pub fn put_line(word: &[u8], numbers: &[u64], out: &mut [u8]) -> usize
    requires { length word.now + 21 * length numbers.now < length out.old }
    ensures size { result ≡ length (line_with word.now numbers.now) }
    ensures most { result ≤ length word.now + 21 * length numbers.now + 1 }
    ensures bytes { out.new ≡ onto (line_with word.now numbers.now) out.old }
{
    let mut end = put_word(word, out);
    for number in numbers {
        end = put(b' ', out, end);
        end = put_number(*number, out, end);
    }
    put(b'\n', out, end)
}
