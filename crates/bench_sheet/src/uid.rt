ghost use Rattle.std.specs.Prelude.{◌≤◌};

// The four words of a UID's text: its 32 digits are 16 bytes in their order, and four bytes are a word, the lowest first. Characters
// that are no digits are passed over.
pub(crate) fn words(text: &[u8]) -> [u64; 4] {
    let mut words = [0u64; 4];
    let digits = text.iter().filter_map(|c| (*c as char).to_digit(16));
    for (number, value) in digits.enumerate() {
        // A digit that lies beyond the words is left out.
        if let Some(word) = words.get_mut(number / 8) {
            *word |= (value as u64) << place(number);
        }
    }
    words
}

// The lowest bit of a digit in its word: of a byte's two digits the higher comes first.
fn place(number: usize) -> usize
    ensures { result ≤ 28 }
{
    let k = number % 8;
    if k % 2 == 0 { 4 * k + 4 } else { 4 * k - 4 }
}
