ghost use Rattle.std.specs.Prelude.{◌≡◌, ◌%◌, ◌^◌};

// The low 16 bits of a word: the frame of a map word, the granule of a frame word.
pub fn low_half(word: u32) -> usize
    ensures { result ≡ word % 2 ^ 16 }
{
    (word & 0xFFFF) as usize
}
