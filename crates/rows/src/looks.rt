ghost use Rattle.std.specs.Prelude.{◌≡◌};
ghost use Rattle.rows.specs.WholeRow.{row_vacant, row_undamaged};

use pairs::granule_state;
use words::{Granule, MapWord};

// Whether every word of a row is vacant.
pub fn row_vacant(row: &[u32]) -> bool
    ensures { result ≡ row_vacant row.now }
{
    row.iter().all(|word| *word == MapWord::VACANT)
}

// Whether no granule of a slot's row is damaged, each looked at with the frame that it names.
pub fn row_undamaged(row: &[u32], frames: &[u32], slot: usize) -> bool
    ensures { result ≡ row_undamaged frames.now slot row.now }
{
    row.iter().enumerate().all(|(number, word)| {
        granule_state(frames, slot, Granule(number as u64), *word).is_undamaged()
    })
}
