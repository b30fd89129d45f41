ghost use Rattle.std.specs.Prelude.{◌≡◌, length};
ghost use Rattle.tables.specs.Length.{width_of};
ghost use Rattle.tables.specs.Row.{bounds_of, row_of, place_at};

use std::ops::Range;

// The granules of a row in a map table of this many words.
pub fn row_width(words: usize) -> usize
    ensures { result ≡ width_of words }
{
    words / 8
}

// Where a slot's row stands in a map table of this many words. A slot above 7 has an empty row.
#[tactic(auto, using(crate::proofs::RowLaws::bounds_slot, crate::proofs::RowLaws::bounds_none))]
pub fn row_bounds(words: usize, slot: u64) -> Range<usize>
    ensures { result ≡ bounds_of words slot }
{
    if slot < 8 {
        let width = row_width(words);
        let start = (slot as usize) * width;
        start..start + width
    } else {
        0..0
    }
}

// The row itself, as that part of the map table: its words, and where they stand.
// There is no `row_mut` beside it: what a table ends as, of which a part is returned to be written, would be proved by hand.
#[tactic(auto, using(crate::proofs::RowLaws::in_order))]
pub fn row(map: &[u32], slot: u64) -> &[u32]
    ensures words { result.now ≡ row_of map.now slot }
    ensures place { result.ref_ptr ≡ place_at map.entry.ref_ptr (bounds_of (length map.now) slot).start }
{
    &map[row_bounds(map.len(), slot)]
}
