//! The positions on the way to a position of a node, and the longest match among them.
//!
//! A node's positions are 1 to 63; position `i / 2` is the one a bit shorter than position `i`.
#![tactic(auto)]

ghost use Rattle.std.specs.Prelude.{◌≡◌, ℕ, ◌-◌, ◌^◌, ◌<◌, ◌≤◌, None, MatchOption, slice_index};
ghost use Rattle.model.specs.Nodes.{marked};
ghost use Rattle.masks.specs.Marks as marks;
ghost use Rattle.masks.specs.Ways.{MarksTheWays, NoneMarked, Highest, HighestBit, deepest_position};

/// The mask of each position: entry `i` has the bits `i`, `i / 2`, and so on to 1, and entry 0 has none.
pub const MASKS: [u64; 64] = [
    0x0000_0000_0000_0000,
    0x0000_0000_0000_0002,
    0x0000_0000_0000_0006,
    0x0000_0000_0000_000a,
    0x0000_0000_0000_0016,
    0x0000_0000_0000_0026,
    0x0000_0000_0000_004a,
    0x0000_0000_0000_008a,
    0x0000_0000_0000_0116,
    0x0000_0000_0000_0216,
    0x0000_0000_0000_0426,
    0x0000_0000_0000_0826,
    0x0000_0000_0000_104a,
    0x0000_0000_0000_204a,
    0x0000_0000_0000_408a,
    0x0000_0000_0000_808a,
    0x0000_0000_0001_0116,
    0x0000_0000_0002_0116,
    0x0000_0000_0004_0216,
    0x0000_0000_0008_0216,
    0x0000_0000_0010_0426,
    0x0000_0000_0020_0426,
    0x0000_0000_0040_0826,
    0x0000_0000_0080_0826,
    0x0000_0000_0100_104a,
    0x0000_0000_0200_104a,
    0x0000_0000_0400_204a,
    0x0000_0000_0800_204a,
    0x0000_0000_1000_408a,
    0x0000_0000_2000_408a,
    0x0000_0000_4000_808a,
    0x0000_0000_8000_808a,
    0x0000_0001_0001_0116,
    0x0000_0002_0001_0116,
    0x0000_0004_0002_0116,
    0x0000_0008_0002_0116,
    0x0000_0010_0004_0216,
    0x0000_0020_0004_0216,
    0x0000_0040_0008_0216,
    0x0000_0080_0008_0216,
    0x0000_0100_0010_0426,
    0x0000_0200_0010_0426,
    0x0000_0400_0020_0426,
    0x0000_0800_0020_0426,
    0x0000_1000_0040_0826,
    0x0000_2000_0040_0826,
    0x0000_4000_0080_0826,
    0x0000_8000_0080_0826,
    0x0001_0000_0100_104a,
    0x0002_0000_0100_104a,
    0x0004_0000_0200_104a,
    0x0008_0000_0200_104a,
    0x0010_0000_0400_204a,
    0x0020_0000_0400_204a,
    0x0040_0000_0800_204a,
    0x0080_0000_0800_204a,
    0x0100_0000_1000_408a,
    0x0200_0000_1000_408a,
    0x0400_0000_2000_408a,
    0x0800_0000_2000_408a,
    0x1000_0000_4000_808a,
    0x2000_0000_4000_808a,
    0x4000_0000_8000_808a,
    0x8000_0000_8000_808a,
];

/// The mask of a position; 0 has none, nor has what lies in no node.
pub fn mask(position: u8) -> u64
    ensures table { MarksTheWays MASKS }
    ensures entry { result ≡ slice_index MASKS position }
{
    MASKS.get(usize::from(position)).copied().unwrap_or(0)
}

/// Whether a position of a bitmap is marked; none is at a number that is no position.
pub fn is_marked(bitmap: u64, position: u8) -> bool
    ensures { result ≡ marked bitmap position }
{
    position < 64 && bitmap >> position & 1 == 1
}

/// A bitmap with a position marked; a number that is no position marks nothing.
pub fn with_mark(bitmap: u64, position: u8) -> u64
    ensures marks { position < 64 → result ≡ marks.with_mark bitmap position }
    ensures outside { 64 ≤ position → result ≡ bitmap }
{
    if position < 64 {
        bitmap | 1 << position
    } else {
        bitmap
    }
}

/// A bitmap with a position unmarked.
pub fn without_mark(bitmap: u64, position: u8) -> u64
    ensures { result ≡ marks.without_mark bitmap position }
{
    if is_marked(bitmap, position) {
        bitmap - (1 << position)
    } else {
        bitmap
    }
}

/// The marks of a bitmap at a position and at those on the way to it. The highest of them is the longest match; who goes on to another node first
/// need not work out which it is. There are none where the position lies in no node.
pub fn marks_on_the_way(bitmap: u64, position: u8) -> u64
    ensures deepest { (s : ℕ) → s ≤ 6 → 2 ^ (s - 1) ≤ position → position < 2 ^ s → HighestBit result (deepest_position bitmap s position) }
    ensures outside { 64 ≤ position → result ≡ 0 }
{
    let on_the_way = mask(position);
    bitmap & on_the_way
}

/// The highest position that is marked in a bitmap, among a position and those on the way to it; none where it lies in no node.
pub fn longest_match(bitmap: u64, position: u8) -> Option<u8>
    ensures highest { position < 64 → MatchOption result (NoneMarked bitmap position) (Highest bitmap position) }
    ensures deepest { (s : ℕ) → s ≤ 6 → 2 ^ (s - 1) ≤ position → position < 2 ^ s → result ≡ deepest_position bitmap s position }
    ensures outside { 64 ≤ position → result ≡ None }
{
    (bitmap & mask(position))
        .checked_ilog2()
        .map(|highest| highest as u8)
}
