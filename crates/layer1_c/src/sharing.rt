// Document 02, S-4: the PIDS places of an L1 frame. The shares and the counts of the eight sources cross in a word each, so neither has a length that could be wrong.
ghost use Rattle.std.specs.Prelude.{◌≡◌};
ghost use Rattle.allocation.specs.Allocation.{shared};
ghost use Rattle.exported.specs.Left.{places_left, places_left_by};
ghost use Rattle.words.specs.Words.{eight_of};

// Shares the sixteen places among the eight sources.
#[unsafe(no_mangle)]
pub extern "C" fn layer1_share_places(shares: u64, waiting: u64, places: &mut [u8]) -> u64
    ensures { places_left result places.new ≡ places_left_by (shared (eight_of shares) (eight_of waiting) places.old) }
{
    exported::layer1_share_places(shares, waiting, places)
}
