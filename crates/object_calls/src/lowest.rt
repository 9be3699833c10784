//! A word of bits, taken apart from its lowest bit on.

ghost use Rattle.std.specs.Prelude.{◌<◌};
ghost use Rattle.object_calls.specs.Lowest.{TakesLowest};

/// Takes the lowest bit out of a word that has one, and says its place.
pub fn take_lowest(word: &mut u64) -> u8
    requires { 0 < word.old }
    ensures { TakesLowest word.old result word.new }
{
    let k = word.trailing_zeros() as u8;
    *word &= !(1 << k);
    k
}
