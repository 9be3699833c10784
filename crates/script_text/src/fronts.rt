//! Fronts of texts: by one the name is found with which a text begins.

ghost use Rattle.std.specs.Prelude.{◌≡◌, ◌+◌, ◌-◌, ◌*◌, ◌^◌, ◌≤◌, ℕ, List, min, Bool, true, IfSome};
ghost use Rattle.script_text.specs.Fronts.{BeginsWithWords, FindsName, HasWords, IsFrontOf};

/// An odd number whose bits look drawn.
const MIXER: u64 = 0x9e37_79b9_7f4a_7c15;

/// The first sixteen bytes of a text, as two numbers.
#[derive(Clone, Copy)]
pub(crate) struct Words {
    pub first: u64,
    pub last: u64,
}

/// Where a name is, and the bytes that it and the LF behind it are in the words of a text.
#[derive(Clone, Copy)]
pub(crate) struct Front {
    first: u64,
    last: u64,
    // which bits of the words are of these bytes
    first_mask: u64,
    last_mask: u64,
    pub position: u32,
    pub end: u32,
}

/// The words of a text.
#[inline(always)]
pub(crate) fn words_of(text: &[u8]) -> Option<Words>
    ensures { IfSome result (λ words. BeginsWithWords text.now words) }
{
    let (first, rest) = text.split_first_chunk::<8>()?;
    let last = rest.first_chunk::<8>()?;
    Some(Words {
        first: u64::from_le_bytes(*first),
        last: u64::from_le_bytes(*last),
    })
}

impl Words {
    /// A sum of the first ten bytes: of a short name, and of what comes after it.
    #[inline(always)]
    pub fn sum(self) -> u8 {
        let last = self.last & 0xffff;
        mixed(self.first ^ last.wrapping_mul(MIXER))
    }
}

impl Front {
    /// The front of no text. A name at this position is found otherwise.
    #[inline(always)]
    pub fn nowhere(position: u32) -> Front
        ensures { (names : List (List ℕ)) → FindsName names result }
    {
        Front {
            first: 1,
            last: 0,
            first_mask: 0,
            last_mask: 0,
            position,
            end: 0,
        }
    }

    /// The front of texts that begin with this many bytes of these words.
    pub fn of(words: Words, position: u32, end: u32) -> Front
        ensures { IsFrontOf words position end result }
    {
        let first_mask = mask_of(end);
        let last_mask = mask_of(end.saturating_sub(8));
        Front {
            first: words.first & first_mask,
            last: words.last & last_mask,
            first_mask,
            last_mask,
            position,
            end,
        }
    }

    /// Whether a text with these words begins with the bytes.
    #[inline(always)]
    pub fn is_in(&self, words: Words) -> bool
        ensures { result ≡ true → HasWords self.now words }
    {
        words.first & self.first_mask == self.first && words.last & self.last_mask == self.last
    }
}

/// The bits of this many low bytes of a word.
fn mask_of(bytes: u32) -> u64
    ensures { result ≡ 2 ^ (8 * min bytes 8) - 1 }
{
    match bytes {
        0..=7 => (1 << (8 * bytes)) - 1,
        _ => u64::MAX,
    }
}

/// A byte on which each bit of a number has an influence.
#[inline(always)]
fn mixed(number: u64) -> u8 {
    number.wrapping_mul(MIXER).to_le_bytes()[7]
}
