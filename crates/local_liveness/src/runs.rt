//! Runs of neighbouring registers, and the bits of words in which they are found.

ghost use Rattle.std.specs.Prelude.{◌≡◌, ◌==◌, ◌<◌, ◌≤◌, ◌+◌, ◌*◌, ◌^◌, ℕ, bit_and, cond, not, slice_index};
ghost use Rattle.std.specs.Int.{bit_at};
ghost use Rattle.local_liveness.specs.Sets.{has, in_both, Becomes, IsFirst};

/// Neighbouring registers: those from `first` on, below `end`.
#[derive(Clone, Copy, Debug, PartialEq, Eq)]
pub struct Run {
    pub first: u32,
    pub end: u32,
}

/// Sets or clears a bit of words. One past the last word is left out.
pub(crate) fn put(words: &mut [u64], bit: usize, on: bool)
    ensures { Becomes (λ r. cond (bit == r) on (has words.old r)) words.old words.new }
{
    let place = bit / 64;
    if place >= words.len() {
        return;
    }
    if on {
        words[place] |= 1 << (bit % 64);
    } else {
        words[place] &= !(1 << (bit % 64));
    }
}

/// The first bit from one on, below a bound, that two lists of words both have, or not; the bound where there is none such.
pub(crate) fn first_bit(
    ones: &[u64],
    others: &[u64],
    from: usize,
    until: usize,
    common: bool,
) -> usize
    requires order { from ≤ until }
    requires small { until ≤ 2 ^ 32 }
    ensures { IsFirst (in_both ones.now others.now) common from until result }
{
    let mut bit = from;
    while bit < until {
        let place = bit / 64;
        let word = bits(ones, others, place, common) & (u64::MAX << (bit % 64));
        if word != 0 {
            let found = 64 * place + word.trailing_zeros() as usize;
            return found.min(until);
        }
        bit = 64 * place + 64;
    }
    until
}

/// A word that has a bit where two lists of words both have one, or where they have not.
fn bits(ones: &[u64], others: &[u64], place: usize, common: bool) -> u64
    requires { place < 2 ^ 32 }
    ensures { (i : ℕ) → i < 64 → let found = in_both ones.now others.now (64 * place + i) in (bit_at result i == 1) ≡ cond common found (not found) }
{
    let word = common_word(ones, others, place);
    if common { word } else { !word }
}

/// What two lists of words have in common at a place. Past the last word of one of them that is nothing.
fn common_word(ones: &[u64], others: &[u64], place: usize) -> u64
    ensures { result ≡ bit_and (slice_index ones.now place) (slice_index others.now place) }
{
    if place >= ones.len() || place >= others.len() {
        return 0;
    }
    ones[place] & others[place]
}
