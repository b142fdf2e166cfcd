//! The rules that the values of arguments have beside those of `clap`.

ghost use Rattle.std.specs.Prelude.{◌≡◌, ◌≤◌, ⊤, MatchOption, option_map};
ghost use Rattle.command_words.specs.Numbers.{is_file, number_in, within};
ghost use Rattle.command_words.specs.Commands.{functions_in, heap_in, stack_in, steps_in, value_in};

/// How many steps a run may make where the words do not say.
const DEFAULT_STEPS: u64 = 100_000_000;

/// How many steps a run may make at most.
const MOST_STEPS: u64 = 1_000_000_000;

/// How many bytes the heap of a run has where the words do not say.
const DEFAULT_HEAP: u64 = 16_777_216;

/// How many bytes the heap of a run has at most.
const MOST_HEAP: u64 = 268_435_456;

/// How many bytes the stack of a run has where the words do not say.
const DEFAULT_STACK: u64 = 1_048_576;

/// How many bytes the stack of a run has at most.
const MOST_STACK: u64 = 67_108_864;

/// How many functions a text that is made has at most.
const MOST_FUNCTIONS: u64 = 2_000;

/// Says whether a word can be a file's name: it is not empty and does not begin with a dash.
pub(crate) fn is_file(word: &str) -> bool
    ensures { result ≡ is_file word.now }
{
    match word.as_bytes() {
        [] => false,
        [first, ..] => *first != b'-',
    }
}

/// The number that a word gives, from the least to the most.
fn bounded(word: &str, least: u64, most: u64) -> Option<u64>
    ensures value { result ≡ within least most (number_in word.now) }
    ensures bound { MatchOption result ⊤ (λ n. (least ≤ n) × (n ≤ most)) }
{
    let number = number(word.as_bytes())?;
    if least <= number && number <= most {
        Some(number)
    } else {
        None
    }
}

/// The value of an option, from the least to the most, or its default, which is at most that.
fn value(word: Option<&str>, least: u64, most: u64, default: u64) -> Option<u64>
    requires { default ≤ most }
    ensures value { result ≡ value_in least most default (option_map (λ w. w.now) word.entry) }
    ensures bound { MatchOption result ⊤ (λ n. n ≤ most) }
{
    match word {
        Some(word) => bounded(word, least, most),
        None => Some(default),
    }
}

/// The greatest number of steps: the value of the option, from 1 to 1,000,000,000, or the default.
pub(crate) fn steps(word: Option<&str>) -> Option<u64>
    ensures value { result ≡ steps_in (option_map (λ w. w.now) word.entry) }
    ensures bound { MatchOption result ⊤ (λ n. n ≤ 1000000000) }
{
    value(word, 1, MOST_STEPS, DEFAULT_STEPS)
}

/// The bytes of the heap: the value of the option, from 0 to 268,435,456, or the default.
pub(crate) fn heap(word: Option<&str>) -> Option<u32>
    ensures value { result ≡ heap_in (option_map (λ w. w.now) word.entry) }
    ensures bound { MatchOption result ⊤ (λ n. n ≤ 268435456) }
{
    let bytes = value(word, 0, MOST_HEAP, DEFAULT_HEAP)?;
    Some(bytes as u32)
}

/// The bytes of the stack: the value of the option, from 0 to 67,108,864, or the default.
pub(crate) fn stack(word: Option<&str>) -> Option<u32>
    ensures value { result ≡ stack_in (option_map (λ w. w.now) word.entry) }
    ensures bound { MatchOption result ⊤ (λ n. n ≤ 67108864) }
{
    let bytes = value(word, 0, MOST_STACK, DEFAULT_STACK)?;
    Some(bytes as u32)
}

/// How many functions a text that is made has, from 1 to 2,000.
pub(crate) fn functions(word: &str) -> Option<u32>
    ensures value { result ≡ functions_in word.now }
    ensures bound { MatchOption result ⊤ (λ n. (1 ≤ n) × (n ≤ 2000)) }
{
    let number = bounded(word, 1, MOST_FUNCTIONS)?;
    Some(number as u32)
}

/// A number of 1 to 18 decimal digits.
fn number(digits: &[u8]) -> Option<u64>
    ensures { result ≡ number_in digits.now }
{
    if digits.is_empty() || digits.len() > 18 {
        return None;
    }
    let mut value = 0;
    for digit in digits {
        if !digit.is_ascii_digit() {
            return None;
        }
        value = 10 * value + u64::from(*digit - b'0');
    }
    Some(value)
}
