//! How often the words of each sort stand in specs (C99 6.7.1 and 6.7.2).

ghost use Rattle.std.specs.Prelude.{◌≡◌, ◌<◌, ◌≤◌, ◌+◌, ◌^◌};
ghost use Rattle.c_tree.specs.Allowed as rules;
ghost use Rattle.grammar_reading.specs.Declarators as spec;
ghost use Rattle.parser_parts.specs.Tallies.{tally_of, total};

use c_tree::Keyword;

/// How often the words of each sort stand in specs.
#[derive(Clone, Copy, Debug, Drop)]
pub struct Tally {
    pub storage: usize,
    pub void: usize,
    pub char: usize,
    pub short: usize,
    pub int: usize,
    pub long: usize,
    pub sign: usize,
    pub whole: usize,
}

impl Tally {
    /// No words.
    pub const NONE: Tally = Tally {
        storage: 0,
        void: 0,
        char: 0,
        short: 0,
        int: 0,
        long: 0,
        sign: 0,
        whole: 0,
    };
}

/// With one keyword more.
#[tactic(auto, unfolding(c_tree::specs::Allowed::with_keyword))]
pub fn with_keyword(tally: Tally, keyword: Keyword) -> Tally
    requires { total tally + 1 < 2 ^ 64 }
    ensures tally { tally_of result ≡ rules.with_keyword keyword (tally_of tally) }
    ensures total { total result ≤ total tally + 1 }
{
    let mut more = tally;
    match keyword {
        Keyword::Static | Keyword::Extern | Keyword::Typedef => more.storage += 1,
        Keyword::Void => more.void += 1,
        Keyword::Char => more.char += 1,
        Keyword::Short => more.short += 1,
        Keyword::Int => more.int += 1,
        Keyword::Long => more.long += 1,
        Keyword::Signed | Keyword::Unsigned => more.sign += 1,
        _ => {}
    }
    more
}

/// With one tag or typedef name more.
pub fn with_whole(tally: Tally) -> Tally
    requires { total tally + 1 < 2 ^ 64 }
    ensures tally { tally_of result ≡ spec.with_whole (tally_of tally) }
    ensures total { total result ≤ total tally + 1 }
{
    let mut more = tally;
    more.whole += 1;
    more
}

/// Says whether there is a type word yet.
pub fn has_type_word(tally: Tally) -> bool
    ensures { result ≡ spec.has_type_word (tally_of tally) }
{
    tally.void != 0
        || tally.char != 0
        || tally.short != 0
        || tally.int != 0
        || tally.long != 0
        || tally.sign != 0
        || tally.whole != 0
}

/// Says whether the words of specs are those of an integer type (C99 6.7.2).
fn is_integer_type(tally: Tally) -> bool
    ensures { result ≡ rules.is_integer_type (tally_of tally) }
{
    if tally.sign > 1 {
        return false;
    }
    if tally.char != 0 {
        return tally.char == 1 && tally.short == 0 && tally.long == 0 && tally.int == 0;
    }
    tally.int <= 1
        && tally.short <= 1
        && tally.long <= 2
        && (tally.short == 0 || tally.long == 0)
        && (tally.sign != 0 || tally.short != 0 || tally.long != 0 || tally.int != 0)
}

/// Says whether the words of specs are those of one type (C99 6.7.2).
fn is_one_type(tally: Tally) -> bool
    requires { total tally < 2 ^ 64 }
    ensures { result ≡ rules.is_one_type (tally_of tally) }
{
    if tally.void + tally.whole == 0 {
        return is_integer_type(tally);
    }
    tally.void + tally.whole == 1
        && tally.char + tally.short + tally.long + tally.int + tally.sign == 0
}

/// Says whether specs may stand here, where `static`, `extern` and `typedef` may not where they are plain.
#[tactic(auto, unfolding(c_tree::specs::Allowed::are_specs))]
pub fn may_stand(plain: bool, tally: Tally) -> bool
    requires { total tally < 2 ^ 64 }
    ensures { result ≡ spec.may_stand plain (tally_of tally) }
{
    is_one_type(tally) && tally.storage <= 1 && (!plain || tally.storage == 0)
}
