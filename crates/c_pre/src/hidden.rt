//! The macros that are hidden from a token, by their numbers.

ghost use Rattle.std.specs.Prelude.{◌≡◌, ℕ, ◌≤◌, ◌-◌, ◌&&◌, ◌||◌, not, nat_lt, false, IfOk, IfSome, IsTrue};
ghost use Rattle.std.specs.Ordering.{nat_cmp};
ghost use Rattle.std.specs.FinSet as set;
ghost use Rattle.c_pre.specs.Trees.{has, IsJoined, is_between};

use hs_base::NoMemory;
use std::alloc::Global;
use std::marker::Model;
use std::rc::Rc;

/// The greatest half of a set: a text of 2 to the 20 bytes has fewer than 2 to the 17 definitions, of ten bytes at least.
const HALF: u32 = 1 << 16;

/// How many parts of two sets are looked at to find that they are the same.
const MOST_LOOKS: u32 = 128;

/// A set of numbers. Sets that are made of one another share their parts.
#[cycle(tree)]
#[derive(Drop)]
pub(crate) enum Tree {
    Empty,
    /// Those from the first number on and below the second.
    Range(u32, u32),
    Parts(Rc<Halves>),
}

/// A set in two parts.
#[cycle(tree)]
#[derive(Drop)]
pub(crate) struct Halves {
    /// The number that parts them.
    half: u32,
    /// The numbers below it.
    low: Tree,
    /// The others, less it.
    high: Tree,
}

/// The numbers from one on and below another.
fn range(from: u32, to: u32) -> Tree
    ensures { (n : ℕ) → has result n ≡ (not (nat_lt n from) && nat_lt n to) }
{
    if from < to {
        Tree::Range(from, to)
    } else {
        Tree::Empty
    }
}

/// The same set, whose parts are shared.
fn shared(tree: &Tree) -> Result<Tree, NoMemory>
    ensures { IfOk result (λ same. (n : ℕ) → has same n ≡ has tree.now n) }
{
    Ok(match tree {
        Tree::Empty => Tree::Empty,
        Tree::Range(from, to) => Tree::Range(*from, *to),
        Tree::Parts(halves) => Tree::Parts(halves.clone()?),
    })
}

/// Whether a number is in a set.
fn has(tree: &Tree, number: u32) -> bool
    ensures { result ≡ has tree.now number }
{
    match tree {
        Tree::Empty => false,
        Tree::Range(from, to) => *from <= number && number < *to,
        Tree::Parts(halves) => {
            if number < halves.half {
                has(&halves.low, number)
            } else {
                has(&halves.high, number - halves.half)
            }
        }
    }
}

/// Whether all numbers of a set are below one. The answer no says nothing.
fn is_below(tree: &Tree, bound: u32) -> bool
    ensures { (n : ℕ) → IsTrue result → bound ≤ n → has tree.now n ≡ false }
{
    match tree {
        Tree::Empty => true,
        Tree::Range(_, to) => *to <= bound,
        Tree::Parts(halves) => halves.half <= bound && is_below(&halves.high, bound - halves.half),
    }
}

/// A power of two to part the numbers below one at: none of them is its double or more, as there are few enough macros.
fn half_below(to: u32) -> u32 {
    let mut half = HALF;
    while half > 1 && half >= to {
        half /= 2;
    }
    half
}

/// Where a set can be parted: none of its numbers is the double of that or more.
fn top_half(tree: &Tree) -> u32 {
    match tree {
        Tree::Empty => 1,
        Tree::Range(_, to) => half_below(*to),
        Tree::Parts(halves) => halves.half,
    }
}

/// The numbers of a set below a half, and the others, less the half. Where a set is in two parts, it is parted there, or all its
/// numbers are below: all sets are parted at powers of two.
fn split(tree: &Tree, half: u32) -> Result<(Tree, Tree), NoMemory>
    ensures { IfOk result (λ parts. IsJoined half parts.0 parts.1 tree.now) }
{
    match tree {
        Tree::Empty => Ok((Tree::Empty, Tree::Empty)),
        Tree::Range(from, to) => Ok((
            range(*from, (*to).min(half)),
            range(from.saturating_sub(half), to.saturating_sub(half)),
        )),
        Tree::Parts(halves) => {
            if halves.half == half {
                Ok((shared(&halves.low)?, shared(&halves.high)?))
            } else if is_below(tree, half) {
                Ok((shared(tree)?, Tree::Empty))
            } else {
                Err(NoMemory)
            }
        }
    }
}

/// The set of two parts as one range, where it is one.
fn joined_range(half: u32, low: &Tree, high: &Tree) -> Option<Tree>
    ensures { IfSome result (IsJoined half low.now high.now) }
{
    match (low, high) {
        (Tree::Empty, Tree::Empty) => Some(Tree::Empty),
        (Tree::Range(from, to), Tree::Empty) if *to <= half => Some(Tree::Range(*from, *to)),
        (Tree::Empty, Tree::Range(from, to)) => {
            Some(Tree::Range(from.checked_add(half)?, to.checked_add(half)?))
        }
        (Tree::Range(from, to), Tree::Range(0, end)) if *from <= half && *to == half => {
            Some(Tree::Range(*from, end.checked_add(half)?))
        }
        _ => None,
    }
}

/// The set of two parts.
fn joined(alloc: Global, half: u32, low: Tree, high: Tree) -> Result<Tree, NoMemory>
    ensures { IfOk result (IsJoined half low high) }
{
    match joined_range(half, &low, &high) {
        Some(whole) => Ok(whole),
        None => Ok(Tree::Parts(Rc::new(alloc, Halves { half, low, high })?)),
    }
}

/// Whether a set has no part. The answer no says nothing.
fn is_empty(tree: &Tree) -> bool
    ensures { (n : ℕ) → IsTrue result → has tree.now n ≡ false }
{
    matches!(tree, Tree::Empty)
}

/// Whether two sets are the same, where no more than so many of their parts show it, and how many more may be looked at. The
/// answer none says nothing.
fn is_same(left: &Tree, right: &Tree, looks: u32) -> Option<u32>
    ensures { IfSome result (λ _. (n : ℕ) → has left.now n ≡ has right.now n) }
{
    let looks = looks.checked_sub(1)?;
    match (left, right) {
        (Tree::Empty, Tree::Empty) => Some(looks),
        (Tree::Range(from, to), Tree::Range(start, end)) if *from == *start && *to == *end => Some(
            looks,
        ),
        (Tree::Parts(left), Tree::Parts(right)) if left.half == right.half => {
            let looks = is_same(&left.low, &right.low, looks)?;
            is_same(&left.high, &right.high, looks)
        }
        _ => None,
    }
}

/// Whether a range lies in a set. The answer no says nothing.
fn range_is_within(from: u32, to: u32, tree: &Tree) -> bool
    ensures { (n : ℕ) → IsTrue result → IsTrue (is_between from to n) → IsTrue (has tree.now n) }
{
    match tree {
        Tree::Empty => from >= to,
        Tree::Range(start, end) => from >= to || (*start <= from && to <= *end),
        Tree::Parts(halves) => {
            if to <= halves.half {
                range_is_within(from, to, &halves.low)
            } else if from >= halves.half {
                range_is_within(from - halves.half, to - halves.half, &halves.high)
            } else {
                false
            }
        }
    }
}

/// Whether one set lies in another. The answer no says nothing.
fn is_within(inner: &Tree, outer: &Tree) -> bool
    ensures { (n : ℕ) → IsTrue result → IsTrue (has inner.now n) → IsTrue (has outer.now n) }
{
    match (inner, outer) {
        (Tree::Empty, _) => true,
        (Tree::Range(from, to), _) => range_is_within(*from, *to, outer),
        (Tree::Parts(inner), Tree::Parts(outer)) => {
            inner.half == outer.half
                && is_within(&inner.low, &outer.low)
                && is_within(&inner.high, &outer.high)
        }
        _ => false,
    }
}

/// Two ranges as one, where they are one.
fn united_ranges(left: &Tree, right: &Tree) -> Option<Tree>
    ensures { IfSome result (λ whole. (n : ℕ) → has whole n ≡ (has left.now n || has right.now n)) }
{
    match (left, right) {
        (Tree::Range(from, to), Tree::Range(start, end)) if *from <= *end && *start <= *to => {
            Some(Tree::Range((*from).min(*start), (*to).max(*end)))
        }
        _ => None,
    }
}

/// The numbers of two sets, in parts of their own: what is made is parted at the half, and its parts at the half of that.
fn united(alloc: Global, half: u32, left: &Tree, right: &Tree) -> Result<Tree, NoMemory>
    ensures { IfOk result (λ both. (n : ℕ) → has both n ≡ (has left.now n || has right.now n)) }
{
    if is_empty(left) {
        return shared(right);
    }
    if is_empty(right) {
        return shared(left);
    }
    if let Some(both) = united_ranges(left, right) {
        return Ok(both);
    }
    if half == 0 {
        return Err(NoMemory);
    }
    let (left_low, left_high) = split(left, half)?;
    let (right_low, right_high) = split(right, half)?;
    let low = united(alloc, half / 2, &left_low, &right_low)?;
    let high = united(alloc, half / 2, &left_high, &right_high)?;
    joined(alloc, half, low, high)
}

/// The numbers that two ranges have both, where these are ranges.
fn common_range(left: &Tree, right: &Tree) -> Option<Tree>
    ensures { IfSome result (λ whole. (n : ℕ) → has whole n ≡ (has left.now n && has right.now n)) }
{
    match (left, right) {
        (Tree::Range(from, to), Tree::Range(start, end)) => {
            Some(range((*from).max(*start), (*to).min(*end)))
        }
        _ => None,
    }
}

/// The numbers that two sets have both, in parts of their own.
fn common(alloc: Global, half: u32, left: &Tree, right: &Tree) -> Result<Tree, NoMemory>
    ensures { IfOk result (λ both. (n : ℕ) → has both n ≡ (has left.now n && has right.now n)) }
{
    if is_empty(left) || is_empty(right) {
        return Ok(Tree::Empty);
    }
    if let Some(both) = common_range(left, right) {
        return Ok(both);
    }
    if half == 0 {
        return Err(NoMemory);
    }
    let (left_low, left_high) = split(left, half)?;
    let (right_low, right_high) = split(right, half)?;
    let low = common(alloc, half / 2, &left_low, &right_low)?;
    let high = common(alloc, half / 2, &left_high, &right_high)?;
    joined(alloc, half, low, high)
}

/// The numbers of two sets: where one lies in the other, that itself.
fn union(alloc: Global, left: &Tree, right: &Tree) -> Result<Tree, NoMemory>
    ensures { IfOk result (λ all. (n : ℕ) → has all n ≡ (has left.now n || has right.now n)) }
{
    if is_within(left, right) {
        shared(right)
    } else if is_within(right, left) {
        shared(left)
    } else {
        united(alloc, top_half(left).max(top_half(right)), left, right)
    }
}

/// The numbers that two sets have both: where one lies in the other, that itself.
fn intersection(alloc: Global, left: &Tree, right: &Tree) -> Result<Tree, NoMemory>
    ensures { IfOk result (λ both. (n : ℕ) → has both n ≡ (has left.now n && has right.now n)) }
{
    if is_within(left, right) {
        shared(left)
    } else if is_within(right, left) {
        shared(right)
    } else {
        common(alloc, top_half(left).max(top_half(right)), left, right)
    }
}

/// The macros that are hidden from a token, by their numbers.
#[derive(Drop)]
pub(crate) struct Hidden {
    tree: Tree,
}

impl Model for Hidden {
    ghost use Rattle.std.specs.Ordering.{nat_cmp};
    ghost use Rattle.std.specs.FinSet as set;
    ghost use Rattle.std.specs.Coded.{coded_ℕ};

    ghost Value = { set.FinSet nat_cmp };

    ghost coded = { set.code coded_ℕ };

    ghost use Rattle.c_pre.specs.Trees.{numbers};

    ghost view = { λ h. numbers h.tree };
}

impl Hidden {
    /// No macro.
    pub(crate) fn new() -> Hidden
        ensures { result ≡ set.empty }
    {
        Hidden { tree: Tree::Empty }
    }

    /// Whether a macro is hidden.
    pub(crate) fn has(&self, number: u32) -> bool
        ensures { result ≡ set.contains self.now number }
    {
        has(&self.tree, number)
    }

    /// Whether the same macros are hidden, where few parts of the sets show it. The answer no says nothing.
    pub(crate) fn is_same(&self, other: &Hidden) -> bool
        ensures { IsTrue result → self.now ≡ other.now }
    {
        is_same(&self.tree, &other.tree, MOST_LOOKS).is_some()
    }

    /// Whether the set has parts.
    pub(crate) fn has_parts(&self) -> bool {
        matches!(self.tree, Tree::Parts(_))
    }

    /// The same macros.
    pub(crate) fn share(&self) -> Result<Hidden, NoMemory>
        ensures { IfOk result (λ same. same ≡ self.now) }
    {
        Ok(Hidden {
            tree: shared(&self.tree)?,
        })
    }

    /// These macros and one more.
    pub(crate) fn with(&self, alloc: Global, number: u32) -> Result<Hidden, NoMemory>
        ensures { IfOk result (λ more. more ≡ set.insert self.now number) }
    {
        let Some(next) = number.checked_add(1) else {
            return Err(NoMemory);
        };
        Ok(Hidden {
            tree: union(alloc, &self.tree, &Tree::Range(number, next))?,
        })
    }

    /// The macros of both.
    pub(crate) fn union(&self, alloc: Global, other: &Hidden) -> Result<Hidden, NoMemory>
        ensures { IfOk result (λ all. all ≡ set.union self.now other.now) }
    {
        Ok(Hidden {
            tree: union(alloc, &self.tree, &other.tree)?,
        })
    }

    /// The macros that are hidden in both.
    pub(crate) fn intersection(&self, alloc: Global, other: &Hidden) -> Result<Hidden, NoMemory>
        ensures { IfOk result (λ both. both ≡ set.intersection self.now other.now) }
    {
        Ok(Hidden {
            tree: intersection(alloc, &self.tree, &other.tree)?,
        })
    }
}
