//! The free runs of a part of the row.

ghost use Rattle.std.specs.Prelude.{◌≡◌, ◌+◌, ◌^◌, ◌<◌, false, ◌++◌, length, replicate, MatchOption};
ghost use Rattle.hole_tree.specs.Granules.{HasNoHole, IsFirstHole};
ghost use Rattle.hole_tree.specs.Runs.{front_run, summary};

/// The lengths of three free runs of a part of the row, in granules.
#[derive(Clone, Copy, Debug, PartialEq, Eq)]
pub struct Node {
    /// The longest.
    pub longest: u32,
    /// The one at the part's front.
    pub front: u32,
    /// The one at the part's end.
    pub end: u32,
}

impl Node {
    /// The node of a part all of whose granules are free.
    pub fn all_free(len: u32) -> Node
        ensures { result ≡ summary (replicate len false) }
    {
        Node {
            longest: len,
            front: len,
            end: len,
        }
    }
}

/// How many granules at the front of a part are free.
fn free_at_front(part: &[bool]) -> u32
    requires { length part.now < 2 ^ 32 }
    ensures { result ≡ front_run part.now }
{
    for (index, taken) in part.iter().enumerate() {
        if *taken {
            return index as u32;
        }
    }
    part.len() as u32
}

/// The node of a part, by a look at each of its granules.
pub fn node_of(part: &[bool]) -> Node
    requires { length part.now < 2 ^ 32 }
    ensures { result ≡ summary part.now }
{
    let mut end: u32 = 0;
    let mut longest: u32 = 0;
    for taken in part {
        end = if *taken { 0 } else { end + 1 };
        longest = end.max(longest);
    }
    Node {
        longest,
        front: free_at_front(part),
        end,
    }
}

/// The node of two parts, one behind the other, from theirs.
pub fn joined(left: Node, left_part: &[bool], right: Node, right_part: &[bool]) -> Node
    requires left { left ≡ summary left_part.now }
    requires right { right ≡ summary right_part.now }
    requires fits { length left_part.now + length right_part.now < 2 ^ 32 }
    ensures { result ≡ summary (left_part.now ++ right_part.now) }
{
    let left_len = left_part.len() as u32;
    let right_len = right_part.len() as u32;
    let front = if left.front == left_len {
        left_len + right.front
    } else {
        left.front
    };
    let end = if right.front == right_len {
        right_len + left.end
    } else {
        right.end
    };
    let across = left.end + right.front;
    Node {
        longest: left.longest.max(right.longest).max(across),
        front,
        end,
    }
}

/// The lowest place of so many free granules in a row, by a look at each granule of a part.
pub fn first_in_part(part: &[bool], n: u32) -> Option<u32>
    requires some { 0 < n }
    requires fits { length part.now < 2 ^ 32 }
    ensures { MatchOption result (HasNoHole part.now n) (IsFirstHole part.now n) }
{
    let mut free = 0;
    for (index, taken) in part.iter().enumerate() {
        free = if *taken { 0 } else { free + 1 };
        if free == n {
            return Some(index as u32 + 1 - n);
        }
    }
    None
}
