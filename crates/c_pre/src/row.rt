//! Rows of tokens.

ghost use Rattle.std.specs.Prelude.{◌≡◌, ◌<◌, ◌≤◌, ◌+◌, IfOk, IfSome, OnOk, length, vec_len};
ghost use Rattle.c_pre.specs.Rows.{Pair, Paired, PairedUpTo};

use crate::directive::is_sign;
use crate::marked::Marked;
use crate::queue::Queue;
use hs_base::NoMemory;
use std::alloc::Global;
use std::rc::Rc;

/// Where each `(` of some tokens has its `)`, as far as they were looked at.
#[derive(Drop)]
struct Pairs {
    /// For each token that is a `(` with its `)` the place of that, and 0 for each other.
    ends: Vec<usize>,
    /// The places of the others that are a `(`, the last first.
    waiting: Queue<usize>,
}

impl Pairs {
    /// Looks at the token at the next place.
    fn add(&mut self, tokens: &[Marked], at: usize) -> Result<(), NoMemory>
        requires pairs { PairedUpTo tokens.now at self.old.ends.items self.old.waiting }
        requires within { at < length tokens.now }
        ensures { OnOk result (PairedUpTo tokens.now (at + 1) self.new.ends.items self.new.waiting) }
    {
        let token = &tokens[at].token;
        self.ends.push(0)?;
        if is_sign(b'(', token) {
            self.waiting.push_front(at)?;
        } else if is_sign(b')', token) {
            if let Some(from) = self.waiting.pop() {
                self.ends[from] = at;
            }
        }
        Ok(())
    }
}

/// For each of some tokens that is a `(` with its `)` the place of that, and 0 for each other; nothing where none is a `(`.
fn paired(alloc: Global, tokens: &[Marked]) -> Result<Vec<usize>, NoMemory>
    ensures { IfOk result (λ ends. Paired tokens.now ends.items) }
{
    let mut pairs = Pairs {
        ends: Vec::new(alloc),
        waiting: Queue::new(alloc),
    };
    if tokens.iter().any(|marked| is_sign(b'(', &marked.token)) {
        for at in 0..tokens.len() {
            pairs.add(tokens, at)?;
        }
    }
    Ok(pairs.ends)
}

/// Tokens in a row, which its pieces share.
#[derive(Drop)]
pub(crate) struct Row {
    pub(crate) tokens: Vec<Marked>,
    ends: Vec<usize>,
    ghost paired: { Paired tokens.items ends.items },
}

impl Row {
    /// These tokens.
    pub(crate) fn new(alloc: Global, tokens: Vec<Marked>) -> Result<Row, NoMemory>
        ensures { IfOk result (λ row. row.tokens.items ≡ tokens.items) }
    {
        let ends = paired(alloc, tokens.as_slice())?;
        Ok(Row { tokens, ends })
    }

    /// Where the token at a place is a `(` with its `)`, the place of that.
    pub(crate) fn end_of(&self, at: usize) -> Option<usize>
        ensures { IfSome result (λ end. (at < end) × Pair self.now.tokens.items at end) }
    {
        match self.ends.get(at) {
            Some(end) if at < *end => Some(*end),
            _ => None,
        }
    }
}

/// The tokens of a row from one place on and before another.
#[derive(Drop)]
pub(crate) struct Piece {
    pub(crate) row: Rc<Row>,
    pub(crate) from: usize,
    pub(crate) to: usize,
    ghost some: { from < to },
    ghost within: { to ≤ vec_len row.value.tokens },
}
