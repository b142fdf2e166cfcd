//! Groups of lines that are read or skipped (C99 6.10.1).

ghost use Rattle.std.specs.Prelude.{◌≡◌, [], ◌∷◌, ◌++◌, false, OnOk, codes};
ghost use Rattle.c_pre.specs.Groups.{is_live, is_outermost, ends_skipping, is_read, is_over, opened, turned, branched, closed, skipped, is_word, first_line};
ghost use Rattle.c_pre.specs.After.{at_line};
ghost use Rattle.c_pre.specs.Answering.{Leaves};

use crate::answer::{PreKind, Refusal};
use hs_base::{Line, NoMemory};
use std::alloc::Global;
use std::marker::Model;

/// A group that is open: the lines between an `#if`, `#ifdef` or `#ifndef` and its `#endif`.
#[derive(Clone, Copy)]
pub(crate) struct Group {
    /// The line of the directive that opened it.
    pub(crate) line: Line,
    /// Whether its `#else` was read.
    pub(crate) turned: bool,
    /// Whether lines of it were read.
    pub(crate) taken: bool,
    /// Whether its lines are read.
    pub(crate) live: bool,
}

/// The open groups of a text, the innermost last.
#[derive(Drop)]
pub(crate) struct Groups {
    list: Vec<Group>,
}

impl Model for Groups {
    ghost use Rattle.std.specs.Prelude.{List};
    ghost use Rattle.c_pre.specs.declared.groups.Group.{Group};

    ghost Value = { List Group };

    ghost view = { λ g. g.list.items };
}

/// The refusal of a directive without its group.
fn unbalanced(line: Line) -> Result<(), Refusal>
    ensures { result ≡ Err (Refusal.Bad PreKind.Unbalanced line) }
{
    Err(Refusal::Bad {
        kind: PreKind::Unbalanced,
        line,
    })
}

/// Whether a word opens a group, whatever its condition.
fn is_group_word(word: &[u8]) -> bool
    ensures { result ≡ is_word word.now (codes "if" ∷ codes "ifdef" ∷ codes "ifndef" ∷ []) }
{
    let words: [&[u8]; 3] = [b"if", b"ifdef", b"ifndef"];
    words.iter().any(|other| word == *other)
}

/// Whether a word goes on behind a group or ends it.
fn is_ending_word(word: &[u8]) -> bool
    ensures { result ≡ is_word word.now (codes "elif" ∷ codes "else" ∷ codes "endif" ∷ []) }
{
    let words: [&[u8]; 3] = [b"elif", b"else", b"endif"];
    words.iter().any(|other| word == *other)
}

impl Groups {
    /// No open group.
    pub(crate) fn new(alloc: Global) -> Groups
        ensures { result ≡ [] }
    {
        Groups {
            list: Vec::new(alloc),
        }
    }

    /// Whether lines are read.
    #[tactic(auto, unfolding(crate::specs::Groups::is_live))]
    pub(crate) fn is_live(&self) -> bool
        ensures { result ≡ is_live self.now }
    {
        match self.list.last().copied() {
            Some(group) => group.live,
            None => true,
        }
    }

    /// Whether the innermost group is the outermost of those that are skipped.
    #[tactic(auto, unfolding(crate::specs::Groups::is_outermost))]
    fn is_outermost(&self) -> bool
        ensures { result ≡ is_outermost self.now }
    {
        let count = self.list.len();
        count < 2 || self.list[count - 2].live
    }

    /// Whether a directive with this first word may end the skipping.
    #[tactic(auto, unfolding(crate::specs::Groups::ends_skipping))]
    fn ends_skipping(&self, word: &[u8]) -> bool
        ensures { result ≡ ends_skipping word.now self.now }
    {
        self.is_outermost() && is_ending_word(word)
    }

    /// Whether a directive with this first word is read: where lines are, and where it may end the skipping.
    pub(crate) fn is_read(&self, word: &[u8]) -> bool
        ensures { result ≡ is_read word.now self.now }
    {
        self.is_live() || self.ends_skipping(word)
    }

    /// The line that opened the outermost group, where one is open.
    #[tactic(auto, unfolding(crate::specs::Groups::first_line))]
    pub(crate) fn first_line(&self) -> Option<Line>
        ensures { result ≡ first_line self.now }
    {
        match self.list.first().copied() {
            Some(group) => Some(group.line),
            None => None,
        }
    }

    /// Opens a group.
    pub(crate) fn open(&mut self, line: Line, live: bool) -> Result<(), NoMemory>
        ensures { OnOk result (self.new ≡ self.old ++ opened line live ∷ []) }
    {
        self.list.push(Group {
            line,
            turned: false,
            taken: live,
            live,
        })?;
        Ok(())
    }

    /// Whether a directive with this first word is an `#elif` whose condition is not asked: lines of its group were read.
    #[tactic(auto, unfolding(crate::specs::Groups::is_over))]
    pub(crate) fn is_over(&self, word: &[u8]) -> bool
        ensures { result ≡ is_over word.now self.now }
    {
        word == b"elif".as_slice()
            && match self.list.last().copied() {
                Some(group) => group.taken,
                None => false,
            }
    }

    /// Goes on behind the `#else` of the innermost group.
    #[tactic(auto, unfolding(crate::specs::Groups::turned))]
    pub(crate) fn turn(&mut self, line: Line) -> Result<(), Refusal>
        ensures { Leaves (at_line line (turned self.old)) self.new result }
    {
        let Some(group) = self.list.last().copied() else {
            return unbalanced(line);
        };
        if group.turned {
            return unbalanced(line);
        }
        let turned = Group {
            line: group.line,
            turned: true,
            taken: true,
            live: !group.taken,
        };
        let innermost = self.list.len() - 1;
        self.list[innermost] = turned;
        Ok(())
    }

    /// Goes on behind an `#elif` of the innermost group, whose lines are read or not.
    #[tactic(auto, unfolding(crate::specs::Groups::branched))]
    pub(crate) fn branch(&mut self, line: Line, live: bool) -> Result<(), Refusal>
        ensures { Leaves (at_line line (branched live self.old)) self.new result }
    {
        let Some(group) = self.list.last().copied() else {
            return unbalanced(line);
        };
        if group.turned {
            return unbalanced(line);
        }
        let branched = Group {
            line: group.line,
            turned: false,
            taken: group.taken || live,
            live,
        };
        let innermost = self.list.len() - 1;
        self.list[innermost] = branched;
        Ok(())
    }

    /// Goes on behind the `#endif` of the innermost group.
    #[tactic(auto, unfolding(crate::specs::Groups::closed))]
    pub(crate) fn close(&mut self, line: Line) -> Result<(), Refusal>
        ensures { Leaves (at_line line (closed self.old)) self.new result }
    {
        match self.list.pop() {
            Some(_) => Ok(()),
            None => unbalanced(line),
        }
    }

    /// Goes on behind a directive that is not read, by its first word.
    #[tactic(auto, unfolding(crate::specs::Groups::skipped))]
    pub(crate) fn pass(&mut self, word: &[u8], line: Line) -> Result<(), Refusal>
        ensures { Leaves (at_line line (skipped word.now line self.old)) self.new result }
    {
        if is_group_word(word) {
            self.open(line, false)?;
            return Ok(());
        }
        if word == b"endif".as_slice() {
            return self.close(line);
        }
        Ok(())
    }
}
