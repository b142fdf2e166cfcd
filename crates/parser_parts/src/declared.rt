//! The names that are declared, and which of them are types.

ghost use Rattle.std.specs.Prelude.{◌≡◌, ◌-◌, ◌<◌, ◌+◌, List, length, take, drop, reverse, [], ◌++◌, IfOk, OnOk, OnErr, Some, ◌∷◌, slice_get};
ghost use Rattle.c_tree.specs.Scopes as scopes;
ghost use Rattle.parser_parts.specs.Names.{known, known_names, Marks, without_latest, oldest};

use hs_base::NoMemory;
use std::alloc::Global;
use std::collections::HashSet;
use std::marker::Model;

/// A name that is declared, and whether it is a typedef name.
#[derive(Clone, Copy, Debug, Drop)]
pub struct Named<'a> {
    pub name: &'a [u8],
    pub is_type: bool,
}

/// A declaration, and whether its name was a type before it.
#[derive(Clone, Copy, Debug, Drop)]
pub struct Entry<'a> {
    pub named: Named<'a>,
    was_type: bool,
}

/// The declarations that hold at a place.
#[derive(Drop)]
pub struct Names<'a> {
    /// The declarations, the latest last.
    log: Vec<Entry<'a>>,
    /// The names of which the latest declaration is a typedef.
    types: HashSet<&'a [u8]>,
}

impl<'a> Model for Names<'a> {
    ghost use Rattle.std.specs.Prelude.{List, reverse};
    ghost use Rattle.c_tree.specs.Scopes.{Known};
    ghost use Rattle.parser_parts.specs.Names.{known_names, TellBefore, AreTypes};

    ghost Value = { List Known };

    ghost view = { λ n. known_names n.log.items };

    ghost invariant = { λ n. TellBefore (reverse n.log.items) × AreTypes n.types (known_names n.log.items) };
}

impl<'a> Names<'a> {
    /// No names.
    pub fn new(alloc: Global) -> Names<'a>
        ensures { result ≡ [] }
    {
        Names {
            log: Vec::new(alloc),
            types: HashSet::new(alloc),
        }
    }

    /// How many declarations there are.
    pub fn len(&self) -> usize
        ensures { result ≡ length self.now }
    {
        self.log.len()
    }

    /// Says whether the latest declaration of a name is a typedef.
    pub fn is_type(&self, name: &[u8]) -> bool
        ensures { result ≡ scopes.is_type self.now name.now }
    {
        self.types.contains(name)
    }

    /// Declares a name.
    pub fn declare(&mut self, named: Named<'a>) -> Result<(), NoMemory>
        ensures { IfOk result (λ _. self.new ≡ known named.entry ∷ self.old) }
    {
        let was_type = self.types.contains(named.name);
        self.log.push(Entry { named, was_type })?;
        if let Err(error) = mark(&mut self.types, named.name, named.is_type) {
            let _ = self.log.pop();
            return Err(error);
        }
        Ok(())
    }

    /// Takes the latest declaration back.
    fn undo(&mut self) -> Result<(), NoMemory>
        ensures { IfOk result (λ _. self.new ≡ without_latest self.old) }
    {
        if let Some(entry) = last(self.log.as_slice()) {
            mark(&mut self.types, entry.named.name, entry.was_type)?;
            let _ = self.log.pop();
        }
        Ok(())
    }

    /// Takes all declarations but the oldest so many back.
    pub fn cut(&mut self, count: usize) -> Result<(), NoMemory>
        ensures { IfOk result (λ _. self.new ≡ oldest count self.old) }
    {
        'cut: while self.len() > count {
            self.undo()?;
        }
        Ok(())
    }

    /// The declarations behind the oldest so many.
    pub fn behind(&self, alloc: Global, count: usize) -> Result<Vec<Entry<'a>>, NoMemory>
        ensures { IfOk result (λ v. known_names v.items ≡ take (length self.now - count) self.now) }
    {
        let all = copied(alloc, rest(self.log.as_slice(), count))?;
        Ok(all)
    }
}

/// The latest entry.
fn last<'a>(log: &[Entry<'a>]) -> Option<Entry<'a>>
    ensures { result ≡ slice_get log.now (length log.now - 1) }
{
    log.last().copied()
}

/// The entries behind the first so many.
fn rest<'b, 'a>(log: &'b [Entry<'a>], count: usize) -> &'b [Entry<'a>]
    ensures { result.now ≡ drop count log.now }
{
    if count < log.len() {
        &log[count..]
    } else {
        &[]
    }
}

/// Declares names behind others.
pub fn declare_all<'a>(names: &mut Names<'a>, more: &[Entry<'a>]) -> Result<(), NoMemory>
    ensures { IfOk result (λ _. names.new ≡ known_names more.now ++ names.old) }
{
    for entry in more.iter() {
        names.declare(entry.named)?;
    }
    Ok(())
}

/// The same entries.
pub fn copied<'a>(alloc: Global, entries: &[Entry<'a>]) -> Result<Vec<Entry<'a>>, NoMemory>
    ensures { IfOk result (λ v. v.items ≡ entries.now) }
{
    let mut all = Vec::new(alloc);
    for entry in entries.iter() {
        all.push(*entry)?;
    }
    Ok(all)
}

/// Puts a name among those that are types, or takes it away.
fn mark<'a>(types: &mut HashSet<&'a [u8]>, name: &'a [u8], is_type: bool) -> Result<(), NoMemory>
    ensures ok { OnOk result (Marks name.entry.now is_type types.old types.new) }
    ensures err { OnErr result (types.new.keys ≡ types.old.keys) }
{
    if is_type {
        types.insert(name)?;
    } else {
        let _ = types.remove(name);
    }
    Ok(())
}
