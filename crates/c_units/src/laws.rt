//! Laws of the definitions, each the contract of a function that does nothing else.

ghost use Rattle.c_units.specs.FileBindings.{MergeKeepsDeclared, MergeKeepsFile};
ghost use Rattle.c_units.specs.KeptBindings.{UnitsKeepBindings};
ghost use Rattle.c_units.specs.MergedBindings.{MergeKeepsInner};
ghost use Rattle.c_units.specs.MergedNames.{MergesRename};

use c_lexer::tokens_are_longest;

/// In a unit as it stands in the program, each name in an expression is bound to the declaration that it is bound to in the
/// unit alone (C99 6.2.1): what the unit has for itself, and no local that hides it, has the suffix.
pub fn units_keep_their_bindings()
    ensures { UnitsKeepBindings }
{}

/// In the merge of several units a name in an expression is bound to a declaration in an inner scope exactly where it is in
/// its unit, and to the same one, whatever other units declare.
pub fn merge_keeps_inner_bindings()
    ensures { MergeKeepsInner }
{}

/// In the merge of several units a name that is bound at file scope is bound to what it is bound to in its unit: what a unit has
/// for itself is bound in this unit alone, and all else is shared (C99 6.2.2).
pub fn merge_keeps_file_bindings()
    ensures { MergeKeepsFile }
{}

/// In the merge of several units of texts a name that its unit binds to an object or a function at file scope is declared by an
/// external declaration up to its own: one that is left out, since an earlier unit has it in the same words, is not missed.
pub fn merge_keeps_declarations()
    ensures { MergeKeepsDeclared }
{
    tokens_are_longest();
}

/// The external declarations of a merge are some of those of the units, in their order, with names that may have a suffix.
pub fn merges_rename()
    ensures { MergesRename }
{}
