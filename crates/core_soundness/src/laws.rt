//! Laws of the definitions.

ghost use Rattle.std.specs.Prelude.{◌≡◌, ◌≤◌, ℕ, true, All, List, [], ◌∷◌, Ok, count_by, length, slice_get};
ghost use Rattle.c_print.specs.Format.{IsFormat};
ghost use Rattle.c_print.specs.Pieces.{pieces_of};
ghost use Rattle.c_decls.specs.Callees.{is_format};
ghost use Rattle.std.specs.Option.{ForSome};
ghost use Rattle.c_types.specs.Types.{PlainType};
ghost use Rattle.c_types.specs.TagTable.{TagTable, known};
ghost use Rattle.c_decls.specs.Expressions.{typed};
ghost use Rattle.elaboration.specs.Context.{Context, asked};
ghost use Rattle.elaboration.specs.Conversions.{Found};
ghost use Rattle.elaboration.specs.Expressions.{found};
ghost use Rattle.core_tree.specs.declared.program.Core.{Core};
ghost use Rattle.core_tree.specs.Sound.{EachFunc, IsFunction, IsMain, IsShort, IsSound, IsStatic, is_main, main_of};
ghost use Rattle.c_lexer.specs.Tokens.{HasTokens, IsLexed};
ghost use Rattle.c_lexer.specs.declared.token.Token.{Token};
ghost use Rattle.c_tree.specs.HasTree.{HasTree};
ghost use Rattle.c_tree.specs.Tree.{Tree, Trees};
ghost use Rattle.elaboration.specs.Elaboration.{elaborated, walked};
ghost use Rattle.core_soundness.specs.Ranges.{PiecesIn};
ghost use Rattle.core_soundness.specs.Solid.{Solid};
ghost use Rattle.core_soundness.specs.Whole.{Whole};
ghost use Rattle.core_soundness.specs.Texts.{AllNames, IsMadeOf, IsOfTexts, IsSmall};
ghost use Rattle.core_soundness.specs.Written.{AreWritten, Written};
ghost use Rattle.core_soundness.specs.Laws.{AreWithin, CallsInside, HasFlow, HasLayouts, HasRanges, HasShortLists, HasSizes, HasTypes};
ghost use Rattle.core_soundness.specs.Elaborated.{ForCores, ForCoresOf, ForMade, ForMadeCores, HaveShortTokens, HasTargets};

use c_lexer::constants_fit;
use c_types::layouts_are_sound;

/// In each function of the core of a text every edge leads to a statement, only a loop goes back, and scopes are opened
/// and closed in the same way on all paths.
pub fn control_flows()
    ensures { ForCores (λ core. EachFunc core HasFlow) }
{}

/// The core of a text keeps the bounds on its statics and on its code, and so its lists are short.
pub fn sizes_are_kept()
    ensures { ForCores HasSizes }
{}

/// An expression that is elaborated has the type, and the tags behind it, that its types alone give it (C99 6.5).
pub fn types_agree()
    ensures { (tree : Tree) (wanted : PlainType) (c : Context) (d : Context × Found) → found tree wanted c ≡ Ok d → typed tree (asked c) ≡ Ok (asked d.0, d.1.typed) }
{}

/// Exactly one function of the core of texts is named `main` (C99 5.1.2.2.1).
pub fn one_main()
    ensures { ForMadeCores (λ core. count_by is_main core.funcs ≡ 1) }
{
    constants_fit();
}

/// Each call of the core of a text names one of its functions (C99 6.5.2.2).
pub fn calls_are_inside()
    ensures { ForCores (λ core. EachFunc core (CallsInside core)) }
{}

/// In each function of the core of a text each statement has a line and names what is there, with operands, arguments and
/// results of its sorts.
pub fn statements_are_typed()
    ensures { ForMadeCores (λ core. EachFunc core (HasTypes core)) }
{
    constants_fit();
}

/// The function named `main` of the core of a text has no parameters, and its returns have integers (C99 5.1.2.2.1).
pub fn main_answers()
    ensures { ForMadeCores (λ core. ForSome (slice_get core.funcs (main_of core)) (IsMain core)) }
{
    constants_fit();
}

/// A format that passes the test of formats is one, with the pieces that its bytes have (C99 7.19.6.1).
pub fn formats_are_read()
    ensures { (bytes : List ℕ) → is_format bytes ≡ true → IsFormat bytes (pieces_of bytes) }
{}

/// The tree of one text is made of itself.
pub fn texts_are_made_of_themselves()
    ensures made { (tokens : List Token) (unit : Trees) → All IsLexed tokens → HasTree tokens unit → IsMadeOf (tokens ∷ []) (unit ∷ []) unit }
    ensures small { (tokens : List Token) (unit : Trees) → All IsLexed tokens → length tokens ≤ 268435456 → All (λ token. IsShort token.bytes) tokens → HasTree tokens unit → IsOfTexts unit }
{
    constants_fit();
}

/// Names with a suffix are shorter than 2 to the 32, where no token has more than 268,435,456 bytes.
pub fn names_stay_short()
    ensures { ForMade (λ texts unit. HaveShortTokens texts → AllNames IsShort unit) }
{
    constants_fit();
}

/// A tree made of those of texts has lines from 1 on and constants of at most 64 bits; members and initializers stand where braces
/// are; and each definition of a function has a parameter list.
pub fn trees_are_written()
    ensures { ForMade (λ texts unit. AreWritten unit) }
{
    constants_fit();
}

/// Memory locals and statics of the core of a text have the layouts of types (C99 6.2.5, 6.7.2.1).
pub fn layouts_are_of_types()
    ensures { ForCoresOf AreWritten HasLayouts }
{}

/// What is known behind a text has whole types: arrays of at least one element that are no larger than an object may be, and
/// tags that were completed one after another with members of such types (C99 6.2.5, 6.7.2.1).
pub fn types_are_whole()
    ensures { (unit : Trees) (c : Context) → AreWritten unit → walked unit ≡ Ok c → Solid c }
{}

/// Behind an expression every number of the code is in range, where types are whole and those of the code before it are:
/// constants and sizes as registers hold them, and sizes of elements from 1 to that of the largest object.
pub fn numbers_are_kept()
    ensures { (tree : Tree) (wanted : PlainType) (c : Context) (d : Context × Found) → Solid c → Written tree → Whole (known c.tags.completed) wanted → PiecesIn c.code.pieces → found tree wanted c ≡ Ok d → PiecesIn d.0.code.pieces }
{}

/// In each function of the core of a text every integer is one that a register holds, sizes of elements are from 1 to that of
/// the largest object, and layouts of elements are those of types.
pub fn numbers_are_in_range()
    ensures { ForCoresOf AreWritten (λ core. EachFunc core HasRanges) }
{}

/// Each function of the core of a text is sound.
pub fn functions_are_sound()
    ensures { ForMadeCores (λ core. EachFunc core (IsFunction core)) }
{
    constants_fit();
}

/// Each pointer that a static of the core of a text holds first names a static of the core, and an offset in it up to its end
/// (C99 6.6, 6.7.8).
pub fn static_pointers_are_inside()
    ensures { ForCores HasTargets }
{}

/// Each static of the core of a text is sound: it has the layout of a type, its first bytes lie in it and are zero in its slots,
/// and the pointers that it holds first are at different slots of it, and name statics of the core and offsets up to their
/// ends (C99 6.6, 6.7.8).
pub fn statics_are_sound()
    ensures { ForCoresOf AreWritten (λ core. All (IsStatic core) core.statics) }
{
    layouts_are_sound();
}

/// A text has no more tokens than bytes, and none of its tokens is longer than it.
pub fn tokens_are_within()
    ensures { (text : List ℕ) (tokens : List Token) → HasTokens text tokens → AreWithin (length text) tokens }
{}

/// In the core of texts the names, the formats and the lists of functions are shorter than 2 to the 32, where the texts have
/// at most 268,435,456 tokens together, and the names of their tree are shorter than 2 to the 32.
pub fn lists_are_short()
    ensures { (texts : List (List Token)) (units : List Trees) (unit : Trees) (core : Core) (tags : TagTable) → IsMadeOf texts units unit → IsSmall texts unit → elaborated unit ≡ Ok (core, tags) → HasShortLists core }
{}

/// The core of texts is sound, where they have at most 268,435,456 tokens together, and the names of their tree are shorter
/// than 2 to the 32.
pub fn cores_are_sound()
    ensures { ForCoresOf IsOfTexts IsSound }
{
    constants_fit();
    layouts_are_sound();
}
