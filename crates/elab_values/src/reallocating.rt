//! Which expressions reallocate: those with a call of `realloc` outside the operands of `sizeof`.

ghost use Rattle.std.specs.Prelude.{◌≡◌, option_map};
ghost use Rattle.c_tree.specs.View.{expr_tree, spec_tree, tag_tree, enumerator_tree, declarator_tree, base_tree, suffix_tree};
ghost use Rattle.c_tree.specs.StatementView.{trees, expr_view, specs_view, typename_view, tag_view, member_view, suffix_view, param_view};
ghost use Rattle.c_decls.specs.Named.{plain_named};
ghost use Rattle.elaboration.specs.Reallocates.{is_realloc, calls_realloc, reallocates, any_reallocates};
ghost use Rattle.elaboration.specs.Calls.{built_in_at};

use c_decls::{BuiltIn, Named, Scopes};
use c_tree::{
    Base, Declarator, Enumerator, Expr, ExprKind, Member, Param, Spec, Specs, Suffix, SuffixKind,
    Tag, TagKind, TypeName,
};

/// Whether a name stands for the built-in `realloc`.
fn is_realloc(named: Option<&Named>) -> bool
    ensures { result ≡ is_realloc (built_in_at (option_map (λ n. plain_named n.now) named.entry)) }
{
    match named {
        Some(Named::BuiltIn { index }) => BuiltIn::numbered(*index) == Some(BuiltIn::Realloc),
        Some(
            Named::Object { .. }
            | Named::Register { .. }
            | Named::Function { .. }
            | Named::Typedef { .. }
            | Named::Constant { .. }
            | Named::Tag { .. },
        )
        | None => false,
    }
}

/// Whether `realloc` is called by name.
#[tactic(auto, unfolding(c_tree::specs::View::expr_tree))]
fn calls_realloc(scopes: &Scopes, callee: &ExprKind, line: u32) -> bool
    ensures { result ≡ calls_realloc scopes.now (expr_tree callee.now line) }
{
    match callee {
        ExprKind::Name(name) => is_realloc(scopes.find(name.as_slice())),
        _ => false,
    }
}

/// Whether an expression reallocates.
#[cycle(walk)]
pub fn reallocates(scopes: &Scopes, e: &Expr) -> bool
    ensures { result ≡ reallocates scopes.now (expr_view e.now) }
{
    kind(scopes, e.line, &e.kind)
}

/// Whether an expression of that kind reallocates.
#[cycle(walk)]
#[tactic(auto, unfolding(c_tree::specs::View::expr_tree, elaboration::specs::Reallocates::reallocates), using(crate::proofs::ReallocParts::str_is, crate::proofs::ReallocParts::call_is, crate::proofs::ReallocParts::sizeof_is, crate::proofs::ReallocParts::cast_is))]
fn kind(scopes: &Scopes, line: u32, kind: &ExprKind) -> bool
    ensures { result ≡ reallocates scopes.now (expr_tree kind.now line) }
{
    match kind {
        ExprKind::Name(_)
        | ExprKind::Int(_)
        | ExprKind::Char(_)
        | ExprKind::Str(_)
        | ExprKind::SizeofExpr(_) => false,
        ExprKind::Paren(inner)
        | ExprKind::Dot(inner, _)
        | ExprKind::Arrow(inner, _)
        | ExprKind::PostInc(inner)
        | ExprKind::PostDec(inner)
        | ExprKind::PreInc(inner)
        | ExprKind::PreDec(inner)
        | ExprKind::Unary(_, inner) => reallocates(scopes, inner),
        ExprKind::Index(left, right)
        | ExprKind::Binary(_, left, right)
        | ExprKind::Assign(_, left, right)
        | ExprKind::Comma(left, right) => {
            let first = reallocates(scopes, left);
            let second = reallocates(scopes, right);
            first || second
        }
        ExprKind::Call(callee, arguments) => {
            let named = calls_realloc(scopes, &callee.kind, callee.line);
            let first = reallocates(scopes, callee);
            let second = exprs(scopes, arguments);
            named || first || second
        }
        ExprKind::SizeofType(typename) => in_typename(scopes, typename),
        ExprKind::Cast(typename, inner) => {
            let first = in_typename(scopes, typename);
            let second = reallocates(scopes, inner);
            first || second
        }
        ExprKind::Cond(test, left, right) => {
            let first = reallocates(scopes, test);
            let second = reallocates(scopes, left);
            let third = reallocates(scopes, right);
            first || second || third
        }
    }
}

/// Whether one of some expressions reallocates.
#[cycle(walk)]
#[tactic(auto, using(crate::proofs::ReallocParts::list_next, crate::proofs::ReallocParts::list_found, crate::proofs::ReallocParts::list_end))]
fn exprs(scopes: &Scopes, list: &[Expr]) -> bool
    ensures { result ≡ any_reallocates scopes.now (trees expr_view list.now) }
{
    for e in list {
        if reallocates(scopes, e) {
            return true;
        }
    }
    false
}

/// Whether an expression in the name of a type reallocates.
#[cycle(walk)]
#[tactic(auto, unfolding(elaboration::specs::Reallocates::reallocates))]
fn in_typename(scopes: &Scopes, typename: &TypeName) -> bool
    ensures { result ≡ reallocates scopes.now (typename_view typename.now) }
{
    let first = in_specs(scopes, &typename.specs);
    let second = in_declarator(scopes, &typename.declarator);
    first || second
}

/// Whether an expression in specs reallocates.
#[cycle(walk)]
#[tactic(auto, unfolding(elaboration::specs::Reallocates::reallocates))]
fn in_specs(scopes: &Scopes, specs: &Specs) -> bool
    ensures { result ≡ reallocates scopes.now (specs_view specs.now) }
{
    words(scopes, &specs.words)
}

/// Whether an expression in words of specs reallocates.
#[cycle(walk)]
#[tactic(auto, using(crate::proofs::ReallocParts::list_next, crate::proofs::ReallocParts::list_found, crate::proofs::ReallocParts::list_end))]
fn words(scopes: &Scopes, list: &[Spec]) -> bool
    ensures { result ≡ any_reallocates scopes.now (trees spec_tree list.now) }
{
    for word in list {
        if in_word(scopes, word) {
            return true;
        }
    }
    false
}

/// Whether an expression in a word of specs reallocates.
#[cycle(walk)]
#[tactic(auto, unfolding(c_tree::specs::View::spec_tree, elaboration::specs::Reallocates::reallocates))]
fn in_word(scopes: &Scopes, word: &Spec) -> bool
    ensures { result ≡ reallocates scopes.now (spec_tree word.now) }
{
    match word {
        Spec::Tag(tag) => in_tag(scopes, tag),
        Spec::Static
        | Spec::Extern
        | Spec::Typedef
        | Spec::Const
        | Spec::Void
        | Spec::Char
        | Spec::Short
        | Spec::Int
        | Spec::Long
        | Spec::Signed
        | Spec::Unsigned
        | Spec::Named(_) => false,
    }
}

/// Whether an expression in a tag reallocates.
#[cycle(walk)]
#[tactic(auto, unfolding(c_tree::specs::View::tag_tree, elaboration::specs::Reallocates::reallocates), using(crate::proofs::ReallocParts::record_is, crate::proofs::ReallocParts::enum_is))]
fn in_tag(scopes: &Scopes, tag: &Tag) -> bool
    ensures { result ≡ reallocates scopes.now (tag_view tag.now) }
{
    match &tag.kind {
        TagKind::Record(_, _) | TagKind::Enum(_) => false,
        TagKind::RecordBody(_, _, list) => members(scopes, list),
        TagKind::EnumBody(_, list, _) => enumerators(scopes, list),
    }
}

/// Whether an expression in members reallocates.
#[cycle(walk)]
#[tactic(auto, using(crate::proofs::ReallocParts::list_next, crate::proofs::ReallocParts::list_found, crate::proofs::ReallocParts::list_end))]
fn members(scopes: &Scopes, list: &[Member]) -> bool
    ensures { result ≡ any_reallocates scopes.now (trees member_view list.now) }
{
    for member in list {
        if in_member(scopes, member) {
            return true;
        }
    }
    false
}

/// Whether an expression in members of one declaration reallocates.
#[cycle(walk)]
#[tactic(auto, unfolding(elaboration::specs::Reallocates::reallocates))]
fn in_member(scopes: &Scopes, member: &Member) -> bool
    ensures { result ≡ reallocates scopes.now (member_view member.now) }
{
    let first = in_specs(scopes, &member.specs);
    let second = declarators(scopes, &member.declarators);
    first || second
}

/// Whether an expression in declarators reallocates.
#[cycle(walk)]
#[tactic(auto, using(crate::proofs::ReallocParts::list_next, crate::proofs::ReallocParts::list_found, crate::proofs::ReallocParts::list_end))]
fn declarators(scopes: &Scopes, list: &[Declarator]) -> bool
    ensures { result ≡ any_reallocates scopes.now (trees declarator_tree list.now) }
{
    for declarator in list {
        if in_declarator(scopes, declarator) {
            return true;
        }
    }
    false
}

/// Whether an expression in enumerators reallocates.
#[cycle(walk)]
#[tactic(auto, using(crate::proofs::ReallocParts::list_next, crate::proofs::ReallocParts::list_found, crate::proofs::ReallocParts::list_end))]
fn enumerators(scopes: &Scopes, list: &[Enumerator]) -> bool
    ensures { result ≡ any_reallocates scopes.now (trees enumerator_tree list.now) }
{
    for enumerator in list {
        if in_enumerator(scopes, enumerator) {
            return true;
        }
    }
    false
}

/// Whether the value of an enumerator reallocates.
#[cycle(walk)]
#[tactic(auto, unfolding(elaboration::specs::Reallocates::reallocates), using(crate::proofs::ReallocParts::enumerator_none, crate::proofs::ReallocParts::enumerator_some))]
fn in_enumerator(scopes: &Scopes, enumerator: &Enumerator) -> bool
    ensures { result ≡ reallocates scopes.now (enumerator_tree enumerator.now) }
{
    match &enumerator.value {
        Some(value) => reallocates(scopes, value),
        None => false,
    }
}

/// Whether an expression in a declarator reallocates.
#[cycle(walk)]
#[tactic(auto, unfolding(c_tree::specs::View::declarator_tree, elaboration::specs::Reallocates::reallocates), using(crate::proofs::ReallocParts::direct_is))]
fn in_declarator(scopes: &Scopes, declarator: &Declarator) -> bool
    ensures { result ≡ reallocates scopes.now (declarator_tree declarator.now) }
{
    match declarator {
        Declarator::Pointer(_, _, target) => in_declarator(scopes, target),
        Declarator::Direct(base, list) => {
            let first = in_base(scopes, base);
            let second = suffixes(scopes, list);
            first || second
        }
    }
}

/// Whether an expression in what suffixes stand behind reallocates.
#[cycle(walk)]
#[tactic(auto, unfolding(c_tree::specs::View::base_tree, elaboration::specs::Reallocates::reallocates))]
fn in_base(scopes: &Scopes, base: &Base) -> bool
    ensures { result ≡ reallocates scopes.now (base_tree base.now) }
{
    match base {
        Base::Nothing | Base::Name(_) => false,
        Base::Parens(_, declarator) => in_declarator(scopes, declarator),
    }
}

/// Whether an expression in suffixes reallocates.
#[cycle(walk)]
#[tactic(auto, using(crate::proofs::ReallocParts::list_next, crate::proofs::ReallocParts::list_found, crate::proofs::ReallocParts::list_end))]
fn suffixes(scopes: &Scopes, list: &[Suffix]) -> bool
    ensures { result ≡ any_reallocates scopes.now (trees suffix_view list.now) }
{
    for suffix in list {
        if in_suffix(scopes, suffix) {
            return true;
        }
    }
    false
}

/// Whether an expression in a suffix reallocates.
#[cycle(walk)]
#[tactic(auto, unfolding(c_tree::specs::View::suffix_tree, elaboration::specs::Reallocates::reallocates), using(crate::proofs::ReallocParts::params_is, c_tree::specs::ViewEquations::array_tree))]
fn in_suffix(scopes: &Scopes, suffix: &Suffix) -> bool
    ensures { result ≡ reallocates scopes.now (suffix_view suffix.now) }
{
    match &suffix.kind {
        SuffixKind::Array(Some(length)) => reallocates(scopes, length),
        SuffixKind::Array(None) | SuffixKind::Void => false,
        SuffixKind::Params(list) => params(scopes, list),
    }
}

/// Whether an expression in parameters reallocates.
#[cycle(walk)]
#[tactic(auto, using(crate::proofs::ReallocParts::list_next, crate::proofs::ReallocParts::list_found, crate::proofs::ReallocParts::list_end))]
fn params(scopes: &Scopes, list: &[Param]) -> bool
    ensures { result ≡ any_reallocates scopes.now (trees param_view list.now) }
{
    for param in list {
        if in_param(scopes, param) {
            return true;
        }
    }
    false
}

/// Whether an expression in a parameter reallocates.
#[cycle(walk)]
#[tactic(auto, unfolding(elaboration::specs::Reallocates::reallocates))]
fn in_param(scopes: &Scopes, param: &Param) -> bool
    ensures { result ≡ reallocates scopes.now (param_view param.now) }
{
    let first = in_specs(scopes, &param.specs);
    let second = in_declarator(scopes, &param.declarator);
    first || second
}
