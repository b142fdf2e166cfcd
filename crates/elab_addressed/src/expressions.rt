//! Expressions, and the names of types, with what stands in them.

ghost use Rattle.std.specs.Prelude.{◌≡◌, IfOk};
ghost use Rattle.c_tree.specs.Scopes.{has_typedef};
ghost use Rattle.c_tree.specs.View.{expr_tree, spec_tree, tag_tree, enumerator_tree, declarator_tree, base_tree, suffix_tree};
ghost use Rattle.c_tree.specs.StatementView.{trees, expr_view, specs_view, typename_view, tag_view, member_view, suffix_view, param_view};
ghost use Rattle.elaboration.specs.Addressed.{taken, left_scope};
ghost use Rattle.elab_addressed.specs.Turns.{in_turn, settled, behind_operator, Settles, prototype_taken};

use crate::taken::{Taken, plain_name};
use c_tree::{
    Base, Declarator, Enumerator, Expr, ExprKind, Member, Param, Spec, Specs, Suffix, SuffixKind,
    Tag, TagKind, TypeName, UnaryOp,
};
use c_typing::declared_name;
use hs_base::NoMemory;

/// A sign before an operand, behind it: `&` takes the address of its name.
fn operator(state: &mut Taken, op: UnaryOp, operand: &Expr) -> Result<(), NoMemory>
    ensures { IfOk result (λ _. state.new ≡ behind_operator op (expr_view operand.now) state.old) }
{
    match op {
        UnaryOp::Address => state.with_address(plain_name(operand)),
        _ => Ok(()),
    }
}

/// An expression.
#[cycle(walk)]
pub(crate) fn expr(state: &mut Taken, e: &Expr) -> Result<(), NoMemory>
    ensures { IfOk result (λ _. state.new ≡ taken (expr_view e.now) state.old) }
{
    let typedef = state.is_typedef();
    expr_parts(state, e.line, &e.kind)?;
    state.set_typedef(typedef);
    Ok(())
}

/// What stands in an expression of that kind.
#[cycle(walk)]
#[tactic(auto, unfolding(c_tree::specs::View::expr_tree, elaboration::specs::Addressed::taken, elaboration::specs::Addressed::left, c_tree::specs::Grammar::shape, c_tree::specs::Scopes::is_scope), using(crate::proofs::TreeParts::str_is, crate::proofs::TreeParts::call_is, crate::proofs::TreeParts::sizeof_is, crate::proofs::TreeParts::cast_is, crate::proofs::Addresses::unary_is))]
fn expr_parts(state: &mut Taken, line: u32, kind: &ExprKind) -> Result<(), NoMemory>
    ensures { Settles state.old state.new result (taken (expr_tree kind.now line) state.old) }
{
    match kind {
        ExprKind::Name(_) | ExprKind::Int(_) | ExprKind::Char(_) | ExprKind::Str(_) => Ok(()),
        ExprKind::Paren(inner)
        | ExprKind::Dot(inner, _)
        | ExprKind::Arrow(inner, _)
        | ExprKind::PostInc(inner)
        | ExprKind::PostDec(inner)
        | ExprKind::PreInc(inner)
        | ExprKind::PreDec(inner)
        | ExprKind::SizeofExpr(inner) => expr(state, inner),
        ExprKind::Unary(op, inner) => {
            expr(state, inner)?;
            operator(state, *op, inner)
        }
        ExprKind::Index(left, right)
        | ExprKind::Binary(_, left, right)
        | ExprKind::Assign(_, left, right)
        | ExprKind::Comma(left, right) => {
            expr(state, left)?;
            expr(state, right)
        }
        ExprKind::Call(callee, arguments) => {
            expr(state, callee)?;
            exprs(state, arguments)
        }
        ExprKind::SizeofType(ty) => typename(state, ty),
        ExprKind::Cast(ty, inner) => {
            typename(state, ty)?;
            expr(state, inner)
        }
        ExprKind::Cond(test, left, right) => {
            expr(state, test)?;
            expr(state, left)?;
            expr(state, right)
        }
    }
}

/// Expressions in turn.
#[cycle(walk)]
#[tactic(auto, using(crate::proofs::ItemTurns::item_next, crate::proofs::ItemTurns::list_end))]
fn exprs(state: &mut Taken, list: &[Expr]) -> Result<(), NoMemory>
    ensures { IfOk result (λ _. state.new ≡ in_turn (trees expr_view list.now) state.old) }
{
    for e in list {
        expr(state, e)?;
    }
    Ok(())
}

/// The name of a type.
#[cycle(walk)]
#[tactic(auto, unfolding(elaboration::specs::Addressed::taken, elaboration::specs::Addressed::left, c_tree::specs::Grammar::shape, c_tree::specs::Scopes::is_scope))]
fn typename(state: &mut Taken, ty: &TypeName) -> Result<(), NoMemory>
    ensures { IfOk result (λ _. state.new ≡ taken (typename_view ty.now) state.old) }
{
    let typedef = state.is_typedef();
    specs(state, &ty.specs)?;
    declarator(state, &ty.declarator)?;
    state.set_typedef(typedef);
    Ok(())
}

/// Specs: those with `typedef` say that the running declaration is one of typedef names.
#[cycle(walk)]
#[tactic(auto, unfolding(elaboration::specs::Addressed::taken, elaboration::specs::Addressed::left, c_tree::specs::Grammar::shape, c_tree::specs::Scopes::is_scope, c_tree::specs::Scopes::has_typedef), using(crate::proofs::ListTurns::specs_turn))]
pub(crate) fn specs(state: &mut Taken, specs: &Specs) -> Result<(), NoMemory>
    ensures { IfOk result (λ _. state.new ≡ taken (specs_view specs.now) state.old) }
{
    let typedef = state.is_typedef();
    words(state, &specs.words)?;
    state.set_typedef_by(specs.has_typedef(), typedef);
    Ok(())
}

/// Words of specs in turn.
#[cycle(walk)]
#[tactic(auto, using(crate::proofs::ItemTurns::item_next, crate::proofs::ItemTurns::list_end))]
fn words(state: &mut Taken, list: &[Spec]) -> Result<(), NoMemory>
    ensures { IfOk result (λ _. state.new ≡ in_turn (trees spec_tree list.now) state.old) }
{
    for word in list {
        word_of_specs(state, word)?;
    }
    Ok(())
}

/// A word of specs.
#[cycle(walk)]
#[tactic(auto, unfolding(c_tree::specs::View::spec_tree, elaboration::specs::Addressed::taken, elaboration::specs::Addressed::left, c_tree::specs::Grammar::shape, c_tree::specs::Scopes::is_scope))]
fn word_of_specs(state: &mut Taken, word: &Spec) -> Result<(), NoMemory>
    ensures { IfOk result (λ _. state.new ≡ taken (spec_tree word.now) state.old) }
{
    match word {
        Spec::Tag(tag) => in_tag(state, tag),
        Spec::Static
        | Spec::Extern
        | Spec::Typedef
        | Spec::Const
        | Spec::Void
        | Spec::Char
        | Spec::Short
        | Spec::Int
        | Spec::Long
        | Spec::Signed
        | Spec::Unsigned
        | Spec::Named(_) => Ok(()),
    }
}

/// A tag.
#[cycle(walk)]
fn in_tag(state: &mut Taken, tag: &Tag) -> Result<(), NoMemory>
    ensures { IfOk result (λ _. state.new ≡ taken (tag_view tag.now) state.old) }
{
    let typedef = state.is_typedef();
    tag_parts(state, tag.line, &tag.kind)?;
    state.set_typedef(typedef);
    Ok(())
}

/// What stands in a tag of that kind.
#[cycle(walk)]
#[tactic(auto, unfolding(c_tree::specs::View::tag_tree, elaboration::specs::Addressed::taken, elaboration::specs::Addressed::left, c_tree::specs::Grammar::shape, c_tree::specs::Scopes::is_scope), using(crate::proofs::TreeParts::record_is, crate::proofs::TreeParts::enum_is))]
fn tag_parts(state: &mut Taken, line: u32, kind: &TagKind) -> Result<(), NoMemory>
    ensures { Settles state.old state.new result (taken (tag_tree kind.now line) state.old) }
{
    match kind {
        TagKind::Record(_, _) | TagKind::Enum(_) => Ok(()),
        TagKind::RecordBody(_, _, list) => members(state, list),
        TagKind::EnumBody(_, list, _) => enumerators(state, list),
    }
}

/// Members in turn.
#[cycle(walk)]
#[tactic(auto, using(crate::proofs::ItemTurns::item_next, crate::proofs::ItemTurns::list_end))]
fn members(state: &mut Taken, list: &[Member]) -> Result<(), NoMemory>
    ensures { IfOk result (λ _. state.new ≡ in_turn (trees member_view list.now) state.old) }
{
    for one in list {
        member(state, one)?;
    }
    Ok(())
}

/// Members of one declaration.
#[cycle(walk)]
#[tactic(auto, unfolding(elaboration::specs::Addressed::taken, elaboration::specs::Addressed::left, c_tree::specs::Grammar::shape, c_tree::specs::Scopes::is_scope), using(crate::proofs::TreeParts::member_is))]
fn member(state: &mut Taken, member: &Member) -> Result<(), NoMemory>
    ensures { IfOk result (λ _. state.new ≡ taken (member_view member.now) state.old) }
{
    let typedef = state.is_typedef();
    specs(state, &member.specs)?;
    declarators(state, &member.declarators)?;
    state.set_typedef(typedef);
    Ok(())
}

/// Declarators in turn.
#[cycle(walk)]
#[tactic(auto, using(crate::proofs::ItemTurns::item_next, crate::proofs::ItemTurns::list_end))]
fn declarators(state: &mut Taken, list: &[Declarator]) -> Result<(), NoMemory>
    ensures { IfOk result (λ _. state.new ≡ in_turn (trees declarator_tree list.now) state.old) }
{
    for one in list {
        declarator(state, one)?;
    }
    Ok(())
}

/// Enumerators in turn.
#[cycle(walk)]
#[tactic(auto, using(crate::proofs::ItemTurns::item_next, crate::proofs::ItemTurns::list_end))]
fn enumerators(state: &mut Taken, list: &[Enumerator]) -> Result<(), NoMemory>
    ensures { IfOk result (λ _. state.new ≡ in_turn (trees enumerator_tree list.now) state.old) }
{
    for one in list {
        enumerator(state, one)?;
    }
    Ok(())
}

/// An enumerator, which is declared behind its value.
#[cycle(walk)]
#[tactic(auto, unfolding(elaboration::specs::Addressed::taken, elaboration::specs::Addressed::left, c_tree::specs::Grammar::shape, c_tree::specs::Scopes::is_scope), using(crate::proofs::TreeParts::enumerator_none, crate::proofs::TreeParts::enumerator_some))]
fn enumerator(state: &mut Taken, enumerator: &Enumerator) -> Result<(), NoMemory>
    ensures { IfOk result (λ _. state.new ≡ taken (enumerator_tree enumerator.now) state.old) }
{
    let typedef = state.is_typedef();
    if let Some(value) = &enumerator.value {
        expr(state, value)?;
    }
    state.set_typedef(typedef);
    state.with_known(&enumerator.name, None)
}

/// A declarator.
#[cycle(walk)]
pub(crate) fn declarator(state: &mut Taken, declarator: &Declarator) -> Result<(), NoMemory>
    ensures { IfOk result (λ _. state.new ≡ taken (declarator_tree declarator.now) state.old) }
{
    let typedef = state.is_typedef();
    declarator_parts(state, declarator)?;
    state.set_typedef(typedef);
    Ok(())
}

/// What stands in a declarator.
#[cycle(walk)]
#[tactic(auto, unfolding(c_tree::specs::View::declarator_tree, elaboration::specs::Addressed::taken, elaboration::specs::Addressed::left, c_tree::specs::Grammar::shape, c_tree::specs::Scopes::is_scope), using(crate::proofs::TreeParts::pointer_is, crate::proofs::TreeParts::direct_is))]
fn declarator_parts(state: &mut Taken, declarator: &Declarator) -> Result<(), NoMemory>
    ensures { Settles state.old state.new result (taken (declarator_tree declarator.now) state.old) }
{
    match declarator {
        Declarator::Pointer(_, _, target) => self::declarator(state, target),
        Declarator::Direct(base, list) => {
            in_base(state, base)?;
            suffixes(state, list)
        }
    }
}

/// What suffixes stand behind.
#[cycle(walk)]
#[tactic(auto, unfolding(c_tree::specs::View::base_tree, elaboration::specs::Addressed::taken, elaboration::specs::Addressed::left, c_tree::specs::Grammar::shape, c_tree::specs::Scopes::is_scope))]
fn in_base(state: &mut Taken, base: &Base) -> Result<(), NoMemory>
    ensures { IfOk result (λ _. state.new ≡ taken (base_tree base.now) state.old) }
{
    match base {
        Base::Nothing | Base::Name(_) => Ok(()),
        Base::Parens(_, inner) => {
            let typedef = state.is_typedef();
            declarator(state, inner)?;
            state.set_typedef(typedef);
            Ok(())
        }
    }
}

/// Suffixes in turn.
#[cycle(walk)]
#[tactic(auto, using(crate::proofs::ItemTurns::item_next, crate::proofs::ItemTurns::list_end))]
fn suffixes(state: &mut Taken, list: &[Suffix]) -> Result<(), NoMemory>
    ensures { IfOk result (λ _. state.new ≡ in_turn (trees suffix_view list.now) state.old) }
{
    for one in list {
        suffix(state, one)?;
    }
    Ok(())
}

/// A suffix.
#[cycle(walk)]
fn suffix(state: &mut Taken, suffix: &Suffix) -> Result<(), NoMemory>
    ensures { IfOk result (λ _. state.new ≡ taken (suffix_view suffix.now) state.old) }
{
    let typedef = state.is_typedef();
    suffix_parts(state, suffix.line, &suffix.kind)?;
    state.set_typedef(typedef);
    Ok(())
}

/// What stands in a suffix of that kind.
#[cycle(walk)]
#[tactic(auto, unfolding(c_tree::specs::View::suffix_tree, elaboration::specs::Addressed::taken, elaboration::specs::Addressed::left, c_tree::specs::Grammar::shape, c_tree::specs::Scopes::is_scope), using(crate::proofs::TreeParts::params_is, crate::proofs::TreeParts::array_none, crate::proofs::TreeParts::array_some))]
fn suffix_parts(state: &mut Taken, line: u32, kind: &SuffixKind) -> Result<(), NoMemory>
    ensures { Settles state.old state.new result (taken (suffix_tree kind.now line) state.old) }
{
    match kind {
        SuffixKind::Array(Some(length)) => expr(state, length),
        SuffixKind::Array(None) | SuffixKind::Void => Ok(()),
        SuffixKind::Params(list) => param_list(state, list),
    }
}

/// A parameter list, behind which its names are forgotten.
#[cycle(walk)]
#[tactic(auto, using(crate::proofs::ScopeEnds::turns_back))]
fn param_list(state: &mut Taken, list: &[Param]) -> Result<(), NoMemory>
    ensures { Settles state.old state.new result (prototype_taken list.now state.old) }
{
    let depth = state.depth();
    params(state, list)?;
    state.leave(depth);
    Ok(())
}

/// Parameters in turn.
#[cycle(walk)]
#[tactic(auto, using(crate::proofs::ItemTurns::item_next, crate::proofs::ItemTurns::list_end))]
pub(crate) fn params(state: &mut Taken, list: &[Param]) -> Result<(), NoMemory>
    ensures { IfOk result (λ _. state.new ≡ in_turn (trees param_view list.now) state.old) }
{
    for one in list {
        param(state, one)?;
    }
    Ok(())
}

/// A parameter, which may have no name.
#[cycle(walk)]
#[tactic(auto, unfolding(elaboration::specs::Addressed::taken, elaboration::specs::Addressed::left, c_tree::specs::Grammar::shape, c_tree::specs::Scopes::is_scope), using(crate::proofs::TreeParts::param_is))]
fn param(state: &mut Taken, param: &Param) -> Result<(), NoMemory>
    ensures { IfOk result (λ _. state.new ≡ taken (param_view param.now) state.old) }
{
    let typedef = state.is_typedef();
    specs(state, &param.specs)?;
    declarator(state, &param.declarator)?;
    state.set_typedef(typedef);
    state.with_local(declared_name(&param.declarator))
}
