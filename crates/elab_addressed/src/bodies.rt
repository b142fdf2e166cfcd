//! Statements, and the definitions of functions.

ghost use Rattle.std.specs.Prelude.{◌≡◌, IfOk, option_copied, OnOk};
ghost use Rattle.c_tree.specs.StatementView.{trees, init_tree, init_view, maybe, maybe_expr, suffix_view, entry_view, start_view, stmt_tree, stmt_view, body_view};
ghost use Rattle.c_tree.specs.Forms as form;
ghost use Rattle.c_tree.specs.Scopes.{params_of, suffix_params};
ghost use Rattle.c_tree.specs.Tree.{Node, none, ◌▹◌};
ghost use Rattle.c_tree.specs.View.{declarator_tree, base_tree};
ghost use Rattle.elaboration.specs.Addressed.{taken, left_scope, left_part, params_taken, addressed_in};
ghost use Rattle.elab_addressed.specs.Turns.{in_turn, settled, inside, is_scope_kind, kind_params, Settles, addressed_by, with_params_behind, maybe_init, settled_inside, with_params_of, with_suffix_params};

use crate::expressions::{declarator, expr, params, specs};
use crate::taken::Taken;
use c_tree::{
    Base, Declarator, Expr, ForStart, Init, InitKind, Stmt, StmtKind, Suffix, SuffixKind,
};
use c_typing::declared_name;
use hs_base::{Line, NoMemory};
use std::alloc::Global;

/// An expression that may be left out.
#[tactic(auto, unfolding(elaboration::specs::Addressed::taken, elaboration::specs::Addressed::left, c_tree::specs::Grammar::shape, c_tree::specs::Scopes::is_scope))]
fn maybe_expr(state: &mut Taken, e: Option<&Expr>) -> Result<(), NoMemory>
    ensures { IfOk result (λ _. state.new ≡ taken (maybe_expr (option_copied e.entry)) state.old) }
{
    let Some(e) = e else {
        return Ok(());
    };
    let typedef = state.is_typedef();
    expr(state, e)?;
    state.set_typedef(typedef);
    Ok(())
}

/// An initializer.
#[cycle(inits)]
fn init(state: &mut Taken, init: &Init) -> Result<(), NoMemory>
    ensures { IfOk result (λ _. state.new ≡ taken (init_view init.now) state.old) }
{
    let typedef = state.is_typedef();
    init_parts(state, init.line, &init.kind)?;
    state.set_typedef(typedef);
    Ok(())
}

/// What stands in an initializer of that kind.
#[cycle(inits)]
#[tactic(auto, unfolding(c_tree::specs::StatementView::init_tree, elaboration::specs::Addressed::taken, elaboration::specs::Addressed::left, c_tree::specs::Grammar::shape, c_tree::specs::Scopes::is_scope), using(crate::proofs::TreeParts::init_list_is))]
fn init_parts(state: &mut Taken, line: Line, kind: &InitKind) -> Result<(), NoMemory>
    ensures { Settles state.old state.new result (taken (init_tree kind.now line) state.old) }
{
    match kind {
        InitKind::Expr(e) => expr(state, e),
        InitKind::List(list, _) => inits(state, list),
    }
}

/// Initializers in turn.
#[cycle(inits)]
#[tactic(auto, using(crate::proofs::ItemTurns::item_next, crate::proofs::ItemTurns::list_end))]
fn inits(state: &mut Taken, list: &[Init]) -> Result<(), NoMemory>
    ensures { IfOk result (λ _. state.new ≡ in_turn (trees init_view list.now) state.old) }
{
    for one in list {
        init(state, one)?;
    }
    Ok(())
}

/// An initializer that may be left out.
#[tactic(auto, unfolding(elaboration::specs::Addressed::taken, elaboration::specs::Addressed::left, c_tree::specs::Grammar::shape, c_tree::specs::Scopes::is_scope))]
fn maybe_init(state: &mut Taken, one: Option<&Init>) -> Result<(), NoMemory>
    ensures { IfOk result (λ _. state.new ≡ taken (maybe_init (option_copied one.entry)) state.old) }
{
    let Some(one) = one else {
        return Ok(());
    };
    let typedef = state.is_typedef();
    init(state, one)?;
    state.set_typedef(typedef);
    Ok(())
}

/// A name of a declaration, which holds before its initializer (C99 6.2.1).
#[tactic(auto, unfolding(elaboration::specs::Addressed::taken, elaboration::specs::Addressed::left, c_tree::specs::Grammar::shape, c_tree::specs::Scopes::is_scope), using(crate::proofs::TreeParts::entry_is))]
fn entry(state: &mut Taken, one: &(Declarator, Option<Init>)) -> Result<(), NoMemory>
    ensures { IfOk result (λ _. state.new ≡ taken (entry_view one.now) state.old) }
{
    let typedef = state.is_typedef();
    declarator(state, &one.0)?;
    state.set_typedef(typedef);
    state.declare(typedef, declared_name(&one.0))?;
    maybe_init(state, one.1.as_ref())?;
    state.set_typedef(typedef);
    Ok(())
}

/// The names of a declaration in turn.
#[tactic(auto, using(crate::proofs::ItemTurns::item_next, crate::proofs::ItemTurns::list_end))]
fn entries(state: &mut Taken, list: &[(Declarator, Option<Init>)]) -> Result<(), NoMemory>
    ensures { IfOk result (λ _. state.new ≡ in_turn (trees entry_view list.now) state.old) }
{
    for one in list {
        entry(state, one)?;
    }
    Ok(())
}

/// What stands before the first `;` of a `for`.
fn for_start(state: &mut Taken, start: &ForStart) -> Result<(), NoMemory>
    ensures { IfOk result (λ _. state.new ≡ taken (start_view start.now) state.old) }
{
    let typedef = state.is_typedef();
    start_parts(state, start)?;
    state.set_typedef(typedef);
    Ok(())
}

/// What stands in that.
#[tactic(auto, unfolding(elaboration::specs::Addressed::taken, elaboration::specs::Addressed::left, c_tree::specs::Grammar::shape, c_tree::specs::Scopes::is_scope), using(crate::proofs::TreeParts::names_is))]
fn start_parts(state: &mut Taken, start: &ForStart) -> Result<(), NoMemory>
    ensures { Settles state.old state.new result (taken (start_view start.now) state.old) }
{
    match start {
        ForStart::Names(words, list) => {
            specs(state, words)?;
            entries(state, list.as_slice())
        }
        ForStart::Expr(e) => maybe_expr(state, e.as_ref()),
    }
}

/// Whether a statement of that kind is a scope: the names that it declares are forgotten behind it (C99 6.8.2 to 6.8.5).
fn is_scope(kind: &StmtKind) -> bool
    ensures { result ≡ is_scope_kind kind.now }
{
    match kind {
        StmtKind::Block(_)
        | StmtKind::Delay(_)
        | StmtKind::If(_, _, _)
        | StmtKind::While(_, _)
        | StmtKind::Do(_, _)
        | StmtKind::For(_, _, _, _)
        | StmtKind::Switch(_, _) => true,
        StmtKind::Empty
        | StmtKind::Expr(_)
        | StmtKind::Case(_, _)
        | StmtKind::Default(_)
        | StmtKind::Break
        | StmtKind::Continue
        | StmtKind::Return(_)
        | StmtKind::Local(_, _) => false,
    }
}

/// A statement.
#[cycle(statements)]
#[tactic(auto, using(crate::proofs::ScopeEnds::statement_is))]
fn statement(state: &mut Taken, stmt: &Stmt) -> Result<(), NoMemory>
    ensures { IfOk result (λ _. state.new ≡ taken (stmt_view stmt.now) state.old) }
{
    let typedef = state.is_typedef();
    let depth = state.depth();
    stmt_parts(state, stmt.line, &stmt.kind)?;
    state.leave_if(is_scope(&stmt.kind), depth);
    state.set_typedef(typedef);
    Ok(())
}

/// A statement that is a scope of its own.
#[cycle(statements)]
#[tactic(auto, using(crate::proofs::ScopeEnds::back_is))]
fn branch(state: &mut Taken, body: &Stmt) -> Result<(), NoMemory>
    ensures { OnOk result (state.new ≡ left_scope state.old (taken (stmt_view body.now) state.old)) }
{
    let typedef = state.is_typedef();
    let depth = state.depth();
    statement(state, body)?;
    state.leave(depth);
    state.set_typedef(typedef);
    Ok(())
}

/// Statements and declarations in turn.
#[cycle(statements)]
#[tactic(auto, using(crate::proofs::ItemTurns::item_next, crate::proofs::ItemTurns::list_end))]
fn items(state: &mut Taken, list: &[Stmt]) -> Result<(), NoMemory>
    ensures { IfOk result (λ _. state.new ≡ in_turn (trees stmt_view list.now) state.old) }
{
    for one in list {
        statement(state, one)?;
    }
    Ok(())
}

/// What stands in a statement of that kind.
#[cycle(statements)]
#[tactic(auto, unfolding(c_tree::specs::StatementView::stmt_tree, elaboration::specs::Addressed::taken, elaboration::specs::Addressed::left, c_tree::specs::Grammar::shape, c_tree::specs::Scopes::is_scope), using(crate::proofs::TreeParts::block_is, crate::proofs::TreeParts::delay_is, crate::proofs::TreeParts::if_is, crate::proofs::TreeParts::if_else_is, crate::proofs::TreeParts::names_is))]
fn stmt_parts(state: &mut Taken, line: Line, kind: &StmtKind) -> Result<(), NoMemory>
    ensures { Settles state.old state.new result (settled_inside (stmt_tree kind.now line) state.old) }
{
    match kind {
        StmtKind::Empty | StmtKind::Break | StmtKind::Continue => Ok(()),
        StmtKind::Expr(e) => expr(state, e),
        StmtKind::Block(list) | StmtKind::Delay(list) => items(state, list),
        StmtKind::If(test, body, other) => {
            expr(state, test)?;
            branch(state, body)?;
            match other {
                Some(other) => branch(state, other),
                None => Ok(()),
            }
        }
        StmtKind::While(test, body) | StmtKind::Switch(test, body) => {
            expr(state, test)?;
            branch(state, body)
        }
        StmtKind::Do(body, test) => {
            branch(state, body)?;
            expr(state, test)
        }
        StmtKind::For(start, test, step, body) => {
            for_start(state, start)?;
            maybe_expr(state, test.as_ref())?;
            maybe_expr(state, step.as_ref())?;
            branch(state, body)
        }
        StmtKind::Case(value, body) => {
            expr(state, value)?;
            statement(state, body)
        }
        StmtKind::Default(body) => statement(state, body),
        StmtKind::Return(value) => maybe_expr(state, value.as_ref()),
        StmtKind::Local(words, list) => {
            specs(state, words)?;
            entries(state, list.as_slice())
        }
    }
}

/// The parameters of a function that is defined, which hold in its body: those of the layer next to its name.
#[cycle(parameters)]
#[tactic(auto, using(crate::proofs::DefinedParams::pointer_params, crate::proofs::DefinedParams::direct_params))]
fn defined_params(state: &mut Taken, declarator: &Declarator) -> Result<(), NoMemory>
    ensures { IfOk result (λ _. state.new ≡ with_params_of declarator.now state.old) }
{
    match declarator {
        Declarator::Pointer(_, _, target) => defined_params(state, target),
        Declarator::Direct(base, list) => base_params(state, base, list),
    }
}

/// The same of what suffixes stand behind, and these suffixes.
#[cycle(parameters)]
#[tactic(auto, using(crate::proofs::DefinedParams::nothing_params, crate::proofs::DefinedParams::name_params, crate::proofs::DefinedParams::parens_params))]
fn base_params(state: &mut Taken, base: &Base, list: &[Suffix]) -> Result<(), NoMemory>
    ensures { IfOk result (λ _. state.new ≡ with_params_behind base.now list.now state.old) }
{
    match base {
        Base::Nothing => Ok(()),
        Base::Name(_) => first_params(state, list),
        Base::Parens(_, declarator) => defined_params(state, declarator),
    }
}

/// The parameters of the first of some suffixes.
#[tactic(auto, using(crate::proofs::DefinedParams::first_is, crate::proofs::DefinedParams::none_is))]
fn first_params(state: &mut Taken, list: &[Suffix]) -> Result<(), NoMemory>
    ensures { IfOk result (λ _. state.new ≡ with_suffix_params list.now state.old) }
{
    if list.len() > 0 {
        return kind_params(state, &list[0].kind);
    }
    Ok(())
}

/// The parameters of a suffix of that kind, if it has some.
#[tactic(auto, using(crate::proofs::DefinedParams::array_params, crate::proofs::DefinedParams::void_params, crate::proofs::DefinedParams::list_params))]
fn kind_params(state: &mut Taken, kind: &SuffixKind) -> Result<(), NoMemory>
    ensures { IfOk result (λ _. state.new ≡ params_taken (kind_params kind.now) state.old) }
{
    match kind {
        SuffixKind::Array(_) | SuffixKind::Void => Ok(()),
        SuffixKind::Params(list) => {
            let typedef = state.is_typedef();
            params(state, list)?;
            state.set_typedef(typedef);
            Ok(())
        }
    }
}

/// The numbers of the parameters and locals of a function whose address is taken in its definition, the latest first; its
/// parameters are numbered first. The last line is that of the brace behind its body.
///
/// # Errors
///
/// [`NoMemory`] only for want of memory.
#[tactic(auto, using(crate::proofs::DefinedParams::body_is))]
pub fn addressed_in(
    alloc: Global,
    declarator: &Declarator,
    body: &[Stmt],
    _end: Line,
) -> Result<Vec<u32>, NoMemory>
    ensures { IfOk result (λ list. list.items ≡ addressed_by declarator.now body.now _end) }
{
    let mut state = Taken::nothing(alloc);
    defined_params(&mut state, declarator)?;
    items(&mut state, body)?;
    Ok(state.into_addressed())
}
