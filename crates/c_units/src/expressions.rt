//! Names in expressions, specs and declarators as they stand in the program.

ghost use Rattle.std.specs.Prelude.{◌≡◌, OnOk};
ghost use Rattle.c_tree.specs.Forms.{Form};
ghost use Rattle.c_tree.specs.View.{expr_tree, spec_tree, enumerator_tree, declarator_tree, base_tree};
ghost use Rattle.c_tree.specs.StatementView.{trees, expr_view, specs_view, typename_view, tag_view, member_view, suffix_view, param_view};
ghost use Rattle.c_units.specs.declared.mention.Role.TheVariants.{Used, Tagged};
ghost use Rattle.c_units.specs.Names.{behind, mention, renamed};
ghost use Rattle.c_units.specs.Turns.{behind_maybe, in_turn};
ghost use Rattle.c_units.specs.Rewriting.{Rewrites, RewritesEach, boxed_view, RewritesBoxed, name_in_program, used, tagged};

use crate::declarations::declared_name;
use crate::mention::Role;
use crate::walk::Walk;
use c_tree::{
    Base, Declarator, Enumerator, Expr, ExprKind, Member, Param, Spec, Specs, Suffix, SuffixKind,
    Tag, TagKind, TypeName,
};
use hs_base::{Items, Line, NoMemory};

impl Walk {
    /// A name in an expression.
    fn name(&mut self, line: Line, name: &mut Items<u8>) -> Result<(), NoMemory>
        ensures name { OnOk result (name.new ≡ name_in_program name.old self.old) }
        ensures names { OnOk result (self.new ≡ used name.old line self.old) }
    {
        let binding = self.binding(name.as_slice());
        self.mention(binding, Role::Used, name.as_slice(), line)?;
        self.rename(binding, name)
    }

    /// An expression.
    #[cycle(walk)]
    pub(crate) fn expr(&mut self, e: &mut Expr) -> Result<(), NoMemory>
        ensures tree { OnOk result (Rewrites expr_view e.old e.new self.old) }
        ensures names { OnOk result (self.new ≡ behind (expr_view e.old) self.old) }
    {
        self.expr_of(e.line, &mut e.kind)
    }

    /// An expression of that kind.
    #[cycle(walk)]
    #[tactic(auto, unfolding(c_tree::specs::View::expr_tree, crate::specs::Names::named, c_tree::specs::Scopes::name_of, c_tree::specs::Scopes::name_among, crate::specs::Names::behind, crate::specs::Names::all_behind, crate::specs::Names::renamed, crate::specs::Names::all_renamed, crate::specs::Names::left, crate::specs::Names::entered, crate::specs::Names::made, c_tree::specs::Grammar::shape, c_tree::specs::Scopes::is_scope), using(crate::proofs::TreeParts::str_known, crate::proofs::TreeParts::str_made))]
    fn expr_of(&mut self, line: Line, kind: &mut ExprKind) -> Result<(), NoMemory>
        ensures tree { OnOk result (expr_tree kind.new line ≡ renamed (expr_tree kind.old line) self.old) }
        ensures names { OnOk result (self.new ≡ behind (expr_tree kind.old line) self.old) }
    {
        match kind {
            ExprKind::Name(name) => self.name(line, name),
            ExprKind::Int(_) | ExprKind::Char(_) | ExprKind::Str(_) => Ok(()),
            ExprKind::Paren(operand) => self.expr(operand),
            ExprKind::Dot(operand, _) => self.expr(operand),
            ExprKind::Arrow(operand, _) => self.expr(operand),
            ExprKind::PostInc(operand) => self.expr(operand),
            ExprKind::PostDec(operand) => self.expr(operand),
            ExprKind::PreInc(operand) => self.expr(operand),
            ExprKind::PreDec(operand) => self.expr(operand),
            ExprKind::Unary(_, operand) => self.expr(operand),
            ExprKind::SizeofExpr(operand) => self.expr(operand),
            ExprKind::Call(callee, arguments) => {
                self.expr(callee)?;
                self.exprs(arguments)
            }
            ExprKind::SizeofType(typename) => self.typename(typename),
            ExprKind::Cast(typename, operand) => {
                self.typename(typename)?;
                self.expr(operand)
            }
            ExprKind::Index(left, right) => {
                self.expr(left)?;
                self.expr(right)
            }
            ExprKind::Binary(_, left, right) => {
                self.expr(left)?;
                self.expr(right)
            }
            ExprKind::Assign(_, left, right) => {
                self.expr(left)?;
                self.expr(right)
            }
            ExprKind::Comma(left, right) => {
                self.expr(left)?;
                self.expr(right)
            }
            ExprKind::Cond(test, first, second) => {
                self.expr(test)?;
                self.expr(first)?;
                self.expr(second)
            }
        }
    }

    /// Expressions in turn.
    #[cycle(walk)]
    #[tactic(auto, using(crate::proofs::ItemTurns::item_next, crate::proofs::ItemTurns::all_made, crate::proofs::ItemTurns::all_known))]
    fn exprs(&mut self, list: &mut [Expr]) -> Result<(), NoMemory>
        ensures trees { OnOk result (RewritesEach expr_view list.old list.new self.old) }
        ensures names { OnOk result (self.new ≡ in_turn (trees expr_view list.old) self.old) }
    {
        for e in list.iter_mut() {
            self.expr(e)?;
        }
        Ok(())
    }

    /// The name of a type.
    #[cycle(walk)]
    #[tactic(auto, unfolding(crate::specs::Names::behind, crate::specs::Names::all_behind, crate::specs::Names::renamed, crate::specs::Names::all_renamed, crate::specs::Names::left, crate::specs::Names::entered, crate::specs::Names::made, c_tree::specs::Grammar::shape, c_tree::specs::Scopes::is_scope))]
    fn typename(&mut self, typename: &mut TypeName) -> Result<(), NoMemory>
        ensures tree { OnOk result (Rewrites typename_view typename.old typename.new self.old) }
        ensures names { OnOk result (self.new ≡ behind (typename_view typename.old) self.old) }
    {
        self.specs(&mut typename.specs)?;
        self.declarator(&mut typename.declarator)
    }

    /// Specs.
    #[cycle(walk)]
    #[tactic(auto, unfolding(crate::specs::Names::behind, crate::specs::Names::all_behind, crate::specs::Names::renamed, crate::specs::Names::all_renamed, crate::specs::Names::left, crate::specs::Names::entered, crate::specs::Names::made, c_tree::specs::Grammar::shape, c_tree::specs::Scopes::is_scope), using(crate::proofs::TreeParts::specs_known, crate::proofs::TreeParts::specs_made))]
    pub(crate) fn specs(&mut self, specs: &mut Specs) -> Result<(), NoMemory>
        ensures tree { OnOk result (Rewrites specs_view specs.old specs.new self.old) }
        ensures names { OnOk result (self.new ≡ behind (specs_view specs.old) self.old) }
    {
        self.words(&mut specs.words)
    }

    /// The words of specs.
    #[cycle(walk)]
    #[tactic(auto, using(crate::proofs::ItemTurns::item_next, crate::proofs::ItemTurns::all_made, crate::proofs::ItemTurns::all_known))]
    fn words(&mut self, list: &mut [Spec]) -> Result<(), NoMemory>
        ensures trees { OnOk result (RewritesEach spec_tree list.old list.new self.old) }
        ensures names { OnOk result (self.new ≡ in_turn (trees spec_tree list.old) self.old) }
    {
        for word in list.iter_mut() {
            self.spec(word)?;
        }
        Ok(())
    }

    /// A word of specs.
    #[cycle(walk)]
    #[tactic(auto, unfolding(c_tree::specs::View::spec_tree, crate::specs::Names::behind, crate::specs::Names::all_behind, crate::specs::Names::renamed, crate::specs::Names::all_renamed, crate::specs::Names::left, crate::specs::Names::entered, crate::specs::Names::made, c_tree::specs::Grammar::shape, c_tree::specs::Scopes::is_scope))]
    fn spec(&mut self, spec: &mut Spec) -> Result<(), NoMemory>
        ensures tree { OnOk result (Rewrites spec_tree spec.old spec.new self.old) }
        ensures names { OnOk result (self.new ≡ behind (spec_tree spec.old) self.old) }
    {
        match spec {
            Spec::Static
            | Spec::Extern
            | Spec::Typedef
            | Spec::Const
            | Spec::Void
            | Spec::Char
            | Spec::Short
            | Spec::Int
            | Spec::Long
            | Spec::Signed
            | Spec::Unsigned
            | Spec::Named(_) => Ok(()),
            Spec::Tag(tag) => self.tag(tag),
        }
    }

    /// A tag with braces is mentioned at file scope, where it has a name.
    fn tagged(&mut self, tag: &Tag) -> Result<(), NoMemory>
        ensures { OnOk result (self.new ≡ tagged tag.now self.old) }
    {
        match &tag.kind {
            TagKind::RecordBody(_, Some(name), _) | TagKind::EnumBody(Some(name), _, _) => {
                let binding = self.binding_here();
                self.mention(binding, Role::Tagged, name.as_slice(), tag.line)
            }
            TagKind::RecordBody(_, None, _)
            | TagKind::EnumBody(None, _, _)
            | TagKind::Record(_, _)
            | TagKind::Enum(_) => Ok(()),
        }
    }

    /// A tag.
    #[cycle(walk)]
    #[tactic(auto, unfolding(c_tree::specs::View::tag_tree, crate::specs::Names::behind, crate::specs::Names::all_behind, crate::specs::Names::renamed, crate::specs::Names::all_renamed, crate::specs::Names::left, crate::specs::Names::entered, crate::specs::Names::made, c_tree::specs::Grammar::shape, c_tree::specs::Scopes::is_scope))]
    fn tag(&mut self, tag: &mut Tag) -> Result<(), NoMemory>
        ensures tree { OnOk result (Rewrites tag_view tag.old tag.new self.old) }
        ensures names { OnOk result (self.new ≡ behind (tag_view tag.old) self.old) }
    {
        self.tagged(tag)?;
        match &mut tag.kind {
            TagKind::Record(_, _) | TagKind::Enum(_) => Ok(()),
            TagKind::RecordBody(_, _, members) => self.members(members),
            TagKind::EnumBody(_, enumerators, _) => self.enumerators(enumerators),
        }
    }

    /// The members of a tag.
    #[cycle(walk)]
    #[tactic(auto, using(crate::proofs::ItemTurns::item_next, crate::proofs::ItemTurns::all_made, crate::proofs::ItemTurns::all_known))]
    fn members(&mut self, list: &mut [Member]) -> Result<(), NoMemory>
        ensures trees { OnOk result (RewritesEach member_view list.old list.new self.old) }
        ensures names { OnOk result (self.new ≡ in_turn (trees member_view list.old) self.old) }
    {
        for one in list.iter_mut() {
            self.member(one)?;
        }
        Ok(())
    }

    /// Members of one declaration.
    #[cycle(walk)]
    #[tactic(auto, unfolding(crate::specs::Names::behind, crate::specs::Names::all_behind, crate::specs::Names::renamed, crate::specs::Names::all_renamed, crate::specs::Names::left, crate::specs::Names::entered, crate::specs::Names::made, c_tree::specs::Grammar::shape, c_tree::specs::Scopes::is_scope), using(crate::proofs::TreeParts::member_known, crate::proofs::TreeParts::member_made))]
    fn member(&mut self, member: &mut Member) -> Result<(), NoMemory>
        ensures tree { OnOk result (Rewrites member_view member.old member.new self.old) }
        ensures names { OnOk result (self.new ≡ behind (member_view member.old) self.old) }
    {
        self.specs(&mut member.specs)?;
        self.declarators(&mut member.declarators)
    }

    /// The declarators of members.
    #[cycle(walk)]
    #[tactic(auto, using(crate::proofs::ItemTurns::item_next, crate::proofs::ItemTurns::all_made, crate::proofs::ItemTurns::all_known))]
    fn declarators(&mut self, list: &mut [Declarator]) -> Result<(), NoMemory>
        ensures trees { OnOk result (RewritesEach declarator_tree list.old list.new self.old) }
        ensures names { OnOk result (self.new ≡ in_turn (trees declarator_tree list.old) self.old) }
    {
        for one in list.iter_mut() {
            self.declarator(one)?;
        }
        Ok(())
    }

    /// The enumerators of an enum.
    #[cycle(walk)]
    #[tactic(auto, using(crate::proofs::ItemTurns::item_next, crate::proofs::ItemTurns::all_made, crate::proofs::ItemTurns::all_known))]
    fn enumerators(&mut self, list: &mut [Enumerator]) -> Result<(), NoMemory>
        ensures trees { OnOk result (RewritesEach enumerator_tree list.old list.new self.old) }
        ensures names { OnOk result (self.new ≡ in_turn (trees enumerator_tree list.old) self.old) }
    {
        for one in list.iter_mut() {
            self.enumerator(one)?;
        }
        Ok(())
    }

    /// An enumerator, which is declared behind its value.
    #[cycle(walk)]
    #[tactic(auto, unfolding(crate::specs::Names::behind, crate::specs::Names::all_behind, crate::specs::Names::renamed, crate::specs::Names::all_renamed, crate::specs::Names::left, crate::specs::Names::entered, crate::specs::Names::made, c_tree::specs::Grammar::shape, c_tree::specs::Scopes::is_scope), using(crate::proofs::TreeParts::enumerator_known, crate::proofs::TreeParts::enumerator_made))]
    fn enumerator(&mut self, one: &mut Enumerator) -> Result<(), NoMemory>
        ensures tree { OnOk result (Rewrites enumerator_tree one.old one.new self.old) }
        ensures names { OnOk result (self.new ≡ behind (enumerator_tree one.old) self.old) }
    {
        let binding = self.binding_here();
        self.mention(binding, Role::Defined, one.name.as_slice(), one.line)?;
        self.maybe_boxed(&mut one.value)?;
        let binding = self.binding_here();
        self.declare(Some(&one.name), binding)
    }

    /// An expression in a box, which may be left out.
    #[cycle(walk)]
    fn maybe_boxed(&mut self, e: &mut Option<Box<Expr>>) -> Result<(), NoMemory>
        ensures tree { (form : Form) → OnOk result (RewritesBoxed form e.old e.new self.old) }
        ensures names { OnOk result (self.new ≡ behind_maybe (boxed_view e.old) self.old) }
    {
        match e {
            Some(e) => self.expr(e),
            None => Ok(()),
        }
    }

    /// A declarator.
    #[cycle(walk)]
    #[tactic(auto, unfolding(c_tree::specs::View::declarator_tree, crate::specs::Names::behind, crate::specs::Names::all_behind, crate::specs::Names::renamed, crate::specs::Names::all_renamed, crate::specs::Names::left, crate::specs::Names::entered, crate::specs::Names::made, c_tree::specs::Grammar::shape, c_tree::specs::Scopes::is_scope), using(crate::proofs::TreeParts::pointer_known, crate::proofs::TreeParts::pointer_made))]
    pub(crate) fn declarator(&mut self, declarator: &mut Declarator) -> Result<(), NoMemory>
        ensures tree { OnOk result (Rewrites declarator_tree declarator.old declarator.new self.old) }
        ensures names { OnOk result (self.new ≡ behind (declarator_tree declarator.old) self.old) }
    {
        match declarator {
            Declarator::Pointer(_, _, target) => self.declarator(target),
            Declarator::Direct(base, suffixes) => {
                self.base(base)?;
                self.suffixes(suffixes)
            }
        }
    }

    /// What suffixes stand behind.
    #[cycle(walk)]
    #[tactic(auto, unfolding(c_tree::specs::View::base_tree, crate::specs::Names::behind, crate::specs::Names::all_behind, crate::specs::Names::renamed, crate::specs::Names::all_renamed, crate::specs::Names::left, crate::specs::Names::entered, crate::specs::Names::made, c_tree::specs::Grammar::shape, c_tree::specs::Scopes::is_scope))]
    fn base(&mut self, base: &mut Base) -> Result<(), NoMemory>
        ensures tree { OnOk result (Rewrites base_tree base.old base.new self.old) }
        ensures names { OnOk result (self.new ≡ behind (base_tree base.old) self.old) }
    {
        match base {
            Base::Nothing | Base::Name(_) => Ok(()),
            Base::Parens(_, inner) => self.declarator(inner),
        }
    }

    /// The suffixes of a declarator.
    #[cycle(walk)]
    #[tactic(auto, using(crate::proofs::ItemTurns::item_next, crate::proofs::ItemTurns::all_made, crate::proofs::ItemTurns::all_known))]
    fn suffixes(&mut self, list: &mut [Suffix]) -> Result<(), NoMemory>
        ensures trees { OnOk result (RewritesEach suffix_view list.old list.new self.old) }
        ensures names { OnOk result (self.new ≡ in_turn (trees suffix_view list.old) self.old) }
    {
        for one in list.iter_mut() {
            self.suffix(one)?;
        }
        Ok(())
    }

    /// A suffix of a declarator. A parameter list is a scope (C99 6.2.1).
    #[cycle(walk)]
    #[tactic(auto, unfolding(c_tree::specs::View::suffix_tree, crate::specs::Names::behind, crate::specs::Names::all_behind, crate::specs::Names::renamed, crate::specs::Names::all_renamed, crate::specs::Names::left, crate::specs::Names::entered, crate::specs::Names::made, c_tree::specs::Grammar::shape, c_tree::specs::Scopes::is_scope), using(crate::proofs::TreeParts::array_known, crate::proofs::TreeParts::array_made, crate::proofs::TreeParts::params_known, crate::proofs::TreeParts::params_made, crate::proofs::ScopeEnds::turns_back))]
    fn suffix(&mut self, suffix: &mut Suffix) -> Result<(), NoMemory>
        ensures tree { OnOk result (Rewrites suffix_view suffix.old suffix.new self.old) }
        ensures names { OnOk result (self.new ≡ behind (suffix_view suffix.old) self.old) }
    {
        match &mut suffix.kind {
            SuffixKind::Array(length) => self.maybe_boxed(length),
            SuffixKind::Void => Ok(()),
            SuffixKind::Params(params) => {
                let outer = self.outer();
                self.enter();
                self.params(params)?;
                self.leave(outer)
            }
        }
    }

    /// Parameters, each of which is declared behind its declarator.
    #[cycle(walk)]
    #[tactic(auto, using(crate::proofs::ItemTurns::item_next, crate::proofs::ItemTurns::all_made, crate::proofs::ItemTurns::all_known))]
    pub(crate) fn params(&mut self, list: &mut [Param]) -> Result<(), NoMemory>
        ensures trees { OnOk result (RewritesEach param_view list.old list.new self.old) }
        ensures names { OnOk result (self.new ≡ in_turn (trees param_view list.old) self.old) }
    {
        for one in list.iter_mut() {
            self.param(one)?;
        }
        Ok(())
    }

    /// A parameter.
    #[cycle(walk)]
    #[tactic(auto, unfolding(crate::specs::Names::behind, crate::specs::Names::all_behind, crate::specs::Names::renamed, crate::specs::Names::all_renamed, crate::specs::Names::left, crate::specs::Names::entered, crate::specs::Names::made, c_tree::specs::Grammar::shape, c_tree::specs::Scopes::is_scope), using(crate::proofs::TreeParts::param_known, crate::proofs::TreeParts::param_made, crate::proofs::BoundTrees::name_same))]
    fn param(&mut self, param: &mut Param) -> Result<(), NoMemory>
        ensures tree { OnOk result (Rewrites param_view param.old param.new self.old) }
        ensures names { OnOk result (self.new ≡ behind (param_view param.old) self.old) }
    {
        self.specs(&mut param.specs)?;
        self.declarator(&mut param.declarator)?;
        let binding = self.binding_here();
        self.declare(declared_name(&param.declarator), binding)
    }
}
