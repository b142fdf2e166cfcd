//! Expressions, specs and declarators, written word by word.

ghost use Rattle.std.specs.Prelude.{option_map};
ghost use Rattle.c_tree.specs.View.{spec_tree, enumerator_tree, declarator_tree, base_tree};
ghost use Rattle.c_tree.specs.StatementView.{maybe_length, expr_view, arguments_view, specs_view, typename_view, tag_view, member_view, member_names_view, members_view, enumerators_view, suffix_view, suffixes_view, param_view, params_view};
ghost use Rattle.c_tree.specs.Made.{Writes};

use crate::tree::{
    Base, Declarator, Enumerator, Expr, ExprKind, Member, Param, Spec, Specs, Suffix, SuffixKind,
    Tag, TagKind, TypeName,
};
use crate::word::{Keyword, Sign};
use crate::writer::Writer;
use hs_base::NoMemory;

impl Writer {
    /// Writes an expression.
    #[cycle(write)]
    #[tactic(auto, using(crate::proofs::ExprTexts::name_text, crate::proofs::ExprTexts::int_text, crate::proofs::ExprTexts::char_text, crate::proofs::ExprTexts::str_text, crate::proofs::ExprTexts::paren_text, crate::proofs::ExprTexts::index_text, crate::proofs::ExprTexts::call_text, crate::proofs::ExprTexts::dot_text, crate::proofs::ExprTexts::arrow_text, crate::proofs::ExprTexts::post_inc_text, crate::proofs::ExprTexts::post_dec_text, crate::proofs::ExprTexts::pre_inc_text, crate::proofs::ExprTexts::pre_dec_text, crate::proofs::ExprTexts::unary_text, crate::proofs::ExprTexts::sizeof_expr_text, crate::proofs::ExprTexts::sizeof_type_text, crate::proofs::ExprTexts::cast_text, crate::proofs::ExprTexts::binary_text, crate::proofs::ExprTexts::cond_text, crate::proofs::ExprTexts::assign_text, crate::proofs::ExprTexts::comma_text))]
    pub(crate) fn expr(&mut self, e: &Expr) -> Result<(), NoMemory>
        ensures { Writes result self.old self.new (expr_view e.now) }
    {
        match &e.kind {
            ExprKind::Name(bytes) => {
                self.name(bytes.as_slice())?;
                Ok(())
            }
            ExprKind::Int(bytes) => {
                self.int(bytes.as_slice())?;
                Ok(())
            }
            ExprKind::Char(bytes) => {
                self.char(bytes.as_slice())?;
                Ok(())
            }
            ExprKind::Str(parts) => {
                self.strings(parts.as_slice())?;
                Ok(())
            }
            ExprKind::Paren(inner) => {
                self.mark(Sign::LeftParen)?;
                self.expr(inner)?;
                self.mark(Sign::RightParen)?;
                Ok(())
            }
            ExprKind::Index(array, index) => {
                self.expr(array)?;
                self.mark(Sign::LeftBracket)?;
                self.expr(index)?;
                self.mark(Sign::RightBracket)?;
                Ok(())
            }
            ExprKind::Call(callee, arguments) => {
                self.expr(callee)?;
                self.mark(Sign::LeftParen)?;
                self.arguments(arguments)?;
                self.mark(Sign::RightParen)?;
                Ok(())
            }
            ExprKind::Dot(whole, name) => {
                self.expr(whole)?;
                self.mark(Sign::Dot)?;
                self.name(name.as_slice())?;
                Ok(())
            }
            ExprKind::Arrow(pointer, name) => {
                self.expr(pointer)?;
                self.mark(Sign::Arrow)?;
                self.name(name.as_slice())?;
                Ok(())
            }
            ExprKind::PostInc(operand) => {
                self.expr(operand)?;
                self.mark(Sign::PlusPlus)?;
                Ok(())
            }
            ExprKind::PostDec(operand) => {
                self.expr(operand)?;
                self.mark(Sign::MinusMinus)?;
                Ok(())
            }
            ExprKind::PreInc(operand) => {
                self.mark(Sign::PlusPlus)?;
                self.expr(operand)?;
                Ok(())
            }
            ExprKind::PreDec(operand) => {
                self.mark(Sign::MinusMinus)?;
                self.expr(operand)?;
                Ok(())
            }
            ExprKind::Unary(op, operand) => {
                self.mark(op.sign())?;
                self.expr(operand)?;
                Ok(())
            }
            ExprKind::SizeofExpr(operand) => {
                self.key(Keyword::Sizeof)?;
                self.expr(operand)?;
                Ok(())
            }
            ExprKind::SizeofType(typename) => {
                self.key(Keyword::Sizeof)?;
                self.mark(Sign::LeftParen)?;
                self.typename(typename)?;
                self.mark(Sign::RightParen)?;
                Ok(())
            }
            ExprKind::Cast(typename, operand) => {
                self.mark(Sign::LeftParen)?;
                self.typename(typename)?;
                self.mark(Sign::RightParen)?;
                self.expr(operand)?;
                Ok(())
            }
            ExprKind::Binary(op, left, right) => {
                self.expr(left)?;
                self.mark(op.sign())?;
                self.expr(right)?;
                Ok(())
            }
            ExprKind::Cond(test, first, second) => {
                self.expr(test)?;
                self.mark(Sign::Question)?;
                self.expr(first)?;
                self.mark(Sign::Colon)?;
                self.expr(second)?;
                Ok(())
            }
            ExprKind::Assign(op, left, right) => {
                self.expr(left)?;
                self.mark(op.sign())?;
                self.expr(right)?;
                Ok(())
            }
            ExprKind::Comma(left, right) => {
                self.expr(left)?;
                self.mark(Sign::Comma)?;
                self.expr(right)?;
                Ok(())
            }
        }
    }

    /// Writes the arguments of a call.
    #[cycle(write)]
    #[tactic(auto, using(crate::proofs::ListTexts::arguments_text, crate::proofs::ListTexts::no_arguments_text))]
    fn arguments(&mut self, list: &[Expr]) -> Result<(), NoMemory>
        ensures { Writes result self.old self.new (arguments_view list.now) }
    {
        match list {
            [] => Ok(()),
            [first, rest @ ..] => {
                self.expr(first)?;
                for e in rest {
                    self.mark(Sign::Comma)?;
                    self.expr(e)?;
                }
                Ok(())
            }
        }
    }

    /// Writes a typename.
    #[cycle(write)]
    #[tactic(auto, using(crate::proofs::ListTexts::typename_text))]
    fn typename(&mut self, typename: &TypeName) -> Result<(), NoMemory>
        ensures { Writes result self.old self.new (typename_view typename.now) }
    {
        self.specs(&typename.specs)?;
        self.declarator(&typename.declarator)?;
        Ok(())
    }

    /// Writes specs.
    #[cycle(write)]
    #[tactic(auto, using(crate::proofs::ListTexts::specs_text))]
    pub(crate) fn specs(&mut self, specs: &Specs) -> Result<(), NoMemory>
        ensures { Writes result self.old self.new (specs_view specs.now) }
    {
        for word in &specs.words {
            self.spec(word)?;
        }
        Ok(())
    }

    /// Writes a word of specs.
    #[cycle(write)]
    #[tactic(auto, unfolding(crate::specs::View::spec_tree), using(crate::proofs::ListTexts::typedef_name_text))]
    fn spec(&mut self, spec: &Spec) -> Result<(), NoMemory>
        ensures { Writes result self.old self.new (spec_tree spec.now) }
    {
        match spec {
            Spec::Static => self.key_part(Keyword::Static),
            Spec::Extern => self.key_part(Keyword::Extern),
            Spec::Typedef => self.key_part(Keyword::Typedef),
            Spec::Const => self.key_part(Keyword::Const),
            Spec::Void => self.key_part(Keyword::Void),
            Spec::Char => self.key_part(Keyword::Char),
            Spec::Short => self.key_part(Keyword::Short),
            Spec::Int => self.key_part(Keyword::Int),
            Spec::Long => self.key_part(Keyword::Long),
            Spec::Signed => self.key_part(Keyword::Signed),
            Spec::Unsigned => self.key_part(Keyword::Unsigned),
            Spec::Named(name) => {
                self.name(name.as_slice())?;
                Ok(())
            }
            Spec::Tag(tag) => {
                self.tag(tag)?;
                Ok(())
            }
        }
    }

    /// Writes a tag.
    #[cycle(write)]
    #[tactic(auto, using(crate::proofs::ExprTexts::tag_record_text, crate::proofs::ExprTexts::tag_record_body_text, crate::proofs::ExprTexts::tag_enum_text, crate::proofs::ListTexts::enum_body_text))]
    fn tag(&mut self, tag: &Tag) -> Result<(), NoMemory>
        ensures { Writes result self.old self.new (tag_view tag.now) }
    {
        match &tag.kind {
            TagKind::Record(sort, name) => {
                self.key(sort.keyword())?;
                self.name(name.as_slice())?;
                Ok(())
            }
            TagKind::RecordBody(sort, name, members) => {
                self.key(sort.keyword())?;
                self.maybe_name(name)?;
                self.mark(Sign::LeftBrace)?;
                self.members(members)?;
                self.mark(Sign::RightBrace)?;
                Ok(())
            }
            TagKind::Enum(name) => {
                self.key(Keyword::Enum)?;
                self.name(name.as_slice())?;
                Ok(())
            }
            TagKind::EnumBody(name, enumerators, trailing) => {
                self.key(Keyword::Enum)?;
                self.maybe_name(name)?;
                self.mark(Sign::LeftBrace)?;
                self.enumerators(enumerators)?;
                self.close(*trailing)?;
                Ok(())
            }
        }
    }

    /// Writes the members of a tag.
    #[cycle(write)]
    #[tactic(auto, using(crate::proofs::ListTexts::members_text))]
    fn members(&mut self, list: &[Member]) -> Result<(), NoMemory>
        ensures { Writes result self.old self.new (members_view list.now) }
    {
        for member in list {
            self.member(member)?;
        }
        Ok(())
    }

    /// Writes members of one declaration.
    #[cycle(write)]
    #[tactic(auto, using(crate::proofs::ListTexts::member_text))]
    fn member(&mut self, member: &Member) -> Result<(), NoMemory>
        ensures { Writes result self.old self.new (member_view member.now) }
    {
        self.specs(&member.specs)?;
        self.member_names(&member.declarators)?;
        self.mark(Sign::Semicolon)?;
        Ok(())
    }

    /// Writes the declarators of members.
    #[cycle(write)]
    #[tactic(auto, using(crate::proofs::ListTexts::member_names_text, crate::proofs::ListTexts::no_member_names_text))]
    fn member_names(&mut self, list: &[Declarator]) -> Result<(), NoMemory>
        ensures { Writes result self.old self.new (member_names_view list.now) }
    {
        match list {
            [] => Ok(()),
            [first, rest @ ..] => {
                self.declarator(first)?;
                for declarator in rest {
                    self.mark(Sign::Comma)?;
                    self.declarator(declarator)?;
                }
                Ok(())
            }
        }
    }

    /// Writes the enumerators of an enum.
    #[cycle(write)]
    #[tactic(auto, using(crate::proofs::ListTexts::enumerators_text, crate::proofs::ListTexts::no_enumerators_text))]
    fn enumerators(&mut self, list: &[Enumerator]) -> Result<(), NoMemory>
        ensures { Writes result self.old self.new (enumerators_view list.now) }
    {
        match list {
            [] => Ok(()),
            [first, rest @ ..] => {
                self.enumerator(first)?;
                for enumerator in rest {
                    self.mark(Sign::Comma)?;
                    self.enumerator(enumerator)?;
                }
                Ok(())
            }
        }
    }

    /// Writes an enumerator.
    #[cycle(write)]
    #[tactic(auto, using(crate::proofs::ListTexts::plain_enumerator_text, crate::proofs::ListTexts::value_enumerator_text))]
    fn enumerator(&mut self, enumerator: &Enumerator) -> Result<(), NoMemory>
        ensures { Writes result self.old self.new (enumerator_tree enumerator.now) }
    {
        self.name(enumerator.name.as_slice())?;
        match &enumerator.value {
            Some(value) => {
                self.mark(Sign::Equal)?;
                self.expr(value)?;
                Ok(())
            }
            None => Ok(()),
        }
    }

    /// Writes a declarator.
    #[cycle(write)]
    #[tactic(auto, using(crate::proofs::ExprTexts::direct_text, crate::proofs::ListTexts::pointer_text))]
    pub(crate) fn declarator(&mut self, declarator: &Declarator) -> Result<(), NoMemory>
        ensures { Writes result self.old self.new (declarator_tree declarator.now) }
    {
        match declarator {
            Declarator::Pointer(_, consts, target) => {
                self.mark(Sign::Star)?;
                self.consts(*consts)?;
                self.declarator(target)?;
                Ok(())
            }
            Declarator::Direct(base, suffixes) => {
                self.base(base)?;
                self.suffixes(suffixes)?;
                Ok(())
            }
        }
    }

    /// Writes what suffixes stand behind.
    #[cycle(write)]
    #[tactic(auto, unfolding(crate::specs::View::base_tree), using(crate::proofs::ExprTexts::parens_text, crate::proofs::ListTexts::nothing_text))]
    fn base(&mut self, base: &Base) -> Result<(), NoMemory>
        ensures { Writes result self.old self.new (base_tree base.now) }
    {
        match base {
            Base::Nothing => Ok(()),
            Base::Name(name) => {
                self.name(name.as_slice())?;
                Ok(())
            }
            Base::Parens(_, inner) => {
                self.mark(Sign::LeftParen)?;
                self.declarator(inner)?;
                self.mark(Sign::RightParen)?;
                Ok(())
            }
        }
    }

    /// Writes the suffixes of a declarator.
    #[cycle(write)]
    #[tactic(auto, using(crate::proofs::ListTexts::suffixes_text))]
    fn suffixes(&mut self, list: &[Suffix]) -> Result<(), NoMemory>
        ensures { Writes result self.old self.new (suffixes_view list.now) }
    {
        for suffix in list {
            self.suffix(suffix)?;
        }
        Ok(())
    }

    /// Writes a suffix of a declarator.
    #[cycle(write)]
    #[tactic(auto, using(crate::proofs::ExprTexts::array_suffix_text, crate::proofs::ExprTexts::void_suffix_text, crate::proofs::ExprTexts::params_suffix_text))]
    fn suffix(&mut self, suffix: &Suffix) -> Result<(), NoMemory>
        ensures { Writes result self.old self.new (suffix_view suffix.now) }
    {
        match &suffix.kind {
            SuffixKind::Array(length) => {
                self.mark(Sign::LeftBracket)?;
                self.length(length)?;
                self.mark(Sign::RightBracket)?;
                Ok(())
            }
            SuffixKind::Void => {
                self.mark(Sign::LeftParen)?;
                self.key(Keyword::Void)?;
                self.mark(Sign::RightParen)?;
                Ok(())
            }
            SuffixKind::Params(params) => {
                self.mark(Sign::LeftParen)?;
                self.params(params)?;
                self.mark(Sign::RightParen)?;
                Ok(())
            }
        }
    }

    /// Writes the length of an array, which may be left out.
    #[cycle(write)]
    #[tactic(auto, using(crate::proofs::ListTexts::no_length_text, crate::proofs::ListTexts::some_length_text))]
    fn length(&mut self, length: &Option<Box<Expr>>) -> Result<(), NoMemory>
        ensures { Writes result self.old self.new (maybe_length (option_map (λ b. b.value) length.now)) }
    {
        match length {
            Some(length) => {
                self.expr(length)?;
                Ok(())
            }
            None => Ok(()),
        }
    }

    /// Writes parameters.
    #[cycle(write)]
    #[tactic(auto, using(crate::proofs::ListTexts::params_text, crate::proofs::ListTexts::no_params_text))]
    fn params(&mut self, list: &[Param]) -> Result<(), NoMemory>
        ensures { Writes result self.old self.new (params_view list.now) }
    {
        match list {
            [] => Ok(()),
            [first, rest @ ..] => {
                self.param(first)?;
                for param in rest {
                    self.mark(Sign::Comma)?;
                    self.param(param)?;
                }
                Ok(())
            }
        }
    }

    /// Writes a parameter.
    #[cycle(write)]
    #[tactic(auto, using(crate::proofs::ListTexts::param_text))]
    fn param(&mut self, param: &Param) -> Result<(), NoMemory>
        ensures { Writes result self.old self.new (param_view param.now) }
    {
        self.specs(&param.specs)?;
        self.declarator(&param.declarator)?;
        Ok(())
    }
}
