//! Tokens from left to right, and the names that are declared.

ghost use Rattle.std.specs.Prelude.{◌≡◌, ◌<◌, ◌+◌, ◌^◌, ◌-◌, ◌&&◌, not, if◌then◌else◌, length, IfOk};
ghost use Rattle.grammar_reading.specs.Declarators.{leading_consts, past_consts, maybe_name_at, is_void_list, tag_names_only};
ghost use Rattle.grammar_reading.specs.Reading.{goes_on_inside};
ghost use Rattle.c_tree.specs.Tree.{none};
ghost use Rattle.c_tree.specs.declared.word.Sign.TheVariants as sign;
ghost use Rattle.c_tree.specs.declared.word.Keyword.TheVariants as keyword;
ghost use Rattle.grammar_reading.specs.Rooms.{less, start_of};
ghost use Rattle.c_tree.specs.View.{maybe_name};
ghost use Rattle.grammar_reading.specs.State as state;
ghost use Rattle.grammar_reading.specs.Expressions as spec;
ghost use Rattle.parser_parts.specs.Gives.{Passes, Reads};
ghost use Rattle.c_tree.specs.View.{name_leaf};
ghost use Rattle.c_tree.specs.Words.{Key, Mark};
ghost use Rattle.c_tree.specs.Scopes as scopes;
ghost use Rattle.parser_parts.specs.Names.{name_now};
ghost use Rattle.parser_parts.specs.States.{with_words, keeping, outside, outside_params, closing};

use crate::declared::{Entry, Named, Names, copied, declare_all};
use crate::error::ReadError;
use crate::kind::{is_key, is_mark, is_name, is_spec_key};
use crate::known::kind_of;
use c_lexer::Token;
use c_tree::{Keyword, Sign};
use grammar_reading::Kind;
use hs_base::{Items, Line, NoMemory};
use std::alloc::Global;
use std::marker::Model;

/// The tokens that are left, and what is declared before them.
#[derive(Drop)]
pub struct Reader<'a> {
    words: &'a [Token],
    /// What the next token is.
    next: Kind,
    /// What is declared.
    names: Names<'a>,
    /// Whether a declaration of typedef names is being read.
    typedef: bool,
    /// The parameters next to the name that was read last, the latest last.
    params: Vec<Entry<'a>>,
}

/// How many names are declared outside of a scope, and whether a declaration of typedef names is being read there.
#[derive(Clone, Copy, Debug, Drop)]
pub struct Outer {
    pub count: usize,
    pub typedef: bool,
}

/// Parameters that are kept.
#[derive(Drop)]
pub struct Params<'a> {
    names: Vec<Entry<'a>>,
}

impl<'a> Model for Params<'a> {
    ghost use Rattle.std.specs.Prelude.{List};
    ghost use Rattle.c_tree.specs.Scopes.{Known};
    ghost use Rattle.parser_parts.specs.Names.{known_names};

    ghost Value = { List Known };

    ghost view = { λ o. known_names o.names.items };
}

/// What the first of some tokens is.
fn first_kind(words: &[Token]) -> Kind
    ensures { result ≡ state.first_kind words.now }
{
    match words {
        [] => Kind::End,
        [token, ..] => kind_of(token),
    }
}

impl<'a> Model for Reader<'a> {
    ghost use Rattle.std.specs.Prelude.{◌≡◌};
    ghost use Rattle.grammar_reading.specs.State.{State, first_kind};
    ghost use Rattle.parser_parts.specs.Names.{known_names};

    ghost Value = { State };

    ghost view = { λ r. record { words = r.words.now; scope = record { names = r.names; typedef = r.typedef }; params = known_names r.params.items } };

    ghost invariant = { λ r. r.next ≡ first_kind r.words.now };
}

impl<'a> Reader<'a> {
    /// A reader at the first of some tokens: of the built-in names `size_t` is a type.
    pub fn new(alloc: Global, words: &'a [Token]) -> Result<Reader<'a>, NoMemory>
        ensures { IfOk result (λ reader. reader ≡ start_of words.now) }
    {
        let mut names = Names::new(alloc);
        names.declare(Named {
            name: b"size_t",
            is_type: true,
        })?;
        Ok(Reader {
            words,
            next: first_kind(words),
            names,
            typedef: false,
            params: Vec::new(alloc),
        })
    }

    /// What the next token is.
    pub fn kind(&self) -> Kind
        ensures { result ≡ state.kind_at self.now }
    {
        self.next
    }

    /// What the token behind the next one is.
    pub fn kind_behind(&self) -> Kind
        ensures { result ≡ state.kind_at (state.skip self.now) }
    {
        match self.words {
            [_, token, ..] => kind_of(token),
            _ => Kind::End,
        }
    }

    /// What the token behind the next two is.
    pub fn kind_behind_two(&self) -> Kind
        ensures { result ≡ state.kind_at (state.skip (state.skip self.now)) }
    {
        match self.words {
            [_, _, token, ..] => kind_of(token),
            _ => Kind::End,
        }
    }

    /// The line of the next token.
    pub fn line(&self) -> Line
        ensures { result ≡ state.line_at self.now }
    {
        match self.words {
            [] => 0,
            [token, ..] => token.line,
        }
    }

    /// How the next token is spelled.
    pub fn bytes(&self) -> &'a [u8]
        ensures { result.now ≡ state.bytes_at self.now }
    {
        match self.words {
            [] => &[],
            [token, ..] => token.bytes.as_slice(),
        }
    }

    /// How many tokens are left.
    pub fn left(&self) -> usize
        ensures count { result ≡ state.left_at self.now }
        ensures small { result + 1000 < 2 ^ 64 }
    {
        self.words.len()
    }

    /// Passes the next token.
    pub fn skip(&mut self)
        ensures { self.new ≡ state.skip self.old }
    {
        if let [_, rest @ ..] = self.words {
            self.next = first_kind(rest);
            self.words = rest;
        }
    }

    /// Says whether the next token is a keyword.
    pub fn is_key(&self, keyword: Keyword) -> bool
        ensures { result ≡ state.at_key keyword self.now }
    {
        is_key(self.kind(), keyword)
    }

    /// Says whether the next token is a sign.
    pub fn is_mark(&self, sign: Sign) -> bool
        ensures { result ≡ state.at_mark sign self.now }
    {
        is_mark(self.kind(), sign)
    }

    /// Says whether the next token is a name.
    pub fn is_name(&self) -> bool
        ensures { result ≡ state.at_name self.now }
    {
        match self.kind() {
            Kind::Name => true,
            _ => false,
        }
    }

    /// Passes a sign.
    pub fn mark(&mut self, sign: Sign) -> Result<(), ReadError>
        ensures { Passes result self.new (state.past (Mark sign) self.old) }
    {
        if !self.is_mark(sign) {
            return Err(ReadError::Syntax);
        }
        self.skip();
        Ok(())
    }

    /// Passes a keyword.
    pub fn key(&mut self, keyword: Keyword) -> Result<(), ReadError>
        ensures { Passes result self.new (state.past (Key keyword) self.old) }
    {
        if !self.is_key(keyword) {
            return Err(ReadError::Syntax);
        }
        self.skip();
        Ok(())
    }

    /// Passes the `else` of an `if` that was read up to here, and says whether it stands here: an `else` belongs to the nearest
    /// `if` in front (C99 6.8.4.1), whatever stands around that one and whatever statement is behind.
    pub fn take_else(&mut self) -> bool
        ensures taken { result ≡ state.at_key keyword.Else self.old }
        ensures behind { self.new ≡ (if result then state.skip self.old else self.old) }
    {
        if !self.is_key(Keyword::Else) {
            return false;
        }
        self.skip();
        true
    }

    /// Says whether the next token, a name, is a type.
    pub fn is_type(&self) -> bool
        ensures { result ≡ scopes.is_type self.now.scope.names (state.bytes_at self.now) }
    {
        self.names.is_type(self.bytes())
    }

    /// Says whether a declaration of typedef names is being read.
    pub fn is_typedef(&self) -> bool
        ensures { result ≡ self.now.scope.typedef }
    {
        self.typedef
    }

    /// Says whether a declaration of typedef names is being read.
    pub fn set_typedef(&mut self, typedef: bool)
        ensures { self.new ≡ state.with_flag typedef self.old }
    {
        self.typedef = typedef;
    }

    /// Declares a name, where there is one.
    pub fn declare(&mut self, name: Option<&'a [u8]>, is_type: bool) -> Result<(), NoMemory>
        ensures { IfOk result (λ _. self.new ≡ state.declaring (name_now name.entry) is_type self.old) }
    {
        if let Some(name) = name {
            self.names.declare(Named { name, is_type })?;
        }
        Ok(())
    }

    /// Begins a scope.
    pub fn enter(&self) -> Outer
        ensures count { result.count ≡ length self.now.scope.names }
        ensures typedef { result.typedef ≡ self.now.scope.typedef }
    {
        Outer {
            count: self.names.len(),
            typedef: self.typedef,
        }
    }

    /// Ends a scope: what was declared in it holds no longer.
    pub fn leave(&mut self, outer: Outer) -> Result<(), NoMemory>
        ensures { IfOk result (λ _. self.new ≡ outside outer self.old) }
    {
        self.names.cut(outer.count)?;
        self.typedef = outer.typedef;
        Ok(())
    }

    /// How the next token is spelled.
    pub fn spelling(&self, alloc: Global) -> Result<Items<u8>, NoMemory>
        ensures { IfOk result (λ b. b ≡ state.bytes_at self.now) }
    {
        let bytes = self.bytes().to_vec(alloc)?;
        Ok(bytes.into())
    }

    /// A name.
    #[tactic(auto, using(crate::specs::WordEquations::name_words))]
    pub fn name(&mut self, alloc: Global) -> Result<Items<u8>, ReadError>
        ensures value { Reads name_leaf result self.new (spec.name_at self.old) }
        ensures spelling { IfOk result (λ name. name ≡ state.bytes_at self.old) }
    {
        if !self.is_name() {
            return Err(ReadError::Syntax);
        }
        let name = self.spelling(alloc)?;
        self.skip();
        Ok(name)
    }

    /// Says whether specs begin with these tokens.
    fn starts(&self, words: &[Token]) -> bool
        ensures { result ≡ state.starts_type (with_words words.now self.now) }
    {
        match words {
            [] => false,
            [token, ..] => match kind_of(token) {
                Kind::Key(keyword) => is_spec_key(keyword),
                Kind::Name => self.names.is_type(token.bytes.as_slice()),
                _ => false,
            },
        }
    }

    /// Says whether a type's name in parentheses begins with these tokens.
    fn opens(&self, words: &[Token]) -> bool
        ensures { result ≡ state.opens_type (with_words words.now self.now) }
    {
        match words {
            [] => false,
            [token, rest @ ..] => is_mark(kind_of(token), Sign::LeftParen) && self.starts(rest),
        }
    }

    /// Says whether specs begin here.
    pub fn starts_type(&self) -> bool
        ensures { result ≡ state.starts_type self.now }
    {
        self.starts(self.words)
    }

    /// Says whether a type's name in parentheses begins here.
    pub fn opens_type(&self) -> bool
        ensures { result ≡ state.opens_type self.now }
    {
        self.opens(self.words)
    }

    /// Says whether a type's name in parentheses begins behind the next token.
    pub fn opens_type_behind(&self) -> bool
        ensures { result ≡ state.opens_type (state.skip self.now) }
    {
        match self.words {
            [] => false,
            [_, rest @ ..] => self.opens(rest),
        }
    }

    /// Passes the words `const`, and says how many there were.
    #[tactic(auto, using(crate::proofs::Consts::one_const, crate::proofs::Consts::no_const))]
    pub fn consts(&mut self) -> usize
        ensures count { result ≡ leading_consts self.old.words }
        ensures behind { self.new ≡ past_consts self.old }
    {
        let most = self.left();
        let mut count = 0;
        'consts: while self.is_key(Keyword::Const) {
            self.skip();
            count += 1;
        }
        let _ = most;
        count
    }

    /// The parameters next to the name that was read last.
    pub fn params(&self, alloc: Global) -> Result<Params<'a>, NoMemory>
        ensures { IfOk result (λ p. p ≡ self.now.params) }
    {
        let names = copied(alloc, self.params.as_slice())?;
        Ok(Params { names })
    }

    /// With parameters that were kept.
    pub fn keep_params(&mut self, held: Params<'a>)
        ensures { self.new ≡ keeping held.entry self.old }
    {
        let Params { names } = held;
        self.params = names;
    }

    /// Ends a parameter list, whose names are kept.
    pub fn leave_params(&mut self, alloc: Global, outer: Outer) -> Result<(), NoMemory>
        ensures { IfOk result (λ _. self.new ≡ outside_params outer self.old) }
    {
        self.params = self.names.behind(alloc, outer.count)?;
        self.names.cut(outer.count)?;
        self.typedef = outer.typedef;
        Ok(())
    }

    /// Begins a body: the parameters are declared.
    pub fn declare_params(&mut self) -> Result<(), NoMemory>
        ensures { IfOk result (λ _. self.new ≡ state.in_body self.old) }
    {
        declare_all(&mut self.names, self.params.as_slice())?;
        Ok(())
    }

    /// Says whether a tag stands here without braces.
    pub fn is_tag_alone(&self) -> bool
        ensures { result ≡ tag_names_only (less 0) 0 self.now }
    {
        is_name(self.kind_behind()) && !is_mark(self.kind_behind_two(), Sign::LeftBrace)
    }

    /// Says whether a parameter list is `(void)`.
    pub fn is_void_list(&self) -> bool
        ensures { result ≡ is_void_list self.now }
    {
        is_key(self.kind_behind(), Keyword::Void)
            && is_mark(self.kind_behind_two(), Sign::RightParen)
    }

    /// Says whether an initializer stands here, behind a name that was declared: a typedef name has none (C99 6.7.8).
    pub fn has_init(&self) -> bool
        ensures { result ≡ (state.at_mark sign.Equal self.now && not self.now.scope.typedef) }
    {
        self.is_mark(Sign::Equal) && !self.is_typedef()
    }

    /// Says whether a list goes on, where a comma may stand before the closing brace.
    pub fn goes_on_inside(&self) -> bool
        ensures { result ≡ goes_on_inside self.now }
    {
        self.is_mark(Sign::Comma) && !is_mark(self.kind_behind(), Sign::RightBrace)
    }

    /// A name, where there is one.
    #[tactic(auto, unfolding(c_tree::specs::Grammar::shape))]
    pub fn maybe_name(&mut self, alloc: Global) -> Result<Option<Items<u8>>, ReadError>
        ensures { Reads maybe_name result self.new (maybe_name_at (less 0) 0 self.old) }
    {
        if !self.is_name() {
            return Ok(None);
        }
        Ok(Some(self.name(alloc)?))
    }

    /// Passes a closing brace, behind a comma or not.
    pub fn closing(&mut self, trailing: bool) -> Result<(), ReadError>
        ensures { Reads (λ _. none) result self.new (closing trailing self.old) }
    {
        if trailing {
            self.mark(Sign::Comma)?;
        }
        self.mark(Sign::RightBrace)
    }
}
