//! Reading specs (C99 6.7.1 and 6.7.2).

ghost use Rattle.std.specs.Prelude.{◌≡◌, ◌<◌, ◌≤◌, ◌+◌, ◌^◌, IfOk};
ghost use Rattle.c_tree.specs.Scopes as scopes;
ghost use Rattle.c_tree.specs.Tree.{Leaf};
ghost use Rattle.c_tree.specs.View.{spec_tree};
ghost use Rattle.c_tree.specs.StatementView.{trees, specs_view};
ghost use Rattle.grammar_reading.specs.Declarators as spec;
ghost use Rattle.grammar_reading.specs.Declarators.{with_key};
ghost use Rattle.parser_parts.specs.Gives.{Ended};
ghost use Rattle.parser_parts.specs.Trees.{ReadsSpecs, ReadsWords};
ghost use Rattle.c_parser.specs.Pieces.{is_end as spec_is_end};
ghost use Rattle.c_parser.specs.Readers.{AddsWord};
ghost use Rattle.c_parser.specs.Rests.{all_specs, word_behind, keyword_behind, name_behind, specs_of};
ghost use Rattle.grammar_reading.specs.Rooms.{less};
ghost use Rattle.grammar_reading.specs.State.{word_at, kind_at};
ghost use Rattle.parser_parts.specs.Tallies.{tally_of, total};
ghost use Rattle.grammar_reading.specs.declared.kind.SpecStart.TheVariants as starts;

use crate::tags::{enumeration, record};
use c_tree::{Keyword, RecordSort, Spec, Specs};
use grammar_reading::{Kind, SpecStart};
use hs_base::NoMemory;
use parser_parts::{
    DeepSpecs, DeepWords, ReadError, Reader, Tally, has_type_word, may_stand, with_keyword,
    with_whole,
};
use std::alloc::Global;

/// The specs of a declaration, which say whether its names are typedef names.
#[tactic(auto, unfolding(c_tree::specs::Scopes::has_typedef))]
pub fn specs(alloc: Global, reader: &mut Reader, room: usize) -> Result<DeepSpecs, ReadError>
    requires room { room < 401 }
    ensures value { ReadsSpecs result reader.new (spec.specs_at (less room) room reader.old) }
    ensures deep { IfOk result (λ x. x.depth ≤ room) }
{
    let specs = specs_by(alloc, reader, room, false)?;
    if specs.tree.has_typedef() {
        reader.set_typedef(true);
    }
    Ok(specs)
}

/// Specs without `static`, `extern` and `typedef`.
#[cycle(grammar)]
pub fn plain_specs(alloc: Global, reader: &mut Reader, room: usize) -> Result<DeepSpecs, ReadError>
    requires room { room < 401 }
    ensures value { ReadsSpecs result reader.new (spec.plain_specs_at (less room) room reader.old) }
    ensures deep { IfOk result (λ x. x.depth ≤ room) }
{
    specs_by(alloc, reader, room, true)
}

/// Specs, of which the plain ones have no `static`, `extern` and `typedef`.
#[cycle(grammar)]
#[tactic(auto, using(crate::proofs::Loops::specs_go_on, crate::proofs::Loops::specs_end, crate::proofs::Loops::specs_fail))]
fn specs_by(
    alloc: Global,
    reader: &mut Reader,
    room: usize,
    plain: bool,
) -> Result<DeepSpecs, ReadError>
    requires room { room < 401 }
    ensures value { ReadsSpecs result reader.new (all_specs room plain reader.old) }
    ensures deep { IfOk result (λ x. x.depth ≤ room) }
{
    let line = reader.line();
    let mut words = DeepWords::none(alloc);
    let mut tally = Tally::NONE;
    let mut turns = reader.left() + 1;
    'words: while turns > 0 {
        let start = spec_start(reader, tally);
        if is_end(start) {
            return ended_specs(plain, tally, line, words);
        }
        let (counted, more) = one_more(alloc, reader, room, start, tally, words)?;
        tally = counted;
        words = more;
        turns -= 1;
    }
    Err(ReadError::Syntax)
}

/// Says whether specs end.
fn is_end(start: SpecStart) -> bool
    ensures { result ≡ spec_is_end start }
{
    match start {
        SpecStart::End => true,
        _ => false,
    }
}

/// One word of specs more, and the tally with it.
#[cycle(grammar)]
fn one_more(
    alloc: Global,
    reader: &mut Reader,
    room: usize,
    start: SpecStart,
    tally: Tally,
    words: DeepWords,
) -> Result<(Tally, DeepWords), ReadError>
    requires room { room < 401 }
    requires start { start ≡ spec.spec_at (tally_of tally) reader.old }
    requires small { total tally + 1 < 2 ^ 64 }
    requires fits { words.depth ≤ room }
    ensures value { ReadsWords result reader.new (word_behind room tally words start reader.old) }
    ensures total { IfOk result (λ x. total x.0 ≤ total tally + 1) }
    ensures deep { IfOk result (λ x. x.1.depth ≤ room) }
{
    match start {
        SpecStart::Word => keyword_more(reader, room, tally, words),
        SpecStart::TypedefName => name_more(alloc, reader, room, tally, words),
        SpecStart::Record(sort) => {
            let tag = record(alloc, reader, room, sort)?;
            let words = words.with_tag(tag)?;
            Ok((with_whole(tally), words))
        }
        SpecStart::Enum => {
            let tag = enumeration(alloc, reader, room)?;
            let words = words.with_tag(tag)?;
            Ok((with_whole(tally), words))
        }
        SpecStart::End => Err(ReadError::Syntax),
    }
}

/// One keyword more.
fn keyword_more(
    reader: &mut Reader,
    room: usize,
    tally: Tally,
    words: DeepWords,
) -> Result<(Tally, DeepWords), ReadError>
    requires room { room < 401 }
    requires start { spec.spec_at (tally_of tally) reader.old ≡ starts.Word }
    requires small { total tally + 1 < 2 ^ 64 }
    requires fits { words.depth ≤ room }
    ensures value { ReadsWords result reader.new (keyword_behind room tally words reader.old) }
    ensures total { IfOk result (λ x. total x.0 ≤ total tally + 1) }
    ensures deep { IfOk result (λ x. x.1.depth ≤ room) }
{
    let (counted, words) = one_word(reader, tally, words)?;
    reader.skip();
    Ok((counted, words))
}

/// One typedef name more.
#[tactic(auto, using(crate::proofs::Loops::typedef_word))]
fn name_more(
    alloc: Global,
    reader: &mut Reader,
    room: usize,
    tally: Tally,
    words: DeepWords,
) -> Result<(Tally, DeepWords), ReadError>
    requires room { room < 401 }
    requires start { spec.spec_at (tally_of tally) reader.old ≡ starts.TypedefName }
    requires small { total tally + 1 < 2 ^ 64 }
    requires fits { words.depth ≤ room }
    ensures value { ReadsWords result reader.new (name_behind room tally words reader.old) }
    ensures total { IfOk result (λ x. total x.0 ≤ total tally + 1) }
    ensures deep { IfOk result (λ x. x.1.depth ≤ room) }
{
    let spelling = reader.spelling(alloc)?;
    reader.skip();
    let words = words.with_name(spelling)?;
    Ok((with_whole(tally), words))
}

/// The specs that were read, where they may stand.
#[tactic(auto, unfolding(c_tree::specs::Depth::below, c_tree::specs::Depth::layers, c_tree::specs::Depth::greatest_depth, c_tree::specs::Depth::is_of_declarator, c_tree::specs::Depth::weight, c_tree::specs::Grammar::form_home))]
fn ended_specs(
    plain: bool,
    tally: Tally,
    line: u32,
    words: DeepWords,
) -> Result<DeepSpecs, ReadError>
    requires { total tally < 2 ^ 64 }
    ensures value { Ended (λ x. specs_view x.tree) result (specs_of plain tally line words) }
    ensures depth { IfOk result (λ x. x.depth ≡ words.depth) }
{
    if !may_stand(plain, tally) {
        return Err(ReadError::Syntax);
    }
    let DeepWords { list, depth } = words;
    Ok(DeepSpecs {
        tree: Specs { line, words: list },
        depth,
    })
}

/// How the next token goes on specs with these words.
#[tactic(auto, unfolding(grammar_reading::specs::Declarators::spec_key))]
fn spec_start(reader: &Reader, tally: Tally) -> SpecStart
    ensures { result ≡ spec.spec_at (tally_of tally) reader.now }
{
    match reader.kind() {
        Kind::Key(keyword) => spec_key(keyword),
        Kind::Name => {
            if reader.is_type() && !has_type_word(tally) {
                SpecStart::TypedefName
            } else {
                SpecStart::End
            }
        }
        _ => SpecStart::End,
    }
}

/// How a keyword goes on specs.
#[tactic(auto, unfolding(grammar_reading::specs::Declarators::spec_key))]
fn spec_key(keyword: Keyword) -> SpecStart
    ensures { result ≡ spec.spec_key keyword }
{
    match keyword {
        Keyword::Void
        | Keyword::Char
        | Keyword::Short
        | Keyword::Int
        | Keyword::Long
        | Keyword::Signed
        | Keyword::Unsigned
        | Keyword::Static
        | Keyword::Extern
        | Keyword::Typedef
        | Keyword::Const => SpecStart::Word,
        Keyword::Struct => SpecStart::Record(RecordSort::Struct),
        Keyword::Union => SpecStart::Record(RecordSort::Union),
        Keyword::Enum => SpecStart::Enum,
        _ => SpecStart::End,
    }
}

/// With the keyword that stands here.
fn one_word(reader: &Reader, tally: Tally, words: DeepWords) -> Result<(Tally, DeepWords), NoMemory>
    requires start { spec.spec_at (tally_of tally) reader.now ≡ starts.Word }
    requires small { total tally + 1 < 2 ^ 64 }
    ensures tally { IfOk result (λ x. tally_of x.0 ≡ with_key (kind_at reader.now) (tally_of tally)) }
    ensures total { IfOk result (λ x. total x.0 ≤ total tally + 1) }
    ensures list { AddsWord result words (Leaf (word_at reader.now)) }
    ensures depth { IfOk result (λ x. x.1.depth ≡ words.depth) }
{
    match reader.kind() {
        Kind::Key(keyword) => {
            let words = words.with_keyword(keyword)?;
            Ok((with_keyword(tally, keyword), words))
        }
        _ => unreachable!(),
    }
}
