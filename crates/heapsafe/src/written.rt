//! Answers that are texts: the canonical spelling, the layouts of structs and unions, the functions of the core, the live
//! registers, and the code file.

ghost use Rattle.std.specs.Prelude.{[], Ok, IfOk};
ghost use Rattle.c_tree.specs.StatementView.{unit_view};
ghost use Rattle.c_elab.specs.Core.{core_in};
ghost use Rattle.core_soundness.specs.Texts.{IsOfTexts};
ghost use Rattle.core_tree.specs.Sound.{IsSound};
ghost use Rattle.heapsafe.specs.Execution.{IsCompiledTo};
ghost use Rattle.core_tree.specs.Listing.{listing};
ghost use Rattle.elaboration.specs.Elaboration.{tags_of};
ghost use Rattle.layout_list.specs.Listing.{layout_listing};
ghost use Rattle.live_list.specs.Listing.{live_listing};
ghost use Rattle.heapsafe.specs.Serving.{Compiles, Writes};
ghost use Rattle.heapsafe.specs.Shown.{core_shown, layouts_shown, live_shown, printed, written};
ghost use Rattle.heapsafe.specs.Sight.{HasRoom};

use crate::refusal::{Refusal, refuse, refuse_types};
use crate::streams::Streams;
use c_elab::{elab, tags};
use c_pre::Opened;
use c_tree::{Unit, write_unit};
use c_types::Tags;
use code_file::write_code;
use compiled_file::compile_file;
use core_tree::{Core, list};
use hs_base::{Items, NoMemory, Sink, Source, put_all};
use layout_list::list_layouts;
use live_list::list_live;
use std::alloc::Global;

/// Writes a text to the output.
fn write_text<I: Source, O: Sink, E: Sink>(text: &[u8], io: &mut Streams<I, O, E>) -> u8
    requires { HasRoom io.old }
    ensures { Writes (written text.now) io.old io.new result }
{
    match put_all(&mut io.out, text) {
        Ok(()) => 0,
        Err(_) => refuse(io, Refusal::OutputFault),
    }
}

/// Writes the canonical spelling of a text.
pub(crate) fn print<I: Source, O: Sink, E: Sink>(
    alloc: Global,
    unit: &Unit,
    io: &mut Streams<I, O, E>,
) -> u8
    requires { HasRoom io.old }
    ensures { Writes (printed (unit_view unit.now)) io.old io.new result }
{
    match write_unit(alloc, unit) {
        Ok(text) => write_text(text.as_slice(), io),
        Err(_) => refuse(io, Refusal::NoMemory),
    }
}

/// Writes the lines of completed structs and unions.
fn write_layouts<I: Source, O: Sink, E: Sink>(
    alloc: Global,
    tags: &Tags,
    io: &mut Streams<I, O, E>,
) -> u8
    requires { HasRoom io.old }
    ensures { Writes (written (layout_listing tags.now)) io.old io.new result }
{
    match list_layouts(alloc, tags) {
        Ok(text) => write_text(text.as_slice(), io),
        Err(_) => refuse(io, Refusal::NoMemory),
    }
}

/// Writes the layouts of a text's structs and unions.
pub(crate) fn layouts<I: Source, O: Sink, E: Sink>(
    alloc: Global,
    opened: &[Opened],
    unit: &Unit,
    io: &mut Streams<I, O, E>,
) -> u8
    requires { HasRoom io.old }
    ensures { Writes (layouts_shown opened.now (tags_of (unit_view unit.now))) io.old io.new result }
{
    match tags(alloc, unit) {
        Ok(tags) => write_layouts(alloc, &tags, io),
        Err(error) => refuse_types(io, error, opened),
    }
}

/// Writes the functions of a core.
fn write_core<I: Source, O: Sink, E: Sink>(
    alloc: Global,
    core: &Core,
    io: &mut Streams<I, O, E>,
) -> u8
    requires { HasRoom io.old }
    ensures { Writes (written (listing core.now)) io.old io.new result }
{
    match list(alloc, core) {
        Ok(text) => write_text(text.as_slice(), io),
        Err(_) => refuse(io, Refusal::NoMemory),
    }
}

/// Writes the functions of a text's core.
pub(crate) fn core_list<I: Source, O: Sink, E: Sink>(
    alloc: Global,
    opened: &[Opened],
    unit: &Unit,
    io: &mut Streams<I, O, E>,
) -> u8
    requires { HasRoom io.old }
    ensures { Writes (core_shown opened.now (core_in (unit_view unit.now))) io.old io.new result }
{
    match elab(alloc, unit) {
        Ok(core) => write_core(alloc, &core, io),
        Err(error) => refuse_types(io, error, opened),
    }
}

/// The bytes of a core's code file.
fn code_bytes(alloc: Global, core: &Core) -> Result<Items<u8>, NoMemory>
    requires { IsSound core.now }
    ensures { IfOk result (IsCompiledTo core.now) }
{
    let file = compile_file(alloc, core)?;
    write_code(alloc, &file)
}

/// Writes the code file of a core.
fn write_compiled<I: Source, O: Sink, E: Sink>(
    alloc: Global,
    core: &Core,
    io: &mut Streams<I, O, E>,
) -> u8
    requires sound { IsSound core.now }
    requires room { HasRoom io.old }
    ensures { Compiles [] (Ok core.now) io.old io.new result }
{
    match code_bytes(alloc, core) {
        Ok(bytes) => write_text(bytes.as_slice(), io),
        Err(_) => refuse(io, Refusal::NoMemory),
    }
}

/// Writes the code file of a text's core.
pub(crate) fn core_compiled<I: Source, O: Sink, E: Sink>(
    alloc: Global,
    opened: &[Opened],
    unit: &Unit,
    io: &mut Streams<I, O, E>,
) -> u8
    requires text { IsOfTexts (unit_view unit.now) }
    requires room { HasRoom io.old }
    ensures { Compiles opened.now (core_in (unit_view unit.now)) io.old io.new result }
{
    match elab(alloc, unit) {
        Ok(core) => write_compiled(alloc, &core, io),
        Err(error) => refuse_types(io, error, opened),
    }
}

/// Writes the registers that are live after each point of a core.
fn write_live<I: Source, O: Sink, E: Sink>(
    alloc: Global,
    core: &Core,
    io: &mut Streams<I, O, E>,
) -> u8
    requires { HasRoom io.old }
    ensures { Writes (written (live_listing core.now)) io.old io.new result }
{
    match list_live(alloc, core) {
        Ok(text) => write_text(text.as_slice(), io),
        Err(_) => refuse(io, Refusal::NoMemory),
    }
}

/// Writes the registers that are live after each point of a text's core.
pub(crate) fn core_live<I: Source, O: Sink, E: Sink>(
    alloc: Global,
    opened: &[Opened],
    unit: &Unit,
    io: &mut Streams<I, O, E>,
) -> u8
    requires { HasRoom io.old }
    ensures { Writes (live_shown opened.now (core_in (unit_view unit.now))) io.old io.new result }
{
    match elab(alloc, unit) {
        Ok(core) => write_live(alloc, &core, io),
        Err(error) => refuse_types(io, error, opened),
    }
}
