// The text of a solution.
#![tactic(auto)]

ghost use Rattle.std.specs.Prelude.{◌≡◌, ◌++◌, codes, slice_get, OnOk, IfOk};
ghost use Rattle.std.specs.List.{flat_map};
ghost use Rattle.std.specs.Ordering.{nat_cmp};
ghost use Rattle.std.specs.BTreeMap as tree;
ghost use Rattle.seq.specs.Lists.{numbers_from};
ghost use Rattle.grin_syntax.specs.Tree.{program_of, procedure_of};
ghost use Rattle.grin_syntax.specs.Listing.{spaced, joined, tag_name, procedure_name};
ghost use Rattle.points_to.specs.Found.{found};
ghost use Rattle.flow_listing.specs.Ascending.{flat_map_indexed};
ghost use Rattle.flow_listing.specs.Text.{variable_text, field_count, cell_text, word_text, field_text, node_text, place_text, global_line, bound_text, binder_line, procedure_text, points};

use crate::binder::{Binder, binders};
use crate::names::{CellName, Names, names};
use crate::words::words;
use flow_system::fact::{Element, Part, Place};
use grin_syntax::listing_text::ListingText;
use grin_syntax::program::{GlobalCell, Grin, Proc, Site, TagId, TagKind, VarId};
use points_to::Flow;
use std::alloc::{AllocError, Global};

/// What is known of a program, as a text: a line for each global cell, then for each procedure a
/// line for what it may give and one for each variable that it binds. Time is linear in the program
/// and the text, but for the ordered table of the sites and for what the solution's readers take.
/// Running out of numbers for variables or procedures counts as want of memory.
pub fn listing_text(alloc: Global, g: &Grin, flow: &Flow) -> Result<Vec<u8>, AllocError>
    ensures { IfOk result (λ text. text.items ≡ points (program_of g.now) (found flow.now)) }
{
    let names = names(alloc, g)?;
    let mut text = ListingText::new(alloc);
    put_globals(alloc, &mut text, g, flow, &names)?;
    put_procs(alloc, &mut text, g, flow, &names)?;
    Ok(text.into_vec())
}

fn put_variable(text: &mut ListingText, at: u32) -> Result<(), AllocError>
    ensures { OnOk result (text.new ≡ text.old ++ variable_text at) }
{
    text.put("v")?;
    text.number(at as usize)
}

// The letter of a tag's kind and the tag's name.
fn put_tag(text: &mut ListingText, g: &Grin, tag: TagId) -> Result<(), AllocError>
    ensures { OnOk result (text.new ≡ text.old ++ tag_name (program_of g.now) tag) }
{
    match g.tags.get(tag.0 as usize) {
        Some(tag) => {
            match tag.kind {
                TagKind::Con => text.put("C")?,
                TagKind::Fun => text.put("F")?,
                TagKind::Part => {
                    text.put("P")?;
                    text.number(tag.missing as usize)?;
                }
            }
            text.bytes(tag.name.as_slice())
        }
        None => Ok(()),
    }
}

fn put_procedure_name(text: &mut ListingText, g: &Grin, proc: u32) -> Result<(), AllocError>
    ensures { OnOk result (text.new ≡ text.old
        ++ procedure_name (slice_get (program_of g.now).procs proc)) }
{
    match g.procs.get(proc as usize) {
        Some(proc) => text.bytes(proc.name.as_slice()),
        None => Ok(()),
    }
}

fn put_cell_name(text: &mut ListingText, g: &Grin, name: Option<CellName>) -> Result<(), AllocError>
    ensures { OnOk result (text.new ≡ text.old ++ cell_text (program_of g.now) name) }
{
    match name {
        Some(CellName::Global(at)) => match g.globals.get(at as usize) {
            Some(cell) => text.bytes(cell.name.as_slice()),
            None => Ok(()),
        },
        Some(CellName::Local(proc, at)) => {
            put_procedure_name(text, g, proc)?;
            text.put(".")?;
            put_variable(text, at)
        }
        None => Ok(()),
    }
}

fn put_word(
    text: &mut ListingText,
    g: &Grin,
    names: &Names,
    word: Element,
) -> Result<(), AllocError>
    ensures { OnOk result (text.new ≡ text.old
        ++ word_text (program_of g.now) (tree.get nat_cmp names.now) word) }
{
    match word {
        Element::Cell(site) => {
            text.put("&")?;
            put_cell_name(text, g, names.get(&site).copied())
        }
        Element::Tag(tag) => {
            text.put("#")?;
            put_tag(text, g, TagId(tag))
        }
        Element::Number => text.put("number"),
    }
}

// Each word after a space.
fn put_words(
    text: &mut ListingText,
    g: &Grin,
    names: &Names,
    words: &[Element],
) -> Result<(), AllocError>
    ensures { OnOk result (text.new ≡ text.old
        ++ spaced (word_text (program_of g.now) (tree.get nat_cmp names.now)) words.now) }
{
    for word in words {
        text.put(" ")?;
        put_word(text, g, names, *word)?;
    }
    Ok(())
}

// The words with a space between them.
fn put_joined(
    text: &mut ListingText,
    g: &Grin,
    names: &Names,
    words: &[Element],
) -> Result<(), AllocError>
    ensures { OnOk result (text.new ≡ text.old
        ++ joined (word_text (program_of g.now) (tree.get nat_cmp names.now)) words.now) }
{
    match words {
        [] => Ok(()),
        [first, rest @ ..] => {
            put_word(text, g, names, *first)?;
            put_words(text, g, names, rest)
        }
    }
}

// What may stand in a field at a place; the field is a tag's number, and its own.
fn put_field(
    alloc: Global,
    text: &mut ListingText,
    g: &Grin,
    flow: &Flow,
    names: &Names,
    place: Place,
    field: (u32, u32),
) -> Result<(), AllocError>
    ensures { OnOk result (text.new ≡ text.old
        ++ field_text (program_of g.now) (tree.get nat_cmp names.now) (found flow.now) place
        field.0 field.1) }
{
    let words = words(alloc, flow, place, Part::Field(field.0, field.1))?;
    text.put("{")?;
    put_joined(text, g, names, words.as_slice())?;
    text.put("}")
}

fn count_fields(g: &Grin, tag: u32) -> u32
    ensures { result ≡ field_count (slice_get (program_of g.now).tags tag) }
{
    match g.tags.get(tag as usize) {
        Some(tag) => tag.fields,
        None => 0,
    }
}

fn put_fields(
    alloc: Global,
    text: &mut ListingText,
    g: &Grin,
    flow: &Flow,
    names: &Names,
    place: Place,
    tag: u32,
) -> Result<(), AllocError>
    ensures { OnOk result (text.new ≡ text.old
        ++ spaced (field_text (program_of g.now) (tree.get nat_cmp names.now) (found flow.now) place
        tag) (numbers_from 0 (field_count (slice_get (program_of g.now).tags tag)))) }
{
    let count = count_fields(g, tag);
    for field in 0..count {
        text.put(" ")?;
        put_field(alloc, text, g, flow, names, place, (tag, field))?;
    }
    Ok(())
}

// The nodes of a tag at a place.
fn put_node(
    alloc: Global,
    text: &mut ListingText,
    g: &Grin,
    flow: &Flow,
    names: &Names,
    place: Place,
    tag: TagId,
) -> Result<(), AllocError>
    ensures { OnOk result (text.new ≡ text.old
        ++ node_text (program_of g.now) (tree.get nat_cmp names.now) (found flow.now) place tag.0) }
{
    text.put("(")?;
    put_tag(text, g, tag)?;
    put_fields(alloc, text, g, flow, names, place, tag.0)?;
    text.put(")")
}

fn put_nodes(
    alloc: Global,
    text: &mut ListingText,
    g: &Grin,
    flow: &Flow,
    names: &Names,
    place: Place,
    tags: &[TagId],
) -> Result<(), AllocError>
    ensures { OnOk result (text.new ≡ text.old
        ++ spaced (λ t. node_text (program_of g.now) (tree.get nat_cmp names.now) (found flow.now)
        place t.0) tags.now) }
{
    for tag in tags {
        text.put(" ")?;
        put_node(alloc, text, g, flow, names, place, *tag)?;
    }
    Ok(())
}

// What may be at a place.
fn put_place(
    alloc: Global,
    text: &mut ListingText,
    g: &Grin,
    flow: &Flow,
    names: &Names,
    place: Place,
) -> Result<(), AllocError>
    ensures { OnOk result (text.new ≡ text.old
        ++ place_text (program_of g.now) (tree.get nat_cmp names.now) (found flow.now) place) }
{
    let nodes = flow.tags_in(alloc, place, Part::Tags)?;
    let alone = words(alloc, flow, place, Part::Word(0))?;
    let tags = nodes.as_slice();
    put_nodes(alloc, text, g, flow, names, place, tags)?;
    let words = alone.as_slice();
    put_words(text, g, names, words)?;
    text.put("\n")?;
    Ok(())
}

fn put_global(
    alloc: Global,
    text: &mut ListingText,
    g: &Grin,
    flow: &Flow,
    names: &Names,
    cell: &GlobalCell,
) -> Result<(), AllocError>
    ensures { OnOk result (text.new ≡ text.old
        ++ global_line (program_of g.now) (tree.get nat_cmp names.now) (found flow.now)
        cell.now) }
{
    text.put("global ")?;
    text.bytes(cell.name.as_slice())?;
    text.put(" =")?;
    put_place(alloc, text, g, flow, names, Place::Site(cell.site.0))
}

fn put_globals(
    alloc: Global,
    text: &mut ListingText,
    g: &Grin,
    flow: &Flow,
    names: &Names,
) -> Result<(), AllocError>
    ensures { OnOk result (text.new ≡ text.old
        ++ flat_map (global_line (program_of g.now) (tree.get nat_cmp names.now) (found flow.now))
        g.now.globals) }
{
    for cell in g.globals.as_slice() {
        put_global(alloc, text, g, flow, names, cell)?;
    }
    Ok(())
}

// What a variable may stand for, or the new cells that it stands for may hold.
fn put_bound(
    alloc: Global,
    text: &mut ListingText,
    g: &Grin,
    flow: &Flow,
    names: &Names,
    binder: Binder,
) -> Result<(), AllocError>
    ensures { OnOk result (text.new ≡ text.old
        ++ bound_text (program_of g.now) (tree.get nat_cmp names.now) (found flow.now)
        binder.var binder.site) }
{
    match binder.site {
        None => {
            text.put(":")?;
            put_place(alloc, text, g, flow, names, Place::Var(binder.var.0))
        }
        Some(site) => {
            text.put(" =")?;
            put_place(alloc, text, g, flow, names, Place::Site(site.0))
        }
    }
}

fn put_binder(
    alloc: Global,
    text: &mut ListingText,
    g: &Grin,
    flow: &Flow,
    names: &Names,
    at: u32,
    binder: Binder,
) -> Result<(), AllocError>
    ensures { OnOk result (text.new ≡ text.old
        ++ binder_line (program_of g.now) (tree.get nat_cmp names.now) (found flow.now) at
        binder) }
{
    text.put("  ")?;
    put_variable(text, at)?;
    put_bound(alloc, text, g, flow, names, binder)
}

fn put_binders(
    alloc: Global,
    text: &mut ListingText,
    g: &Grin,
    flow: &Flow,
    names: &Names,
    binders: &[Binder],
) -> Result<(), AllocError>
    ensures { OnOk result (text.new ≡ text.old
        ++ flat_map_indexed (binder_line (program_of g.now) (tree.get nat_cmp names.now)
        (found flow.now)) 0 binders.now) }
{
    let mut at: u32 = 0;
    for binder in binders {
        put_binder(alloc, text, g, flow, names, at, *binder)?;
        at = at.checked_add(1).ok_or(AllocError)?;
    }
    Ok(())
}

fn put_proc(
    alloc: Global,
    text: &mut ListingText,
    g: &Grin,
    flow: &Flow,
    names: &Names,
    at: u32,
    proc: &Proc,
) -> Result<(), AllocError>
    ensures { OnOk result (text.new ≡ text.old
        ++ procedure_text (program_of g.now) (tree.get nat_cmp names.now) (found flow.now) at
        (procedure_of proc.now)) }
{
    let binders = binders(alloc, proc)?;
    text.put("\n")?;
    text.bytes(proc.name.as_slice())?;
    text.put(":")?;
    put_place(alloc, text, g, flow, names, Place::Result(at))?;
    put_binders(alloc, text, g, flow, names, binders.as_slice())
}

fn put_procs(
    alloc: Global,
    text: &mut ListingText,
    g: &Grin,
    flow: &Flow,
    names: &Names,
) -> Result<(), AllocError>
    ensures { OnOk result (text.new ≡ text.old
        ++ flat_map_indexed (λ f q. procedure_text (program_of g.now) (tree.get nat_cmp names.now)
        (found flow.now) f (procedure_of q)) 0 g.now.procs) }
{
    let mut at: u32 = 0;
    for proc in g.procs.as_slice() {
        put_proc(alloc, text, g, flow, names, at, proc)?;
        at = at.checked_add(1).ok_or(AllocError)?;
    }
    Ok(())
}
