// The words in a set of a solution, in their order.
#![tactic(auto)]

ghost use Rattle.std.specs.Prelude.{◌≡◌, ◌++◌, [], ◌∷◌, cond, map, OnOk, IfOk};
ghost use Rattle.points_to.specs.Found.{found};
ghost use Rattle.flow_listing.specs.Text.{ordered_words};

use flow_system::fact::{Element, Part, Place};
use grin_syntax::program::{Site, TagId};
use points_to::Flow;
use seq::Seq;
use std::alloc::{AllocError, Global};

/// The words in a part of a place: cells by their sites, then tags, then a number.
pub fn words(
    alloc: Global,
    flow: &Flow,
    place: Place,
    part: Part,
) -> Result<Seq<Element>, AllocError>
    ensures { IfOk result (λ us. us ≡ ordered_words (found flow.now place part)) }
{
    let cells = flow.sites_in(alloc, place, part)?;
    let nodes = flow.tags_in(alloc, place, part)?;
    let number = flow.number_in(alloc, place, part)?;
    let mut out = Seq::new(alloc);
    let sites = cells.as_slice();
    add_cells(&mut out, sites)?;
    let tags = nodes.as_slice();
    add_tags(&mut out, tags)?;
    add_number(&mut out, number)?;
    Ok(out)
}

fn add_cells(out: &mut Seq<Element>, sites: &[Site]) -> Result<(), AllocError>
    ensures { OnOk result (out.new ≡ out.old ++ map (λ s. Element.Cell s.0) sites.now) }
{
    for site in sites {
        out.push(Element::Cell(site.0))?;
    }
    Ok(())
}

fn add_tags(out: &mut Seq<Element>, tags: &[TagId]) -> Result<(), AllocError>
    ensures { OnOk result (out.new ≡ out.old ++ map (λ t. Element.Tag t.0) tags.now) }
{
    for tag in tags {
        out.push(Element::Tag(tag.0))?;
    }
    Ok(())
}

fn add_number(out: &mut Seq<Element>, number: bool) -> Result<(), AllocError>
    ensures { OnOk result (out.new ≡ out.old ++ cond number (Element.Number ∷ []) []) }
{
    if number {
        return out.push(Element::Number);
    }
    Ok(())
}
