//! Roads: made from texts, counted, freed.
ghost use Rattle.std.specs.Prelude.{◌≡◌, ◌≤◌, ℕ, length, None, MatchOption, IfOk, Some};
ghost use Rattle.ea_road.specs.Roads.{top_class};
ghost use Rattle.ea_capi.specs.Roads.{IsKept, IsRead};
ghost use Rattle.ea_capi.specs.States.{road_in};

use crate::fault_numbers::{DONE, Fault, OUT_OF_MEMORY, tell};
use crate::handle::content::Content;
use crate::handle::handle::Handle;
use crate::handle::share::Share;
use crate::handle::terrain::Terrain;
use ea_load::{Road, road_of_texts};
use std::alloc::{AllocError, Global};
use std::sync::Arc;

/// Puts a road into a new box.
fn boxed(alloc: Global, road: Road) -> Result<Box<Content, Global>, AllocError>
    requires { top_class road.network.arcs ≤ length road.times.tables.list.items }
    ensures { IfOk result (λ it. road_in (Some it.value) ≡ Some road) }
{
    let terrain = Arc::new(alloc, Terrain { road })?;
    Ok(Box::new(alloc, Content::Road(Share::of(terrain)))?)
}

/// Puts a road into a handle.
pub(crate) fn keep(alloc: Global, road: Road, handle: &mut Handle) -> u32
    requires { top_class road.network.arcs ≤ length road.times.tables.list.items }
    ensures { IsKept road handle.old.value handle.new.value result }
{
    match boxed(alloc, road) {
        Ok(content) => {
            handle.put(content);
            DONE
        }
        Err(_) => OUT_OF_MEMORY,
    }
}

/// Makes the road of a network's text and of its timetables' text; an empty text has no timetables.
///
/// The handle holds the road afterwards; its earlier content is freed. If the texts have a fault, or memory
/// is refused, the handle is unchanged, the fault's number is returned, and `fault` gets its text and line.
#[unsafe(no_mangle)]
pub extern "C" fn earliest_road_read(
    alloc: Global,
    gr: &[u8],
    tp: &[u8],
    road: &mut Handle,
    fault: &mut Fault,
) -> u32
    ensures { IsRead gr.now tp.now road.old.value road.new.value fault.new result }
{
    match road_of_texts(alloc, gr, tp) {
        Ok(found) => {
            let number = keep(alloc, found, road);
            *fault = Fault {
                line: 0,
                number,
                text: 0,
            };
            number
        }
        Err(found) => {
            *fault = tell(found);
            fault.number
        }
    }
}

/// The number of nodes of a content's road.
fn nodes_of(content: &Content) -> u32
    ensures { MatchOption (road_in (Some content.now)) (result ≡ 0)
        (λ road. result ≡ road.network.nodes) }
{
    match content {
        Content::Road(share) => share.road().network.nodes(),
        _ => 0,
    }
}

/// The number of arcs of a content's road.
fn arcs_of(content: &Content) -> u32
    ensures { MatchOption (road_in (Some content.now)) (result ≡ 0)
        (λ road. result ≡ length road.network.arcs) }
{
    match content {
        Content::Road(share) => share.road().network.arcs().len() as u32,
        _ => 0,
    }
}

/// The number of a road's nodes; 0 if the handle holds no road.
#[unsafe(no_mangle)]
pub extern "C" fn earliest_road_nodes(alloc: Global, road: &mut Handle) -> u32
    ensures same { road.new.value ≡ road.old.value }
    ensures nodes { MatchOption (road_in road.old.value) (result ≡ 0)
        (λ it. result ≡ it.network.nodes) }
{
    let Some(content) = road.take(alloc) else {
        return 0;
    };
    let nodes = nodes_of(&content);
    road.put(content);
    nodes
}

/// The number of a road's arcs; 0 if the handle holds no road.
#[unsafe(no_mangle)]
pub extern "C" fn earliest_road_arcs(alloc: Global, road: &mut Handle) -> u32
    ensures same { road.new.value ≡ road.old.value }
    ensures arcs { MatchOption (road_in road.old.value) (result ≡ 0)
        (λ it. result ≡ length it.network.arcs) }
{
    let Some(content) = road.take(alloc) else {
        return 0;
    };
    let arcs = arcs_of(&content);
    road.put(content);
    arcs
}

/// Frees the handle's share of a road and empties the handle. The road stays while searches on it do.
#[unsafe(no_mangle)]
pub extern "C" fn earliest_road_free(alloc: Global, road: &mut Handle)
    ensures { road.new.value ≡ None }
{
    let _ = road.take(alloc);
}
