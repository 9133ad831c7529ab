//! Roads with a layout, for searches for all nodes.
ghost use Rattle.std.specs.Prelude.{◌≡◌, IfErr, IfOk, IfSome, MatchOption, Some};
ghost use Rattle.std.specs.Arc.{arc_value};
ghost use Rattle.ea_capi.specs.Prepared.{IsLaidOut, IsLaidOutOf, IsRoadLaidOut, IsRoadOn, IsUnlaid};
ghost use Rattle.ea_capi.specs.Shared.{IsLaidFor};
ghost use Rattle.ea_capi.specs.States.{road_in};

use crate::fault_numbers::{DONE, NO_ROAD, NOT_WORTH, OUT_OF_MEMORY};
use crate::handle::content::Content;
use crate::handle::handle::Handle;
use crate::handle::share::Share;
use crate::handle::terrain::Terrain;
use ea_layout::Layout;
use std::alloc::{AllocError, Global};
use std::sync::Arc;

/// A road with a layout of it, in a new box.
pub fn boxed(
    alloc: Global,
    terrain: &Arc<Terrain, Global>,
    layout: Layout,
) -> Result<Box<Content, Global>, AllocError>
    requires { IsLaidFor (arc_value terrain.now).road layout }
    ensures { IfOk result (λ it. IsRoadOn (arc_value terrain.now).road layout (Some it.value)) }
{
    let terrain = Arc::try_clone(terrain)?;
    let layout = Arc::new(alloc, layout)?;
    Ok(Box::new(alloc, Content::Road(Share::with(terrain, layout)))?)
}

/// A layout of a road; none if it isn't likely to pay.
fn layout_of(alloc: Global, terrain: &Terrain) -> Result<Option<Layout>, AllocError>
    ensures { IfOk result (λ found. IfSome found (IsLaidFor terrain.now.road)) }
{
    match Layout::of(alloc, &terrain.road.network)? {
        Some(layout) => Ok(Some(layout)),
        None => Ok(None),
    }
}

/// A road with a layout, in a new box; none if it isn't likely to pay.
fn laid_out_road(
    alloc: Global,
    terrain: &Arc<Terrain, Global>,
) -> Result<Option<Box<Content, Global>>, AllocError>
    ensures { IfOk result (λ found. IfSome found (λ it.
        IsRoadLaidOut (arc_value terrain.now).road (Some it.value))) }
{
    match layout_of(alloc, terrain)? {
        Some(layout) => Ok(Some(boxed(alloc, terrain, layout)?)),
        None => Ok(None),
    }
}

/// The road of a content with a layout, or the refusal's number.
fn laid_out_of(alloc: Global, content: &Content) -> Result<Box<Content, Global>, u32>
    ensures made { IfOk result (λ it. IsLaidOutOf (road_in (Some content.now)) it.value) }
    ensures refused { IfErr result (λ number.
        MatchOption (road_in (Some content.now)) (number ≡ 16) (λ _. IsUnlaid number)) }
{
    match content {
        Content::Road(share) => match laid_out_road(alloc, share.terrain()) {
            Ok(Some(found)) => Ok(found),
            Ok(None) => Err(NOT_WORTH),
            Err(_) => Err(OUT_OF_MEMORY),
        },
        _ => Err(NO_ROAD),
    }
}

/// Lays a road out: its network once more, under numbers of the nodes by which neighbours are near. The searches for all nodes on it take less
/// time if most arcs lead far away in the road's own numbers, and find the same arrivals and walks. Takes as long as some of them.
///
/// The handle `laid` holds the same road afterwards, with its layout and without a preparation; its earlier content is freed. Returns 26 if
/// a layout isn't likely to pay. If the call doesn't return 0, the handle is unchanged.
#[unsafe(no_mangle)]
pub extern "C" fn earliest_road_laid_out(alloc: Global, road: &mut Handle, laid: &mut Handle) -> u32
    ensures same { road.new.value ≡ road.old.value }
    ensures made { IsLaidOut (road_in road.old.value) laid.old.value laid.new.value result }
{
    let Some(content) = road.take(alloc) else {
        return NO_ROAD;
    };
    let made = laid_out_of(alloc, &content);
    road.put(content);
    match made {
        Ok(found) => {
            laid.put(found);
            DONE
        }
        Err(number) => number,
    }
}
