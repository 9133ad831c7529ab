//! Roads with a preparation for searches of pairs.
ghost use Rattle.std.specs.Prelude.{◌≡◌, ◌≢◌, IfErr, IfOk, IsTrue, MatchOption, Some, is_some};
ghost use Rattle.std.specs.Arc.{arc_value};
ghost use Rattle.ea_hierarchy.specs.Orders.{IsOrder};
ghost use Rattle.ea_hierarchy.specs.declared.unprepared.Unprepared.TheVariants.{NoOrder};
ghost use Rattle.ea_capi.specs.Prepared.{IsOrderOf, IsPrepared, IsPreparedOf, IsRoadPrepared, IsUnprepared, unprepared_number};
ghost use Rattle.ea_capi.specs.Shared.{IsLaidFor};
ghost use Rattle.ea_capi.specs.States.{road_in};

use crate::fault_numbers::{DONE, NO_ORDER, NO_ROAD, NOT_WORTH, OUT_OF_MEMORY};
use crate::handle::content::Content;
use crate::handle::handle::Handle;
use crate::handle::terrain::Terrain;
use crate::road::laid_out::boxed;
use ea_hierarchy::Unprepared;
use ea_layout::Layout;
use std::alloc::{AllocError, Global};
use std::sync::Arc;

/// The number of why a road isn't prepared.
fn number_of(why: Unprepared) -> u32
    ensures { result ≡ unprepared_number why }
{
    match why {
        Unprepared::NotWorth => NOT_WORTH,
        Unprepared::NoOrder => NO_ORDER,
        Unprepared::OutOfMemory => OUT_OF_MEMORY,
    }
}

/// A prepared layout of a road.
fn layout_of(alloc: Global, terrain: &Terrain) -> Result<Layout, Unprepared>
    ensures laid { IfOk result (IsLaidFor terrain.now.road) }
    ensures is_there { IfOk result (λ layout. IsTrue (is_some layout.prepared)) }
    ensures refused { IfErr result (λ why. why ≡ NoOrder → ⊥) }
{
    Layout::prepare(alloc, &terrain.road.network, &terrain.road.times)
}

/// A prepared layout of a road over an order of its nodes.
fn layout_by(alloc: Global, terrain: &Terrain, order: &[u32]) -> Result<Layout, Unprepared>
    ensures laid { IfOk result (IsLaidFor terrain.now.road) }
    ensures is_there { IfOk result (λ layout. IsTrue (is_some layout.prepared)) }
    ensures order { IfOk result (λ layout. IsOrder terrain.now.road.network.nodes order.now) }
    ensures refused { IfErr result (λ why. why ≡ NoOrder
        → IsOrder terrain.now.road.network.nodes order.now → ⊥) }
{
    Layout::prepare_by(alloc, &terrain.road.network, &terrain.road.times, order)
}

/// A road with a preparation, in a new box.
fn prepared_road(
    alloc: Global,
    terrain: &Arc<Terrain, Global>,
) -> Result<Box<Content, Global>, Unprepared>
    ensures made { IfOk result (λ it. IsRoadPrepared (arc_value terrain.now).road (Some it.value)) }
    ensures refused { IfErr result (λ why. why ≡ NoOrder → ⊥) }
{
    let layout = layout_of(alloc, terrain)?;
    Ok(boxed(alloc, terrain, layout)?)
}

/// A road with a preparation over an order of its nodes, in a new box.
fn road_by_order(
    alloc: Global,
    terrain: &Arc<Terrain, Global>,
    order: &[u32],
) -> Result<Box<Content, Global>, Unprepared>
    ensures made { IfOk result (λ it. IsRoadPrepared (arc_value terrain.now).road (Some it.value)) }
    ensures order { IfOk result (λ it. IsOrder (arc_value terrain.now).road.network.nodes order.now) }
    ensures refused { IfErr result (λ why. why ≡ NoOrder
        → IsOrder (arc_value terrain.now).road.network.nodes order.now → ⊥) }
{
    let layout = layout_by(alloc, terrain, order)?;
    Ok(boxed(alloc, terrain, layout)?)
}

/// A prepared layout of a road like another one.
fn layout_like(alloc: Global, terrain: &Terrain, like: &Layout) -> Result<Layout, Unprepared>
    ensures laid { IfOk result (IsLaidFor terrain.now.road) }
    ensures is_there { IfOk result (λ layout. IsTrue (is_some layout.prepared)) }
{
    Layout::prepare_like(alloc, &terrain.road.network, &terrain.road.times, like)
}

/// A road with a preparation like that of a layout, in a new box.
fn road_like(
    alloc: Global,
    terrain: &Arc<Terrain, Global>,
    like: &Layout,
) -> Result<Box<Content, Global>, Unprepared>
    ensures made { IfOk result (λ it. IsRoadPrepared (arc_value terrain.now).road (Some it.value)) }
{
    let layout = layout_like(alloc, terrain, like)?;
    Ok(boxed(alloc, terrain, layout)?)
}

/// The road of a content with a preparation, or the refusal's number.
fn prepared_of(alloc: Global, content: &Content) -> Result<Box<Content, Global>, u32>
    ensures made { IfOk result (λ it. IsPreparedOf (road_in (Some content.now)) it.value) }
    ensures refused { IfErr result (λ number.
        MatchOption (road_in (Some content.now)) (number ≡ 16) (λ _. IsUnprepared number)) }
    ensures no_order { IfErr result (λ number. number ≢ 27) }
{
    match content {
        Content::Road(share) => match prepared_road(alloc, share.terrain()) {
            Ok(found) => Ok(found),
            Err(why) => Err(number_of(why)),
        },
        _ => Err(NO_ROAD),
    }
}

/// The road of a content with a preparation over an order, or the refusal's number.
fn prepared_by(alloc: Global, content: &Content, order: &[u32]) -> Result<Box<Content, Global>, u32>
    ensures made { IfOk result (λ it. IsPreparedOf (road_in (Some content.now)) it.value) }
    ensures refused { IfErr result (λ number.
        MatchOption (road_in (Some content.now)) (number ≡ 16) (λ _. IsUnprepared number)) }
    ensures order { IfOk result (λ it. IsOrderOf (road_in (Some content.now)) order.now) }
    ensures no_order { IfErr result (λ number. number ≡ 27
        → IsOrderOf (road_in (Some content.now)) order.now → ⊥) }
{
    match content {
        Content::Road(share) => match road_by_order(alloc, share.terrain(), order) {
            Ok(found) => Ok(found),
            Err(why) => Err(number_of(why)),
        },
        _ => Err(NO_ROAD),
    }
}

/// One more share of the layout of a prepared road, or the refusal's number: it isn't prepared, or memory was refused.
fn pattern_of(content: &Content) -> Result<Arc<Layout, Global>, u32>
    ensures { IfErr result IsUnprepared }
{
    let Content::Road(share) = content else {
        return Err(NO_ORDER);
    };
    match share.layout_again() {
        Ok(Some(layout)) => Ok(layout),
        Ok(None) => Err(NO_ORDER),
        Err(_) => Err(OUT_OF_MEMORY),
    }
}

/// One more share of the layout of the road that a handle holds.
fn pattern_in(alloc: Global, like: &mut Handle) -> Result<Arc<Layout, Global>, u32>
    ensures same { like.new.value ≡ like.old.value }
    ensures refused { IfErr result IsUnprepared }
{
    let Some(content) = like.take(alloc) else {
        return Err(NO_ORDER);
    };
    let layout = pattern_of(&content);
    like.put(content);
    layout
}

/// The road of a content with a preparation like that of another, or the refusal's number.
fn prepared_like(
    alloc: Global,
    content: &Content,
    like: &mut Handle,
) -> Result<Box<Content, Global>, u32>
    ensures same { like.new.value ≡ like.old.value }
    ensures made { IfOk result (λ it. IsPreparedOf (road_in (Some content.now)) it.value) }
    ensures refused { IfErr result (λ number.
        MatchOption (road_in (Some content.now)) (number ≡ 16) (λ _. IsUnprepared number)) }
{
    let Content::Road(share) = content else {
        return Err(NO_ROAD);
    };
    match pattern_in(alloc, like) {
        Ok(layout) => match road_like(alloc, share.terrain(), &layout) {
            Ok(found) => Ok(found),
            Err(why) => Err(number_of(why)),
        },
        Err(number) => Err(number),
    }
}

/// Prepares a road: the searches of pairs on it are led by bounds of the travel time to the target, and find
/// the same arrivals and walks. Takes seconds for 10^6 nodes, once for all searches.
///
/// The handle `prepared` holds the same road afterwards, with its preparation; its earlier content is freed.
/// Returns 26 if the road is not worth it. If the call doesn't return 0, the handle is unchanged.
#[unsafe(no_mangle)]
pub extern "C" fn earliest_road_prepared(
    alloc: Global,
    road: &mut Handle,
    prepared: &mut Handle,
) -> u32
    ensures same { road.new.value ≡ road.old.value }
    ensures made { IsPrepared (road_in road.old.value) prepared.old.value prepared.new.value result }
    ensures no_order { result ≢ 27 }
{
    let Some(content) = road.take(alloc) else {
        return NO_ROAD;
    };
    let made = prepared_of(alloc, &content);
    road.put(content);
    match made {
        Ok(found) => {
            prepared.put(found);
            DONE
        }
        Err(number) => number,
    }
}

/// Prepares a road over an order of its nodes, from the first that is passed over to the last: any order serves, and a good one, as by
/// nested dissection, makes searches quick. So a road with other weights is prepared over the order of another.
///
/// The handle `prepared` is as after `earliest_road_prepared`. Returns 27 if the list is no order of the nodes: one is missing, or there
/// twice. If the call doesn't return 0, the handle is unchanged.
#[unsafe(no_mangle)]
pub extern "C" fn earliest_road_prepared_by(
    alloc: Global,
    road: &mut Handle,
    order: &[u32],
    prepared: &mut Handle,
) -> u32
    ensures same { road.new.value ≡ road.old.value }
    ensures made { IsPrepared (road_in road.old.value) prepared.old.value prepared.new.value result }
    ensures order { result ≡ 0 → IsOrderOf (road_in road.old.value) order.now }
    ensures no_order { result ≡ 27 → IsOrderOf (road_in road.old.value) order.now → ⊥ }
{
    let Some(content) = road.take(alloc) else {
        return NO_ROAD;
    };
    let made = prepared_by(alloc, &content, order);
    road.put(content);
    match made {
        Ok(found) => {
            prepared.put(found);
            DONE
        }
        Err(number) => number,
    }
}

/// Prepares a road like another one that is prepared, as one with other weights or timetables on the same arcs: no order is looked for, and the
/// upward arcs stay as they are, so it takes a part of the time. If an arc was added that they don't join, new ones are made over the same
/// order.
///
/// The handle `prepared` is as after `earliest_road_prepared`. Returns 27 if `like` holds no preparation, or one of another number of nodes.
/// If the call doesn't return 0, the handle is unchanged.
#[unsafe(no_mangle)]
pub extern "C" fn earliest_road_prepared_like(
    alloc: Global,
    road: &mut Handle,
    like: &mut Handle,
    prepared: &mut Handle,
) -> u32
    ensures same { road.new.value ≡ road.old.value }
    ensures like { like.new.value ≡ like.old.value }
    ensures made { IsPrepared (road_in road.old.value) prepared.old.value prepared.new.value result }
{
    let Some(content) = road.take(alloc) else {
        return NO_ROAD;
    };
    let made = prepared_like(alloc, &content, like);
    road.put(content);
    match made {
        Ok(found) => {
            prepared.put(found);
            DONE
        }
        Err(number) => number,
    }
}
