//! Roads turned round, for latest departures.
ghost use Rattle.std.specs.Prelude.{◌≡◌, IfErr, IfOk, IfSome, IsTrue, MatchOption, None, Some, is_some};
ghost use Rattle.ea_capi.specs.LatestCalls.{IsTurnedRound, IsTurnedOf};
ghost use Rattle.ea_capi.specs.Shared.{IsLaidTurned};
ghost use Rattle.ea_capi.specs.States.{road_in, turned_in};

use crate::fault_numbers::{DONE, NO_ROAD, OUT_OF_MEMORY};
use crate::handle::content::{Content, TurnedRoad};
use crate::handle::handle::Handle;
use crate::handle::share::Share;
use crate::handle::turned_share::TurnedShare;
use ea_hierarchy::Unprepared;
use ea_layout::Layout;
use ea_road::Turned;
use std::alloc::{AllocError, Global};
use std::sync::Arc;

/// The layout of a turned network in the order of the road's own layout, and prepared over it if that is; none if a preparation isn't worth it.
fn turned_layout(
    alloc: Global,
    turned: &TurnedRoad,
    layout: &Layout,
) -> Result<Option<Layout>, AllocError>
    ensures laid { IfOk result (λ found. IfSome found (IsLaidTurned turned.now)) }
    ensures is_there { IsTrue (is_some layout.now.prepared) → IfOk result (λ found.
        IfSome found (λ it. IsTrue (is_some it.prepared))) }
{
    if layout.prepared.is_none() {
        return Ok(Some(Layout::over(alloc, &turned.network, &layout.nodes)?));
    }
    let times = Turned::of(&turned.terrain.road.times);
    match Layout::prepare_like(alloc, &turned.network, &times, layout) {
        Ok(layout) => Ok(Some(layout)),
        Err(Unprepared::OutOfMemory) => Err(AllocError),
        Err(Unprepared::NotWorth | Unprepared::NoOrder) => Ok(None),
    }
}

/// A road turned round, in a new box; laid out or prepared if the road is.
fn turned_round(alloc: Global, share: &Share) -> Result<Box<Content, Global>, AllocError>
    ensures { IfOk result (λ it. turned_in (Some it.value) ≡ Some share.now.road) }
{
    let terrain = Arc::try_clone(share.terrain())?;
    let network = terrain.road.network.turned(alloc)?;
    let turned = TurnedRoad { terrain, network };
    let layout = match share.layout() {
        Some(layout) => turned_layout(alloc, &turned, layout)?,
        None => None,
    };
    let turned = TurnedShare::of(alloc, turned, layout)?;
    Ok(Box::new(alloc, Content::Turned(turned))?)
}

/// The road of a content turned round, or the refusal's number.
fn turned_of(alloc: Global, content: &Content) -> Result<Box<Content, Global>, u32>
    ensures made { IfOk result (λ it. IsTurnedOf (road_in (Some content.now)) it.value) }
    ensures refused { IfErr result (λ number.
        MatchOption (road_in (Some content.now)) (number ≡ 16) (λ _. number ≡ 13)) }
{
    match content {
        Content::Road(share) => match turned_round(alloc, share) {
            Ok(found) => Ok(found),
            Err(_) => Err(OUT_OF_MEMORY),
        },
        _ => Err(NO_ROAD),
    }
}

/// Turns a road round, for searches for latest departures: takes as much memory as its network once more. A road that is laid out or
/// prepared is so turned round, too, over the same order and upward arcs.
///
/// The handle `turned` holds it afterwards, with a share of the road, so the road may be freed before it; its earlier content is freed.
/// If the call doesn't return 0, the handle is unchanged.
#[unsafe(no_mangle)]
pub extern "C" fn earliest_road_turned(alloc: Global, road: &mut Handle, turned: &mut Handle) -> u32
    ensures same { road.new.value ≡ road.old.value }
    ensures made { IsTurnedRound (road_in road.old.value) turned.old.value turned.new.value result }
{
    let Some(content) = road.take(alloc) else {
        return NO_ROAD;
    };
    let made = turned_of(alloc, &content);
    road.put(content);
    match made {
        Ok(found) => {
            turned.put(found);
            DONE
        }
        Err(number) => number,
    }
}
