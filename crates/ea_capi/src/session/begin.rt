//! Making and freeing searches.
ghost use Rattle.std.specs.Prelude.{◌≡◌, IfErr, IfOk, IfSome, None, Some, nat_lt};
ghost use Rattle.ea_capi.specs.Asked.{IsUnasked};
ghost use Rattle.ea_capi.specs.Calls.{IsBegun, IsHeld, IsNew, IsThere};
ghost use Rattle.ea_capi.specs.Prepared.{IsLedAlike, layout_in};
ghost use Rattle.ea_capi.specs.States.{road_in, session_in};

use crate::fault_numbers::{DONE, NO_ROAD, OUT_OF_MEMORY};
use crate::handle::content::{Content, Session};
use crate::handle::handle::Handle;
use std::alloc::{AllocError, Global};

/// A search on the road of a content: none if it holds no road, an error if memory is refused.
fn session_on(alloc: Global, content: &Content, walks: bool) -> Result<Option<Session>, AllocError>
    ensures made { IfOk result (IsNew (road_in (Some content.now)) walks) }
    ensures led { IfOk result (λ made. IfSome made (λ it.
        it.share.layout ≡ layout_in (Some content.now))) }
    ensures unasked { IfOk result (λ made. IfSome made (λ it. it.asked ≡ None)) }
    ensures refused { IfErr result (λ _. IsThere (road_in (Some content.now))) }
{
    match content {
        Content::Road(share) => Ok(Some(Session::on(alloc, share, walks)?)),
        _ => Ok(None),
    }
}

/// Puts a search into a handle.
fn keep(alloc: Global, session: Session, handle: &mut Handle) -> u32
    ensures { IsHeld session handle.old.value handle.new.value result }
{
    match Box::new(alloc, Content::Search(session)) {
        Ok(content) => {
            handle.put(content);
            DONE
        }
        Err(_) => OUT_OF_MEMORY,
    }
}

/// Makes a search on a road. If `walks` isn't 0 it has room for walks, and each query finds canonical walks
/// too. Its arrays take about 40 bytes for each node, 60 with walks; on a road that is laid out or prepared 8 more, or 20; from its first
/// query for some nodes on, 16 more.
///
/// The search has a share of the road, so the road may be freed before it. The handle `search` holds the
/// search afterwards; its earlier content is freed. If the call doesn't return 0, the handle is unchanged.
#[unsafe(no_mangle)]
pub extern "C" fn earliest_search_new(
    alloc: Global,
    road: &mut Handle,
    walks: u32,
    search: &mut Handle,
) -> u32
    ensures same { road.new.value ≡ road.old.value }
    ensures begun { IsBegun (road_in road.old.value) (nat_lt 0 walks)
        search.old.value search.new.value result }
    ensures led { IsLedAlike road.old.value search.new.value result }
    ensures unasked { IsUnasked (session_in search.new.value) result }
{
    let Some(content) = road.take(alloc) else {
        return NO_ROAD;
    };
    let made = session_on(alloc, &content, walks > 0);
    road.put(content);
    match made {
        Ok(Some(session)) => keep(alloc, session, search),
        Ok(None) => NO_ROAD,
        Err(_) => OUT_OF_MEMORY,
    }
}

/// Frees a search and empties the handle.
#[unsafe(no_mangle)]
pub extern "C" fn earliest_search_free(alloc: Global, search: &mut Handle)
    ensures { search.new.value ≡ None }
{
    let _ = search.take(alloc);
}
