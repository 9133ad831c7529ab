//! Roads from a caller's lists.
ghost use Rattle.std.specs.Prelude.{◌≡◌, ◌↔◌, ◌≤◌, IfErr, IfOk, IsTrue, length};
ghost use Rattle.ea_input.specs.TableViews.{table as table_of};
ghost use Rattle.ea_road.specs.Roads.{IsNetwork, top_class};
ghost use Rattle.ea_travel_times.specs.StepLists.{steps_in};
ghost use Rattle.ea_travel_times.specs.Timetables.{AreFit};
ghost use Rattle.ea_load.specs.declared.file_fault.FileWord.TheVariants.{Tp};
ghost use Rattle.ea_load.specs.Files.{IsFaultAs};
ghost use Rattle.ea_load.specs.Given.{IsTableOf};
ghost use Rattle.ea_load.specs.Texts.{IsTableFault, text_if_any};
ghost use Rattle.ea_capi.specs.Lists.{AreEven, IsMade, IsNoRoad, IsNoRoadWith, IsRoadOfLists, IsRoadWith, arc_lists, arcs_to};

use crate::checks::refusal;
use crate::fault_numbers::{Fault, LENGTHS_DIFFER, OUT_OF_MEMORY, OUT_OF_RANGE, tell};
use crate::handle::handle::Handle;
use crate::road::roads::keep;
use ea_base::{Direction, MOST_ARCS, RawTable};
use ea_blocks::{FaultKind, InputFault};
use ea_input::read_tp;
use ea_load::{FileFault, FileWord, Road};
use ea_road::{Arc, Network};
use ea_travel_times::{RoadTimes, Timetables};
use std::alloc::{AllocError, Global};

/// The lists of a network's arcs: tails, heads, weights, and classes, which are all 0 if their list is empty.
#[derive(Clone, Copy)]
pub struct ArcColumns<'a> {
    pub tails: &'a [u32],
    pub heads: &'a [u32],
    pub weights: &'a [u32],
    pub classes: &'a [u32],
}

/// Whether the lists have one length; that of classes may be empty.
fn are_even(lists: ArcColumns<'_>) -> bool
    ensures { IsTrue result ↔ AreEven (arc_lists lists.entry) }
{
    let count = lists.tails.len();
    if lists.heads.len() != count || lists.weights.len() != count {
        return false;
    }
    lists.classes.len() == 0 || lists.classes.len() == count
}

/// The arcs of lists.
fn arcs_in(alloc: Global, lists: ArcColumns<'_>) -> Result<Vec<Arc>, AllocError>
    requires { AreEven (arc_lists lists) }
    ensures { IfOk result (λ arcs.
        arcs.items ≡ arcs_to (length lists.entry.tails.now) (arc_lists lists.entry)) }
{
    let mut arcs = Vec::with_capacity(alloc, lists.tails.len())?;
    for i in 0..lists.tails.len() {
        arcs.push(Arc {
            tail: lists.tails[i],
            head: lists.heads[i],
            weight: lists.weights[i],
            class: match lists.classes.get(i) {
                Some(class) => *class,
                None => 0,
            },
        })?;
    }
    Ok(arcs)
}

/// The line of the fault in a text of these nodes and arcs, which make no network: the problem line, or that
/// of the first arc with an end that is no node.
fn unfit_line(nodes: u32, arcs: &[Arc]) -> u64 {
    if !Network::fits(nodes, &[]) || arcs.len() > MOST_ARCS as usize {
        return 1;
    }
    for i in 0..arcs.len() {
        if !Network::fits(nodes, &arcs[i..i + 1]) {
            return i as u64 + 2;
        }
    }
    1
}

/// The fault of a text of timetables as its file's.
fn fault_of(fault: InputFault) -> FileFault
    ensures { IsFaultAs Tp fault result }
{
    if fault.kind == FaultKind::OutOfMemory {
        FileFault::OutOfMemory
    } else {
        FileFault::Input {
            file: FileWord::Tp,
            fault,
        }
    }
}

/// The timetables of a text that assigns no classes; an empty text has none.
fn table_in(alloc: Global, tp: &[u8]) -> Result<RawTable, FileFault>
    ensures denoted { IfOk result (λ found. IsTableOf 0 (text_if_any tp.now) (table_of found)) }
    ensures fault { IfErr result (IsTableFault 0 tp.now) }
{
    if tp.len() == 0 {
        return Ok(RawTable {
            kinds: Vec::new(alloc),
            assigned: Vec::new(alloc),
            steps: Vec::new(alloc),
        });
    }
    match read_tp(alloc, tp, 0) {
        Ok(table) => Ok(table),
        Err(fault) => Err(fault_of(fault)),
    }
}

/// A network with timetables.
fn joined(alloc: Global, nodes: u32, arcs: Vec<Arc>, table: RawTable) -> Result<Road, AllocError>
    requires network { IsNetwork (record { nodes = nodes; arcs = arcs.items }) }
    requires table { AreFit table.kinds.items table.steps.items }
    ensures network { IfOk result (λ road. road.network
        ≡ record { nodes = nodes; arcs = arcs.items }) }
    ensures forward { IfOk result (λ road. road.times.direction ≡ Direction.Forward) }
    ensures times { IfOk result (λ road. (road.times.tables.list.items ≡ table.kinds.items)
        × (steps_in road.times.tables.steps ≡ table.steps.items)) }
{
    let tables = Timetables::with_steps(alloc, table.kinds, table.steps)?;
    let network = Network::new(alloc, nodes, arcs)?;
    Ok(Road {
        network,
        times: RoadTimes {
            tables,
            direction: Direction::Forward,
        },
    })
}

/// A road whose timetables have the class of each arc.
fn classed(road: Road) -> Result<Road, Fault>
    ensures same { IfOk result (λ it. it ≡ road) }
    ensures classed { IfOk result (λ it. top_class it.network.arcs ≤ length it.times.tables.list.items) }
    ensures refused { IfErr result (λ fault.
        (top_class road.network.arcs ≤ length road.times.tables.list.items → ⊥)
        × (fault ≡ record { line = 0; number = 6; text = 2 })) }
{
    if road.network.top_class() as usize > road.times.tables.classes() {
        return Err(Fault {
            line: 0,
            number: OUT_OF_RANGE,
            text: 2,
        });
    }
    Ok(road)
}

/// The road of a network's arcs and a text of timetables.
fn road_with(alloc: Global, nodes: u32, arcs: Vec<Arc>, tp: &[u8]) -> Result<Road, Fault>
    requires { IsNetwork (record { nodes = nodes; arcs = arcs.items }) }
    ensures road { IfOk result (IsRoadWith (record { nodes = nodes; arcs = arcs.items }) tp.now) }
    ensures classed { IfOk result (λ it. top_class it.network.arcs ≤ length it.times.tables.list.items) }
    ensures refused { IfErr result
        (IsNoRoadWith (record { nodes = nodes; arcs = arcs.items }) tp.now) }
{
    let table = match table_in(alloc, tp) {
        Ok(table) => table,
        Err(fault) => return Err(tell(fault)),
    };
    match joined(alloc, nodes, arcs, table) {
        Ok(road) => classed(road),
        Err(_) => Err(refusal(OUT_OF_MEMORY)),
    }
}

/// The road of lists and a text of timetables.
fn road_of(alloc: Global, nodes: u32, lists: ArcColumns<'_>, tp: &[u8]) -> Result<Road, Fault>
    ensures road { IfOk result (IsRoadOfLists nodes (arc_lists lists.entry) tp.now) }
    ensures classed { IfOk result (λ it. top_class it.network.arcs ≤ length it.times.tables.list.items) }
    ensures refused { IfErr result (IsNoRoad nodes (arc_lists lists.entry) tp.now) }
{
    if !are_even(lists) {
        return Err(refusal(LENGTHS_DIFFER));
    }
    let Ok(arcs) = arcs_in(alloc, lists) else {
        return Err(refusal(OUT_OF_MEMORY));
    };
    if !Network::fits(nodes, &arcs) {
        return Err(Fault {
            line: unfit_line(nodes, &arcs),
            number: OUT_OF_RANGE,
            text: 1,
        });
    }
    road_with(alloc, nodes, arcs, tp)
}

/// Makes the road of lists and a text of timetables: this many nodes, and arcs with these tails, heads,
/// weights and classes. If the list of classes is empty, all are 0, the plain class. The text has kinds and
/// assigns none.
///
/// The handle holds the road afterwards; its earlier content is freed. On a refusal the handle is unchanged,
/// the fault's number is returned, and `fault` gets the line at which a text of the same network would have
/// it.
#[unsafe(no_mangle)]
pub extern "C" fn earliest_road_of_lists(
    alloc: Global,
    nodes: u32,
    tails: &[u32],
    heads: &[u32],
    weights: &[u32],
    classes: &[u32],
    tp: &[u8],
    road: &mut Handle,
    fault: &mut Fault,
) -> u32
    ensures number { result ≡ fault.new.number }
    ensures made { IsMade nodes (record {
      tails = tails.now;
      heads = heads.now;
      weights = weights.now;
      classes = classes.now;
    })
        tp.now road.old.value road.new.value fault.new }
{
    let lists = ArcColumns {
        tails,
        heads,
        weights,
        classes,
    };
    match road_of(alloc, nodes, lists, tp) {
        Ok(found) => {
            let number = keep(alloc, found, road);
            *fault = refusal(number);
            number
        }
        Err(found) => {
            *fault = found;
            found.number
        }
    }
}
