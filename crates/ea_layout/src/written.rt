//! Arrays of labels and links under the numbers of the network, copied from those of a layout.
ghost use Rattle.std.specs.Prelude.{None, Some, length};
ghost use Rattle.ea_layout.specs.Copied.{AreLabelsCopied};
ghost use Rattle.ea_layout.specs.Writing.{CanCopyLabels, CanCopyLinks, CanWriteLabels, CanWriteLinks, IsReset};
ghost use Rattle.ea_layout.specs.Writing.{CopiesLabel, CopiesLinks, WritesLabels, WritesLinks};
ghost use Rattle.ea_road.specs.Roads.{IsNode};
ghost use Rattle.ea_search.specs.Listings.{AreLabelsListed, AreLinksListed, IsListed};

use crate::layout::Layout;
use crate::link_copy::copy_of;
use crate::walk_copy::copy_walk;
use ea_road::NONE;
use ea_search::{Link, Listed};

/// Labels and links under the numbers of the network, reused from answer to answer.
#[derive(Drop)]
pub(crate) struct Written {
    pub(crate) labels: Vec<u64>,
    pub(crate) links: Vec<Link>,
    /// The nodes at which they were written.
    pub(crate) listed: Listed,
}

/// Copies the label of each node.
fn copy_labels(places: &[u32], laid: &[u64], labels: &mut [u64])
    requires { CanCopyLabels places.now laid.now labels.old }
    ensures { AreLabelsCopied (length places.now) None places.now laid.now labels.new }
{
    for slot in 0..labels.len() {
        labels[slot] = laid[places[slot] as usize - 1];
    }
}

/// Copies the label of a target.
fn copy_label(places: &[u32], laid: &[u64], target: u32, labels: &mut [u64])
    requires can { CanCopyLabels places.now laid.now labels.old }
    requires target { IsNode (length places.now) target }
    ensures { CopiesLabel places.now laid.now target labels.old labels.new }
{
    let slot = target as usize - 1;
    labels[slot] = laid[places[slot] as usize - 1];
}

/// Copies the link of each node.
fn copy_links(layout: &Layout, laid: &[Link], links: &mut [Link])
    requires { CanCopyLinks layout.now laid.now links.old }
    ensures { CopiesLinks layout.now laid.now links.new }
{
    for slot in 0..links.len() {
        links[slot] = copy_of(&layout.nodes, laid[layout.places[slot] as usize - 1]);
    }
}

impl Written {
    /// Writes the label of each node.
    fn write_all_labels(&mut self, places: &[u32], laid: &[u64])
        requires { CanWriteLabels places.now None laid.now self.old }
        ensures { WritesLabels places.now None laid.now self.old self.new }
    {
        copy_labels(places, laid, &mut self.labels);
        self.listed.add_all();
    }

    /// Resets what was written.
    fn reset(&mut self)
        requires labels { AreLabelsListed self.old.labels.items (IsListed self.old.listed) }
        requires links { AreLinksListed self.old.links.items (IsListed self.old.listed) }
        ensures { IsReset self.old self.new }
    {
        self.listed.put_back(&mut self.labels, &mut self.links);
    }

    /// Resets what was written, and writes the label of a target.
    fn write_label(&mut self, places: &[u32], laid: &[u64], target: u32)
        requires { CanWriteLabels places.now (Some target) laid.now self.old }
        ensures { WritesLabels places.now (Some target) laid.now self.old self.new }
    {
        self.reset();
        copy_label(places, laid, target, &mut self.labels);
        self.listed.add(target);
    }

    /// Writes the labels of the asked nodes. For a target this takes time in proportion to what was written
    /// before.
    pub(crate) fn write_labels(&mut self, places: &[u32], target: Option<u32>, laid: &[u64])
        requires { CanWriteLabels places.now target laid.now self.old }
        ensures { WritesLabels places.now target laid.now self.old self.new }
    {
        match target {
            None => self.write_all_labels(places, laid),
            Some(target) => self.write_label(places, laid, target),
        }
    }

    /// Writes the links of the walk to a target, if it is reached.
    fn write_walk(&mut self, layout: &Layout, laid: &[Link], target: u32)
        requires { CanWriteLinks layout.now (Some target) laid.now self.old }
        ensures { WritesLinks layout.now (Some target) laid.now self.old self.new }
    {
        if self.labels[target as usize - 1] != NONE {
            copy_walk(layout, laid, target, &mut self.links, &mut self.listed);
        }
    }

    /// Writes the links of all nodes, or of those on the walk to the target.
    pub(crate) fn write_links(&mut self, layout: &Layout, target: Option<u32>, laid: &[Link])
        requires { CanWriteLinks layout.now target laid.now self.old }
        ensures { WritesLinks layout.now target laid.now self.old self.new }
    {
        match target {
            None => {
                copy_links(layout, laid, &mut self.links);
                self.listed.add_all();
            }
            Some(target) => self.write_walk(layout, laid, target),
        }
    }
}
