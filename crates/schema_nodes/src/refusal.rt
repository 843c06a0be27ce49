// What a table is refused for: an unknown kind or an empty range, then a node number out of the table or not higher, then a depth above 16.
ghost use Rattle.std.specs.Prelude.{◌≡◌};
ghost use Rattle.schema_tables.specs.Tests.{range_fits, kinds_fit, link_fits, links_fit};
ghost use Rattle.schema_nodes.specs.Names.{leaf_fits, fits};
ghost use Rattle.schema_nodes.specs.Refusal.{refusal_of, number, number_of};

use super::depth::depth_fits;
use super::node::{Leaf, Node, node_at};

// By the test that fails.
#[derive(Clone, Copy)]
pub enum Refusal {
    UnfitKinds,
    UnfitLinks,
    UnfitDepth,
}

impl Refusal {
    pub fn number(self) -> u64
        ensures { result ≡ number self }
    {
        match self {
            Refusal::UnfitKinds => 17,
            Refusal::UnfitLinks => 15,
            Refusal::UnfitDepth => 16,
        }
    }
}

// The first refusal of a table.
pub fn check_nodes(nodes: &[u64]) -> Result<(), Refusal>
    ensures { number_of result ≡ refusal_of nodes.now }
{
    if !kinds_fit(nodes) {
        return Err(Refusal::UnfitKinds);
    }
    if !links_fit(nodes) {
        return Err(Refusal::UnfitLinks);
    }
    if !depth_fits(nodes) {
        return Err(Refusal::UnfitDepth);
    }
    Ok(())
}

// Whether the words, ends below zero as 2^64 less their magnitude, are in order.
fn range_fits(lo: u64, hi: u64) -> bool
    ensures { result ≡ range_fits lo hi }
{
    std::num::wrapping_add_u64(lo, 0x8000_0000_0000_0000)
        <= std::num::wrapping_add_u64(hi, 0x8000_0000_0000_0000)
}

// A range that is not empty.
fn leaf_fits(leaf: Leaf) -> bool
    ensures { result ≡ leaf_fits leaf }
{
    match leaf {
        Leaf::Number {
            tag: _,
            lowest,
            highest,
        } => range_fits(lowest, highest),
        Leaf::Name { tag: _, highest } => range_fits(0, highest),
        Leaf::Text {
            tag: _,
            fewest,
            most,
        } => fewest <= most,
        Leaf::Bits { tag: _, count: _ } => true,
    }
}

// A known kind whose range is not empty.
fn fits(node: Node) -> bool
    ensures { result ≡ fits node }
{
    match node {
        Node::Leaf(leaf) => leaf_fits(leaf),
        Node::Choice {
            tag: _,
            first: _,
            count,
        } => 1 <= count,
        Node::Unknown => false,
        _ => true,
    }
}

fn kinds_fit(nodes: &[u64]) -> bool
    ensures { result ≡ kinds_fit nodes.now }
{
    if nodes.len() % 4 != 0 {
        return false;
    }
    for k in 0..nodes.len() / 4 {
        if !fits(node_at(nodes, k)) {
            return false;
        }
    }
    true
}

// Node k names only nodes with higher numbers.
fn link_fits(nodes: &[u64], k: usize) -> bool
    ensures { result ≡ link_fits nodes.now k }
{
    let named = node_at(nodes, k).named();
    let all = nodes.len() / 4;
    if named.count == 0 {
        return true;
    }
    if k < named.first {
        if named.first <= all {
            return named.count <= all - named.first;
        }
    }
    false
}

fn links_fit(nodes: &[u64]) -> bool
    ensures { result ≡ links_fit nodes.now }
{
    let n = nodes.len() / 4;
    if n == 0 {
        return false;
    }
    for k in 0..n {
        if !link_fits(nodes, k) {
            return false;
        }
    }
    true
}
