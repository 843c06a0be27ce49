// The formats of all messages as one table of nodes, and the nodes where they begin.
#![tactic(auto)]

ghost use Rattle.std.specs.Prelude.{◌≡◌, ◌≤◌};
ghost use Rattle.message_nodes.specs.Roots.{root_of};
ghost use Rattle.message_nodes.specs.Table.{table};
ghost use Rattle.node_tables.specs.Row.{IsNode};

use node_tables::{Node, node_at};

// table.rt: the nodes
pub mod table;

// The root of a message, by its kind and direction: the numbers with which `write_message` is called, since those that are none are refused there.
pub fn root(kind: u64, direction: u64) -> usize
    requires { (kind ≤ 2) × (direction ≤ 1) }
    ensures { result ≡ root_of kind direction }
{
    if kind == 0 {
        if direction == 0 {
            return table::DOWNLINK;
        }
        return table::UPLINK;
    }
    if kind == 1 {
        if direction == 0 {
            return table::CM_AIRCRAFT;
        }
        return table::CM_GROUND;
    }
    table::ACSE
}

// Node k of the table. The table is laid on the stack for it: whoever takes many nodes lends `&table::NODES` once, and goes on with the slice.
pub fn node(k: usize) -> Node
    ensures { IsNode table k result }
{
    node_at(&table::NODES, k)
}
