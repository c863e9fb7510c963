//! The memory that a tree of bitmap nodes lies in, as an interface in two halves: reading its fields, and writing them.
#![tactic(auto)]

ghost use Rattle.std.specs.Prelude.{◌≡◌, IfErr};
ghost use Rattle.model.specs.Nodes.{Nodes};
ghost use Rattle.nodes.specs.Fields.{read_bitmap, read_count, read_child, read_hop, write_bitmap, write_count, write_child, write_hop, after_bitmap, after_count, after_child, after_hop};
ghost use Rattle.nodes.specs.Laws.{Laws};

use faults::Fault;

/// A memory has at most so many nodes.
pub const MOST_NODES: u32 = 262_144;

/// A node has so many children, numbered from 0.
pub const MOST_CHILDREN: u8 = 64;

/// The last position of a node.
pub const LAST_POSITION: u8 = 63;

/// The largest hop.
pub const LAST_HOP: u16 = 4095;

/// The reading half: nodes numbered from 0, each with a bitmap, a count, children 0 to 63 and hops at positions 1 to 63. A node, a child
/// or a position outside is refused as *place*. A reading may alter something else in the memory, but neither the number of nodes nor a field.
pub trait NodeRead {
    // what the memory holds
    ghost nodes: { Self → Nodes };

    // what every reading keeps
    ghost still: { Self → Self → Type 0 };

    // what every call of either half keeps
    ghost always: { Self → Self → Type 0 };

    /// The number of nodes, at most 262,144.
    fn size(&mut self) -> u32
        ensures answer { result ≡ (nodes self.old).size }
        ensures still { still self.old self.new };

    /// The bitmap of a node, of which bit i marks position i.
    fn bitmap(&mut self, node: u32) -> Result<u64, Fault>
        ensures answer { result ≡ read_bitmap (nodes self.old) node }
        ensures still { still self.old self.new };

    /// How many children a node says that it has.
    fn count(&mut self, node: u32) -> Result<u8, Fault>
        ensures answer { result ≡ read_count (nodes self.old) node }
        ensures still { still self.old self.new };

    /// A child of a node, 0 for none; a number that was not written by a call may be that of no node.
    fn child(&mut self, node: u32, index: u8) -> Result<u32, Fault>
        ensures answer { result ≡ read_child (nodes self.old) node index }
        ensures still { still self.old self.new };

    /// The hop at a position of a node.
    fn hop(&mut self, node: u32, position: u8) -> Result<u16, Fault>
        ensures answer { result ≡ read_hop (nodes self.old) node position }
        ensures still { still self.old self.new };

    // how these hang together
    ghost laws: { Laws nodes still always };
}

/// The writing half: each call sets one field, and leaves the number of nodes and every other field of every node. A place outside is refused
/// as *place*, then a value outside its range as *value*; a refused write leaves everything that a reading leaves.
pub trait NodeWrite: NodeRead {
    /// Sets the bitmap of a node; one that marks position 0 is refused.
    fn set_bitmap(&mut self, node: u32, bitmap: u64) -> Result<(), Fault>
        ensures answer { result ≡ write_bitmap (Self.nodes self.old) node bitmap }
        ensures after { Self.nodes self.new ≡ after_bitmap (Self.nodes self.old) node bitmap }
        ensures always { Self.always self.old self.new }
        ensures refused { IfErr result (λ _. Self.still self.old self.new) };

    /// Sets the count of a node; one above 64 is refused.
    fn set_count(&mut self, node: u32, count: u8) -> Result<(), Fault>
        ensures answer { result ≡ write_count (Self.nodes self.old) node count }
        ensures after { Self.nodes self.new ≡ after_count (Self.nodes self.old) node count }
        ensures always { Self.always self.old self.new }
        ensures refused { IfErr result (λ _. Self.still self.old self.new) };

    /// Sets a child of a node; one that is no node is refused.
    fn set_child(&mut self, node: u32, index: u8, child: u32) -> Result<(), Fault>
        ensures answer { result ≡ write_child (Self.nodes self.old) node index child }
        ensures after { Self.nodes self.new ≡ after_child (Self.nodes self.old) node index child }
        ensures always { Self.always self.old self.new }
        ensures refused { IfErr result (λ _. Self.still self.old self.new) };

    /// Sets the hop at a position of a node; one above 4095 is refused.
    fn set_hop(&mut self, node: u32, position: u8, hop: u16) -> Result<(), Fault>
        ensures answer { result ≡ write_hop (Self.nodes self.old) node position hop }
        ensures after { Self.nodes self.new ≡ after_hop (Self.nodes self.old) node position hop }
        ensures always { Self.always self.old self.new }
        ensures refused { IfErr result (λ _. Self.still self.old self.new) };
}
