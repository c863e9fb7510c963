// Each call of the two halves, on words that are lent for it.
ghost use Rattle.std.specs.Prelude.{◌≡◌, IfErr};
ghost use Rattle.fields.specs.Beside.{Beside};
ghost use Rattle.fields.specs.Layout.{nodes_of, size_of};
ghost use Rattle.nodes.specs.Fields.{read_bitmap, read_count, read_child, read_hop, write_bitmap, write_count, write_child, write_hop, after_bitmap, after_count, after_child, after_hop};

use faults::Fault;
use nodes::{NodeRead, NodeWrite};
use words::Words;

pub(crate) fn size(words: &mut [u64]) -> u32
    ensures answer { result ≡ size_of words.old }
    ensures still { words.new ≡ words.old }
{
    Words::new(words).size()
}

pub(crate) fn bitmap(words: &mut [u64], node: u32) -> Result<u64, Fault>
    ensures answer { result ≡ read_bitmap (nodes_of words.old) node }
    ensures still { words.new ≡ words.old }
{
    Words::new(words).bitmap(node)
}

pub(crate) fn count(words: &mut [u64], node: u32) -> Result<u8, Fault>
    ensures answer { result ≡ read_count (nodes_of words.old) node }
    ensures still { words.new ≡ words.old }
{
    Words::new(words).count(node)
}

pub(crate) fn child(words: &mut [u64], node: u32, index: u8) -> Result<u32, Fault>
    ensures answer { result ≡ read_child (nodes_of words.old) node index }
    ensures still { words.new ≡ words.old }
{
    Words::new(words).child(node, index)
}

pub(crate) fn hop(words: &mut [u64], node: u32, position: u8) -> Result<u16, Fault>
    ensures answer { result ≡ read_hop (nodes_of words.old) node position }
    ensures still { words.new ≡ words.old }
{
    Words::new(words).hop(node, position)
}

pub(crate) fn set_bitmap(words: &mut [u64], node: u32, bitmap: u64) -> Result<(), Fault>
    ensures answer { result ≡ write_bitmap (nodes_of words.old) node bitmap }
    ensures after { nodes_of words.new ≡ after_bitmap (nodes_of words.old) node bitmap }
    ensures always { Beside words.old words.new }
    ensures refused { IfErr result (λ _. words.new ≡ words.old) }
{
    Words::new(words).set_bitmap(node, bitmap)
}

pub(crate) fn set_count(words: &mut [u64], node: u32, count: u8) -> Result<(), Fault>
    ensures answer { result ≡ write_count (nodes_of words.old) node count }
    ensures after { nodes_of words.new ≡ after_count (nodes_of words.old) node count }
    ensures always { Beside words.old words.new }
    ensures refused { IfErr result (λ _. words.new ≡ words.old) }
{
    Words::new(words).set_count(node, count)
}

pub(crate) fn set_child(words: &mut [u64], node: u32, index: u8, child: u32) -> Result<(), Fault>
    ensures answer { result ≡ write_child (nodes_of words.old) node index child }
    ensures after { nodes_of words.new ≡ after_child (nodes_of words.old) node index child }
    ensures always { Beside words.old words.new }
    ensures refused { IfErr result (λ _. words.new ≡ words.old) }
{
    Words::new(words).set_child(node, index, child)
}

pub(crate) fn set_hop(words: &mut [u64], node: u32, position: u8, hop: u16) -> Result<(), Fault>
    ensures answer { result ≡ write_hop (nodes_of words.old) node position hop }
    ensures after { nodes_of words.new ≡ after_hop (nodes_of words.old) node position hop }
    ensures always { Beside words.old words.new }
    ensures refused { IfErr result (λ _. words.new ≡ words.old) }
{
    Words::new(words).set_hop(node, position, hop)
}
