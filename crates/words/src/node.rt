// The fields of a node in its own 36 words.
ghost use Rattle.std.specs.Prelude.{◌≡◌, ◌*◌, ◌%◌, ◌^◌, ◌<◌, ◌≤◌, length};
ghost use Rattle.std.proofs.Math.ListN.{get_or, set};
ghost use Rattle.fields.specs.Layout.{child_place, count_place, hop_place, read_in, put_in};

use crate::field::Field;

// Where the count lies in word 22.
const COUNT: Field = Field {
    shift: 18,
    width: 7,
};

// Where a child lies in its word, which has three.
fn child_field(index: u8) -> Field
    ensures shift { result.shift ≡ 18 * (index % 3) }
    ensures width { result.width ≡ 18 }
{
    Field {
        shift: 18 * (u32::from(index) % 3),
        width: 18,
    }
}

// Where a hop lies in its word, which has five.
fn hop_field(position: u8) -> Field
    ensures shift { result.shift ≡ 12 * (position % 5) }
    ensures width { result.width ≡ 12 }
{
    Field {
        shift: 12 * (u32::from(position) % 5),
        width: 12,
    }
}

pub(crate) fn bitmap(node: &[u64]) -> u64
    requires { length node.now ≡ 36 }
    ensures { result ≡ get_or node.now 0 0 }
{
    node[0]
}

pub(crate) fn count(node: &[u64]) -> u8
    requires { length node.now ≡ 36 }
    ensures { result ≡ read_in node.now count_place }
{
    COUNT.get(node[22]) as u8
}

pub(crate) fn child(node: &[u64], index: u8) -> u32
    requires long { length node.now ≡ 36 }
    requires inside { index < 64 }
    ensures { result ≡ read_in node.now (child_place index) }
{
    child_field(index).get(node[1 + index as usize / 3]) as u32
}

pub(crate) fn hop(node: &[u64], position: u8) -> u16
    requires long { length node.now ≡ 36 }
    requires inside { position < 64 }
    ensures { result ≡ read_in node.now (hop_place position) }
{
    hop_field(position).get(node[23 + position as usize / 5]) as u16
}

pub(crate) fn set_bitmap(node: &mut [u64], bitmap: u64)
    requires { length node.old ≡ 36 }
    ensures { node.new ≡ set node.old 0 bitmap }
{
    node[0] = bitmap;
}

pub(crate) fn set_count(node: &mut [u64], count: u8)
    requires long { length node.old ≡ 36 }
    requires small { count < 2 ^ 7 }
    ensures { node.new ≡ put_in node.old count_place count }
{
    let word = &mut node[22];
    *word = COUNT.put(*word, count as u64);
}

pub(crate) fn set_child(node: &mut [u64], index: u8, child: u32)
    requires long { length node.old ≡ 36 }
    requires inside { index < 64 }
    requires small { child < 2 ^ 18 }
    ensures { node.new ≡ put_in node.old (child_place index) child }
{
    let word = &mut node[1 + index as usize / 3];
    *word = child_field(index).put(*word, child as u64);
}

pub(crate) fn set_hop(node: &mut [u64], position: u8, hop: u16)
    requires long { length node.old ≡ 36 }
    requires inside { position < 64 }
    requires small { hop < 2 ^ 12 }
    ensures { node.new ≡ put_in node.old (hop_place position) hop }
{
    let word = &mut node[23 + position as usize / 5];
    *word = hop_field(position).put(*word, hop as u64);
}
