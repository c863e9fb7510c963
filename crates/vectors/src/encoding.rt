//! Prefixes as RFC 4271, section 4.3, encodes them: the length in one byte, then the fewest whole bytes that hold so many bits. There the
//! bits behind the length are irrelevant; here one that is set is a fault of the feed.
use crate::calls::{Call, Found, Network, Session};
use std::{array, fmt, iter};

const ENCODED: [&[u8]; 20] = [
    // sound
    &[0x00],
    &[0x08, 0x0a],
    &[0x0d, 0x0a, 0x18],
    &[0x15, 0x0a, 0x18, 0x00],
    &[0x18, 0xc0, 0x00, 0x02],
    &[0x20, 0xc0, 0x00, 0x02, 0x05],
    &[0x01, 0x80],
    &[0x09, 0x0a, 0x80],
    // a bit is set behind the length
    &[0x15, 0x0a, 0x18, 0x01],
    &[0x0d, 0x0a, 0x1f],
    &[0x01, 0xc0],
    &[0x1f, 0xc0, 0x00, 0x02, 0x05],
    // longer than an address
    &[0x21, 0xc0, 0x00, 0x02, 0x05, 0x00],
    // bytes are missing, or one is left over, or there is none
    &[0xff],
    &[0x18, 0xc0, 0x00],
    &[0x09, 0x0a],
    &[0x00, 0x00],
    &[0x08, 0x0a, 0x00],
    &[],
    // the same prefix once more
    &[0x15, 0x0a, 0x18, 0x00],
];

// bytes in base 16, a blank before each
#[derive(Clone, Copy)]
struct Dump(&'static [u8]);

impl fmt::Display for Dump {
    fn fmt<W: fmt::Write>(&self, f: &mut fmt::Formatter<W>) -> fmt::Result {
        for byte in self.0 {
            write!(f, " {byte:02x}")?;
        }
        Ok(())
    }
}

// The prefix that bytes encode, where there are just as many as its length asks for; of a length above 32, the first 32 bits.
fn decode(bytes: &[u8]) -> Option<Network> {
    let [length, rest @ ..] = bytes else {
        return None;
    };
    if rest.len() != usize::from(*length).div_ceil(8) {
        return None;
    }
    let address = array::from_fn(|i| rest.get(i).copied().unwrap_or(0));
    Some(Network(address, u32::from(*length)))
}

// Inserts the prefix that bytes encode, and prints what was answered.
fn insert(session: &mut Session<'_>, bytes: &'static [u8], hop: u16) -> anyhow::Result<()> {
    let dump = Dump(bytes);
    match decode(bytes) {
        None => println!(session.rt; "  bytes{dump}: not a prefix")?,
        Some(network) => {
            let outcome = session.put(Call::Insert(network, hop))?;
            println!(session.rt; "  bytes{dump}: {network} by hop {hop}, {outcome}")?
        }
    }
    Ok(())
}

// The routes of a list in ascending order, at most so many as were encoded.
fn walk(session: &Session<'_>) -> anyhow::Result<()> {
    let list = &session.list;
    let first = list.first().unwrap_or(None);
    let routes = iter::successors(first, |route| list.next(route.prefix).unwrap_or(None));
    for route in routes.take(ENCODED.len()) {
        let held = Found(Some(route));
        println!(session.rt; "  holds {held}")?;
    }
    Ok(())
}

pub(crate) fn show(rt: &HostRuntime) -> anyhow::Result<()> {
    println!(rt; "encoded prefixes")?;
    let mut session = Session::new(rt, 16);
    session.put_all(&[Call::Open(&[3, 6, 6, 6, 6, 6])])?;
    // each by a hop of its own
    for (bytes, hop) in ENCODED.iter().zip(100u16..) {
        insert(&mut session, *bytes, hop)?;
    }
    walk(&session)
}
