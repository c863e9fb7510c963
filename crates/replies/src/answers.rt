ghost use Rattle.std.specs.Prelude.{◌≡◌, Some, IfOk, codes};
ghost use Rattle.std.specs.Option.{option_map};
ghost use Rattle.routes.specs.Meant.{meant};
ghost use Rattle.replies.specs.Told.{route_text_told, route_spelled, found_told, found_spelled, several_told, opened_told, inserted_told, deleted_told, matched_told, hop_told, counted_told};
ghost use Rattle.replies.specs.Words.{FoundWords};

use routes::Route;
use std::alloc::{AllocError, Global};
use std::fmt;
use text::AddressText;
use text::prefix::prefix_text;

// A route in words: the text of its prefix, and its hop.
#[derive(Drop)]
pub struct RouteText {
    prefix: String,
    hop: u16,
}

impl RouteText {
    // The words of a route.
    pub fn new<A: AddressText>(heap: Global, route: &Route<A>) -> Result<RouteText, AllocError>
        ensures { IfOk result (λ text. route_text_told text ≡ route_spelled A.AddressText.spelled route.now) }
    {
        let prefix = prefix_text(&route.prefix, heap)?;
        Ok(RouteText {
            prefix,
            hop: route.hop,
        })
    }
}

// Writes the prefix and the hop.
impl fmt::Display for RouteText {
    ghost output = { λ text. Some (route_text_told text) };

    fn fmt<W: fmt::Write>(&self, f: &mut fmt::Formatter<W>) -> fmt::Result {
        write!(f, "{} by hop {}", self.prefix, self.hop)
    }
}

// A route in words, if there is one.
#[derive(Drop)]
pub struct Found(Option<RouteText>);

impl Found {
    // The words of a route, if there is one.
    #[tactic(auto, using(crate::proofs::Found::found_words))]
    pub fn new<A: AddressText>(heap: Global, route: Option<Route<A>>) -> Result<Found, AllocError>
        ensures spelled { IfOk result (λ found. found_told found.0 ≡ found_spelled A.AddressText.spelled route) }
        ensures words { IfOk result (λ found. FoundWords A.Address.bits A.AddressText.spelled (option_map (meant A.Address.bits) route) (found_told found.0)) }
    {
        match route {
            Some(route) => Ok(Found(Some(RouteText::new(heap, &route)?))),
            None => Ok(Found(None)),
        }
    }
}

// Writes the route, or that there is none.
impl fmt::Display for Found {
    ghost output = { λ found. Some (found_told found.0) };

    fn fmt<W: fmt::Write>(&self, f: &mut fmt::Formatter<W>) -> fmt::Result {
        match &self.0 {
            Some(text) => write!(f, "{text}"),
            None => f.write_str("no route"),
        }
    }
}

// So many of a thing.
#[derive(Clone, Copy)]
struct Several {
    count: usize,
    noun: &'static str,
}

impl fmt::Display for Several {
    ghost output = { λ several. Some (several_told several.count several.noun.now) };

    fn fmt<W: fmt::Write>(&self, f: &mut fmt::Formatter<W>) -> fmt::Result {
        if self.count == 1 {
            write!(f, "1 {}", self.noun)
        } else {
            write!(f, "{} {}s", self.count, self.noun)
        }
    }
}

// So many nodes.
fn nodes(count: usize) -> Several
    ensures count { result.count ≡ count }
    ensures noun { result.noun.now ≡ codes "node" }
{
    Several {
        count,
        noun: "node",
    }
}

// An opening: for how many nodes, with how many strides.
#[derive(Clone, Copy)]
pub struct Opened {
    pub nodes: usize,
    pub strides: usize,
}

impl fmt::Display for Opened {
    ghost output = { λ opened. Some (opened_told opened.nodes opened.strides) };

    fn fmt<W: fmt::Write>(&self, f: &mut fmt::Formatter<W>) -> fmt::Result {
        write!(
            f,
            "{} nodes, {} strides, no routes",
            self.nodes, self.strides
        )
    }
}

// What an insert answered, and the hop that was put in.
#[derive(Clone, Copy)]
pub struct Inserted {
    pub hop: u16,
    pub answer: reference::Inserted,
}

impl fmt::Display for Inserted {
    ghost output = { λ inserted. Some (inserted_told inserted.hop inserted.answer.old inserted.answer.taken) };

    fn fmt<W: fmt::Write>(&self, f: &mut fmt::Formatter<W>) -> fmt::Result {
        let taken = nodes(self.answer.taken);
        match self.answer.old {
            None => write!(f, "new, {taken} taken"),
            Some(old) => write!(f, "hop {} in place of {old}, {taken} taken", self.hop),
        }
    }
}

// What a delete answered.
#[derive(Clone, Copy)]
pub struct Deleted(pub reference::Deleted);

impl fmt::Display for Deleted {
    ghost output = { λ deleted. Some (deleted_told deleted.0.hop deleted.0.returned) };

    fn fmt<W: fmt::Write>(&self, f: &mut fmt::Formatter<W>) -> fmt::Result {
        let returned = nodes(self.0.returned);
        write!(f, "was by hop {}, {returned} returned", self.0.hop)
    }
}

// What a lookup answered: a route in words, if there is one, and the nodes on the path.
#[derive(Drop)]
pub struct Matched {
    pub found: Found,
    pub path: usize,
}

impl fmt::Display for Matched {
    ghost output = { λ matched. Some (matched_told (found_told matched.found.0) matched.path) };

    fn fmt<W: fmt::Write>(&self, f: &mut fmt::Formatter<W>) -> fmt::Result {
        let path = nodes(self.path);
        write!(f, "{}, {path}", self.found)
    }
}

// The hop of a prefix, if it has a route.
#[derive(Clone, Copy)]
pub struct HopFound(pub Option<u16>);

impl fmt::Display for HopFound {
    ghost output = { λ found. Some (hop_told found.0) };

    fn fmt<W: fmt::Write>(&self, f: &mut fmt::Formatter<W>) -> fmt::Result {
        match self.0 {
            Some(hop) => write!(f, "hop {hop}"),
            None => f.write_str("no route"),
        }
    }
}

// What a count answered.
#[derive(Clone, Copy)]
pub struct Counted(pub reference::Counted);

impl fmt::Display for Counted {
    ghost output = { λ counted. Some (counted_told counted.0.routes counted.0.required counted.0.free) };

    fn fmt<W: fmt::Write>(&self, f: &mut fmt::Formatter<W>) -> fmt::Result {
        let routes = Several {
            count: self.0.routes,
            noun: "route",
        };
        let required = nodes(self.0.required);
        write!(f, "{routes}, {required} required, {} free", self.0.free)
    }
}
