ghost use Rattle.std.specs.Prelude.{◌≡◌, IfOk};
ghost use Rattle.replies.specs.Counted.{counted};
ghost use Rattle.commands.specs.Replies.{Undisputed};
ghost use Rattle.commands.specs.Agreement.{BothAgree};

use crate::session::{answer, shut_pair};
use address::ipv4::Ipv4;
use address::ipv6::Ipv6;
use buffer::Buffer;
use pair::Pair;
use replies::kind::Kind;
use replies::reply::{Reply, Stop};
use replies::summary::Summary;
use std::alloc::Global;

// The engines for the kind of address that is in use.
#[derive(Drop)]
pub(crate) enum Engines {
    Ipv4(Pair<Ipv4, Buffer>),
    Ipv6(Pair<Ipv6, Buffer>),
}

impl Engines {
    // Engines of a kind that are not yet open.
    fn new(heap: Global, kind: Kind) -> Engines
        ensures { BothAgree result }
    {
        match kind {
            Kind::Ipv4 => Engines::Ipv4(shut_pair(heap)),
            Kind::Ipv6 => Engines::Ipv6(shut_pair(heap)),
        }
    }

    // What the line of a number comes to.
    fn answer<'a>(&mut self, heap: Global, number: u64, line: &'a [u8]) -> Result<Reply<'a>, Stop>
        ensures { BothAgree self.old → BothAgree self.new × Undisputed result }
    {
        match self {
            Engines::Ipv4(pair) => answer(heap, pair, number, line),
            Engines::Ipv6(pair) => answer(heap, pair, number, line),
        }
    }
}

/// A console: the engines that its commands work on, and the count of its lines. It begins with IPv4.
#[derive(Drop)]
pub struct Console {
    heap: Global,
    engines: Engines,
    /// What the lines so far came to.
    pub summary: Summary,
}

impl Console {
    /// A console that has read no line.
    pub fn new(heap: Global) -> Console
        ensures summary { result.summary ≡ record { lines = 0; answered = 0; refused = 0; misread = 0 } }
        ensures agree { BothAgree result.engines }
    {
        Console {
            heap,
            engines: Engines::new(heap, Kind::Ipv4),
            summary: Summary::new(),
        }
    }

    /// Does what a line asks for, and counts it.
    pub fn take<'a>(&mut self, line: &'a [u8]) -> Result<Reply<'a>, Stop>
        ensures summary { IfOk result (λ reply. self.new.summary ≡ counted self.old.summary reply) }
        ensures agree { BothAgree self.old.engines → BothAgree self.new.engines × Undisputed result }
    {
        let number = self.summary.lines.saturating_add(1);
        let reply = self.engines.answer(self.heap, number, line)?;
        self.summary.count(&reply);
        if let Reply::Switched(kind) = reply {
            self.engines = Engines::new(self.heap, kind);
        }
        Ok(reply)
    }
}
