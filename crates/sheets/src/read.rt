ghost use Rattle.std.specs.Prelude.{◌≡◌, ℕ, None, Some, length, IfErr, IfOk};
ghost use Rattle.std.specs.Option.{option_map};
ghost use Rattle.model.specs.Outcomes.{granted, outcome};
ghost use Rattle.model.specs.Plans as plans;
ghost use Rattle.model.specs.Reading.{series};
ghost use Rattle.model.specs.Required.{required};
ghost use Rattle.model.specs.Sheets as sheets;
ghost use Rattle.model.specs.Sheets.{read_route, read_sheet, sheet_bytes};
ghost use Rattle.plan.specs.Strides.{strides_of};
ghost use Rattle.routes.specs.InOrder.{InOrder};
ghost use Rattle.routes.specs.Meant.{meant, prefix_bits};
ghost use Rattle.sheets.specs.Held.{count_read, held, to_read};

use crate::required::newly_required;
use crate::{LAST_NUMBER, Routes, Sheet};
use address::Address;
use faults::{Fault, Refusal};
use messages::fault;
use messages::reader::Reader;
use plan::Plan;
use routes::{LAST_HOP, Route, SoundPrefix};
use std::cmp::Ordering;

// Whether a route is above the one before, if there is one.
fn ascends<A: Address>(last: &Option<Route<A>>, route: &Route<A>) -> bool
    ensures { result ≡ sheets.ascends (option_map (meant A.Address.bits) last.now) (prefix_bits A.Address.bits route.now.prefix) }
{
    match last {
        Some(last) => last.prefix.compare(&route.prefix) == Ordering::Less,
        None => true,
    }
}

// Whether two lists of strides are the same.
fn same_strides(some: &[u8], others: &[u8]) -> bool
    ensures { result ≡ plans.same_strides some.now others.now }
{
    some == others
}

impl<'a, A: Address> Routes<'a, A> {
    /// The next route. Refused as *cut*, *length*, *stray*, *hop* or *order*, in this order; then it stays where it is.
    #[tactic(auto, unfolding(model::specs::Sheets::read_route))]
    pub fn next(&mut self) -> Result<Route<A>, Fault>
        ensures read { outcome (λ r. (meant A.Address.bits r, self.new.reader.place)) result ≡ read_route A.Address.WIDTH (option_map (meant A.Address.bits) self.old.last) self.old.reader.bytes.now self.old.reader.place }
        ensures last { IfOk result (λ r. self.new.last ≡ Some r) }
        ensures bytes { self.new.reader.bytes.now ≡ self.old.reader.bytes.now }
        ensures refused { IfErr result (λ _. self.new ≡ self.old) }
    {
        let mut ahead = self.reader;
        let read = ahead.prefix::<A>()?;
        let SoundPrefix { prefix } = read.prefix()?;
        let place = ahead.place();
        let hop = ahead.get_u16()?;
        if hop > LAST_HOP {
            return Err(fault(Refusal::Hop, place));
        }
        let route = Route { prefix, hop };
        if !ascends(&self.last, &route) {
            return Err(fault(Refusal::Order, read.place));
        }
        self.reader = ahead;
        self.last = Some(route);
        Ok(route)
    }

    // Goes over so many routes, and answers how many nodes they require.
    fn count_required(&mut self, plan: &Plan<A>, count: u32) -> Result<usize, Fault>
        requires { self.old.last ≡ None }
        ensures required { outcome {A = ℕ × ℕ} (λ n. (n, self.new.reader.place)) result ≡ count_read (strides_of plan.now) (series (read_route A.Address.WIDTH) None count self.old.reader.bytes.now self.old.reader.place) }
        ensures bytes { self.new.reader.bytes.now ≡ self.old.reader.bytes.now }
    {
        let mut required: usize = 1;
        for _ in 0..count {
            let last = self.last;
            let route = self.next()?;
            required += newly_required(plan, &last, &route);
        }
        Ok(required)
    }
}

impl<'a, A: Address> Sheet<'a, A> {
    // The sheet, field by field.
    #[tactic(auto, unfolding(model::specs::Sheets::read_sheet, model::specs::Sheets::sheet))]
    fn read_fields(bytes: &'a [u8], plan: &Plan<A>) -> Result<Sheet<'a, A>, Fault>
        ensures read { outcome (held A.Address.WIDTH) result ≡ read_sheet A.Address.WIDTH (strides_of plan.now) bytes.now }
        ensures required { IfOk result (λ s. s.required ≡ required (strides_of plan.now) (held A.Address.WIDTH s).routes) }
        ensures routes { IfOk result (λ s. (s.routes.last ≡ None) × (to_read A.Address.WIDTH s.count s.routes ≡ granted ((held A.Address.WIDTH s).routes, length bytes.now))) }
        ensures lent { IfOk result (λ s. s.routes.reader.bytes.now ≡ bytes.now) }
    {
        let mut reader = Reader::new(bytes);
        let number = reader.get_u64()?;
        if number > LAST_NUMBER {
            return Err(fault(Refusal::Number, 0));
        }
        let place = reader.place();
        let strides = reader.get_u8()?;
        if !same_strides(reader.take(strides as usize)?, plan.strides()) {
            return Err(fault(Refusal::Strides, place));
        }
        let count = reader.get_u32()?;
        let mut all = Routes { reader, last: None };
        let required = all.count_required(plan, count)?;
        all.reader.end()?;
        let routes = Routes { reader, last: None };
        Ok(Sheet {
            number,
            count,
            required,
            routes,
        })
    }

    /// The sheet that these bytes are, for a table of this plan. Refused in the order of its fields, each at its place: *number* where it is above 2^62;
    /// *strides*, at their count, where they are not the plan's; *length*, *stray*, *hop* and *order* in a route; *cut* where the bytes end early, and last
    /// where some are left over.
    pub fn read(bytes: &'a [u8], plan: &Plan<A>) -> Result<Sheet<'a, A>, Fault>
        ensures read { outcome (held A.Address.WIDTH) result ≡ read_sheet A.Address.WIDTH (strides_of plan.now) bytes.now }
        ensures required { IfOk result (λ s. s.required ≡ required (strides_of plan.now) (held A.Address.WIDTH s).routes) }
        ensures routes { IfOk result (λ s. (s.routes.last ≡ None) × (to_read A.Address.WIDTH s.count s.routes ≡ granted ((held A.Address.WIDTH s).routes, length bytes.now))) }
        ensures lent { IfOk result (λ s. s.routes.reader.bytes.now ≡ bytes.now) }
        ensures ordered { IfOk result (λ s. InOrder A.Address.WIDTH (held A.Address.WIDTH s).routes) }
        ensures written { IfOk result (λ s. sheet_bytes s.number (strides_of plan.now) (held A.Address.WIDTH s).routes ≡ bytes.now) }
    {
        Sheet::read_fields(bytes, plan)
    }
}
