//! The routes of the plain list.
use reference::RouteList;
use std::alloc::Global;
use trials::lines::Line;
use trials::numbers::Numbered;

// All routes of a list that is open, in order.
pub(crate) fn routes_of<A: Numbered>(
    heap: Global,
    list: &RouteList<A>,
) -> anyhow::Result<Vec<Line>> {
    let mut lines = Vec::new(heap);
    let count = list.counts()?.routes;
    let mut route = list.first()?.map(Line::from);
    for _ in 0..count {
        let Some(line) = route else {
            break;
        };
        lines.push(line)?;
        route = list.next(line.network.prefix())?.map(Line::from);
    }
    Ok(lines)
}
