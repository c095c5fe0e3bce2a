//! Windows that roll and expand, over views and at the ends of the range.
ghost use Rattle.std.specs.Prelude.{◌≡◌};

use crate::listing::put_records;
use base_graphs::PersistentGraph;
use graph_model::{Bounds, Each, Model};
use graph_store::Store;
use std::alloc::Global;
use std::marker::Brand;
use std::process::Abort;
use std::sync::ledger::{Blank, Ledger};
use std::test::Fail;
use time_column::Steps;
use view_trait::{Roster, View, extent};
use window_ends::{Ends, TooMany, ends_between};
use window_iters::{WindowsOver, expanding, rolling};
use window_view::window;

/// The ends of windows stand a step from one another.
#[test]
fn ends_follow_one_another(rt: HostRuntime) -> Result<(), Fail> {
    let mut ends = ends_between(Each::Rolling(10, 5), 3, 13)
        .ok()
        .ok_or("few windows")?;
    assert_eq!(rt; ends.len(), 3);
    assert_eq!(rt; ends.next(), Some(Ends { from: -2, to: 8 }));
    assert_eq!(rt; ends.next(), Some(Ends { from: 3, to: 13 }));
    assert_eq!(rt; ends.next(), Some(Ends { from: 8, to: 18 }));
    assert_eq!(rt; ends.next(), None);
    assert_eq!(rt; ends.len(), 0);
    Ok(())
}

/// The widest windows are brought into range, and 65,536 are not too many.
#[test]
fn ends_are_bounds(rt: HostRuntime) -> Result<(), Fail> {
    let (lo, hi) = (Bounds::EARLIEST, Bounds::LATEST);
    let mut ends = ends_between(Each::Expanding(hi), lo, hi - 1)
        .ok()
        .ok_or("few windows")?;
    assert_eq!(rt; ends.len(), 2);
    assert_eq!(rt; ends.next(), Some(Ends { from: lo, to: 0 }));
    assert_eq!(rt; ends.next(), Some(Ends { from: lo, to: hi }));
    assert_eq!(rt; ends.next(), None);
    let count = 9223372036854775808;
    assert_eq!(rt;
        ends_between(Each::Rolling(1, 1), lo, hi - 1).err(),
        Some(TooMany { count })
    );
    let count = 65537;
    assert_eq!(rt;
        ends_between(Each::Expanding(1), 0, 65536).err(),
        Some(TooMany { count })
    );
    assert!(rt; ends_between(Each::Expanding(1), 0, 65535).is_ok());
    Ok(())
}

/// The next window begins and ends there, and shows so many events.
fn shows_next<V: View, L: Ledger>(
    rt: &impl Abort,
    windows: &mut WindowsOver<'_, V>,
    from: i64,
    to: i64,
    events: u64,
    steps: &mut Steps<L>,
) -> Result<(), Fail> {
    let view = windows.next().ok_or("a window is left")?;
    assert_eq!(rt; view.from, from);
    assert_eq!(rt; view.to, to);
    assert_eq!(rt; extent(&view, Roster::All, steps).events, events);
    Ok(())
}

/// An edge that is added, deleted and added again.
const RECORDS: [&[u8]; 3] = [b"edge,1,a,b,l\n", b"delete,5,a,b,l\n", b"edge,9,a,b,l\n"];

fn windows_over<L: Ledger>(
    rt: &impl Abort,
    graph: &PersistentGraph<'_>,
    steps: &mut Steps<L>,
) -> Result<(), Fail> {
    let mut windows = rolling(graph, 4, 4, steps).ok().ok_or("few windows")?;
    assert_eq!(rt; windows.len(), 3);
    shows_next(rt, &mut windows, 1, 5, 1, steps)?;
    // The edge is carried to 5, and deleted there.
    shows_next(rt, &mut windows, 5, 9, 2, steps)?;
    shows_next(rt, &mut windows, 9, 13, 1, steps)?;
    assert_eq!(rt; windows.len(), 0);
    assert!(rt; windows.next().is_none());
    let seen = window(graph, 0, 6);
    let mut windows = expanding(&seen, 3, steps).ok().ok_or("few windows")?;
    assert_eq!(rt; windows.len(), 2);
    shows_next(rt, &mut windows, 1, 4, 1, steps)?;
    shows_next(rt, &mut windows, 1, 7, 2, steps)?;
    assert!(rt; windows.next().is_none());
    let nothing = window(graph, 20, 20);
    let windows = expanding(&nothing, 3, steps).ok().ok_or("no window")?;
    assert_eq!(rt; windows.len(), 0);
    Ok(())
}

fn windows_of<L: Ledger>(
    rt: &impl Abort,
    alloc: Global,
    store: &mut Store,
    steps: &mut Steps<L>,
) -> Result<(), Fail> {
    assert!(rt; put_records(alloc, store, RECORDS.as_slice(), steps)?);
    let graph = PersistentGraph::over(store).ok_or("the store is of the persistent model")?;
    windows_over(rt, &graph, steps)
}

fn windows_in_a_row<L: Ledger>(rt: &impl Abort, alloc: Global, blank: Blank) -> Result<(), Fail>
    requires name { blank.name ≡ L.name }
    requires parts { blank.parts ≡ L.parts }
    requires one { blank.parts ≡ 1 }
{
    let mut steps = Steps::<L>::new(blank);
    let mut store = Store::new(alloc, Model::Persistent, Bounds::whole());
    let outcome = windows_of(rt, alloc, &mut store, &mut steps);
    drop(store);
    outcome
}

#[test]
fn windows_show_what_lies_in_them(rt: HostRuntime) -> Result<(), Fail> {
    windows_in_a_row::<Brand>(&rt, rt.alloc(), Blank::new(1))
}
