ghost use Rattle.std.specs.Prelude.{◌≡◌, ◌<◌, length, IfOk};
ghost use Rattle.smol_plan.specs.Pair.{IsOrdered};

use crate::event::Event;
use crate::machine::Core;
use crate::matching::greedy;
use crate::pair::{Pair, Side};
use crate::plan::Plan;
use std::alloc::{AllocError, Global};
use std::process::Abort;
use std::test::Fail;

// These pairs by reaction 0, but for those whose molecules are in the wrong order.
fn pairs_of(alloc: Global, molecules: &[(u64, u64)]) -> Result<Vec<Pair>, AllocError>
    ensures { IfOk result (λ pairs. IsOrdered pairs.items) }
{
    let mut pairs = Vec::new(alloc);
    for (a, b) in molecules {
        if *a < *b {
            pairs.push(Pair {
                a: *a,
                b: *b,
                reaction: 0,
            })?;
        }
    }
    Ok(pairs)
}

// What is decided of a pair, its counter, whether worker 0 holds it, and whether worker 0 owes its links.
type Look = (Option<bool>, u8, bool, (bool, bool));

// A pair that has this counter, and is neither decided nor held nor owed a link.
const fn waits(left: u8) -> Look {
    (None, left, false, (false, false))
}

// A pair that is decided.
const fn decided(fired: bool) -> Look {
    (Some(fired), 0, false, (false, false))
}

const HELD: Look = (None, 0, true, (false, false));

fn look(core: &Core, pair: usize) -> Look
    requires { pair < length core.now.pairs }
{
    (
        core.decided(pair),
        core.left(pair),
        core.holds(0, pair),
        (
            core.owes(0, pair, Side::Low),
            core.owes(0, pair, Side::High),
        ),
    )
}

// An event that has to be enabled happens.
fn happen(rt: &impl Abort, core: &mut Core, event: Event)
    ensures { core.new.pairs ≡ core.old.pairs }
{
    assert!(rt; core.enabled(&event), "{event:?}");
    core.apply(event);
}

// An event happens to a machine of three pairs, and leaves them so.
fn leaves(rt: &impl Abort, core: &mut Core, event: Event, looks: [Look; 3])
    requires { length core.old.pairs ≡ 3 }
    ensures { core.new.pairs ≡ core.old.pairs }
{
    happen(rt, core, event);
    assert_eq!(rt;
        [look(core, 0), look(core, 1), look(core, 2)],
        looks,
        "{event:?}"
    );
}

#[test]
fn three_pairs_in_a_row(rt: HostRuntime) -> Result<(), Fail> {
    let pairs = pairs_of(rt.alloc(), &[(1, 2), (1, 3), (3, 4)])?;
    assert_eq!(rt;
        greedy(rt.alloc(), &pairs)?.as_slice(),
        [true, false, true].as_slice()
    );
    let plan = Plan::of_pairs(&rt, rt.alloc(), pairs)?;
    assert_eq!(rt; plan.len(), 3);
    assert_eq!(rt; plan.slices(), 1);
    assert_eq!(rt; plan.slice(0), 0..3);
    assert_eq!(rt; plan.before(1, Side::Low), Some(0));
    assert_eq!(rt; plan.before(1, Side::High), None);
    assert_eq!(rt; plan.after(0, Side::Low), Some((1, Side::Low)));
    assert_eq!(rt; plan.after(1, Side::High), Some((2, Side::Low)));
    Ok(())
}

#[test]
fn a_refused_pair_takes_nothing(rt: HostRuntime) -> Result<(), Fail> {
    let pairs = pairs_of(rt.alloc(), &[(1, 2), (1, 2), (2, 3), (3, 4)])?;
    let fired = greedy(rt.alloc(), &pairs)?;
    assert_eq!(rt; fired.as_slice(), [true, false, false, true].as_slice());
    Ok(())
}

#[test]
fn six_events_decide_three_pairs(rt: HostRuntime) -> Result<(), Fail> {
    let pairs = pairs_of(rt.alloc(), &[(1, 2), (1, 3), (3, 4)])?;
    let plan = Plan::of_pairs(&rt, rt.alloc(), pairs)?;
    assert_eq!(rt; plan.len(), 3);
    let mut core = Core::open(rt.alloc(), plan, 2)?;
    let owed = (None, 1, false, (true, false));

    let take = Event::Take {
        worker: 0,
        slice: 0,
    };
    leaves(&rt, &mut core, take, [HELD, waits(1), waits(1)]);
    assert!(rt; !core.enabled(&take));
    leaves(&rt, &mut core, decide(0), [decided(true), owed, waits(1)]);
    leaves(
        &rt,
        &mut core,
        tell(1, Side::Low),
        [decided(true), HELD, waits(1)],
    );
    let stolen = Event::Decide { worker: 1, pair: 1 };
    assert!(rt; !core.enabled(&stolen));
    leaves(
        &rt,
        &mut core,
        decide(1),
        [decided(true), decided(false), owed],
    );
    leaves(
        &rt,
        &mut core,
        tell(2, Side::Low),
        [decided(true), decided(false), HELD],
    );
    leaves(
        &rt,
        &mut core,
        decide(2),
        [decided(true), decided(false), decided(true)],
    );
    Ok(())
}

// Worker 0 decides a pair.
const fn decide(pair: usize) -> Event {
    Event::Decide { worker: 0, pair }
}

// Worker 0 tells a link.
const fn tell(pair: usize, side: Side) -> Event {
    Event::Tell {
        worker: 0,
        pair,
        side,
    }
}

#[test]
fn both_links_of_a_pair_are_told(rt: HostRuntime) -> Result<(), Fail> {
    let pairs = pairs_of(rt.alloc(), &[(1, 2), (1, 2)])?;
    let plan = Plan::of_pairs(&rt, rt.alloc(), pairs)?;
    assert_eq!(rt; plan.len(), 2);
    let mut core = Core::open(rt.alloc(), plan, 2)?;

    assert_eq!(rt; look(&core, 1), waits(2));
    happen(
        &rt,
        &mut core,
        Event::Take {
            worker: 0,
            slice: 0,
        },
    );
    happen(&rt, &mut core, decide(0));
    assert_eq!(rt; look(&core, 1), (None, 2, false, (true, true)));
    happen(&rt, &mut core, tell(1, Side::Low));
    assert_eq!(rt; look(&core, 1), (None, 1, false, (false, true)));
    happen(&rt, &mut core, tell(1, Side::High));
    assert_eq!(rt; look(&core, 1), HELD);
    Ok(())
}

// Pairs of two molecules each that no other pair has.
fn apart(alloc: Global, count: u64) -> Result<Vec<Pair>, AllocError>
    requires { count < 1000 }
    ensures ordered { IfOk result (λ pairs. IsOrdered pairs.items) }
    ensures len { IfOk result (λ pairs. length pairs.items ≡ count) }
{
    let mut pairs = Vec::new(alloc);
    for k in 0..count {
        pairs.push(Pair {
            a: 2 * k,
            b: 2 * k + 1,
            reaction: 0,
        })?;
    }
    Ok(pairs)
}

#[test]
fn a_slice_has_64_pairs(rt: HostRuntime) -> Result<(), Fail> {
    let one = Plan::of_pairs(&rt, rt.alloc(), apart(rt.alloc(), 64)?)?;
    assert_eq!(rt; one.slices(), 1);
    assert_eq!(rt; one.slice(0), 0..64);
    let two = Plan::of_pairs(&rt, rt.alloc(), apart(rt.alloc(), 65)?)?;
    assert_eq!(rt; two.slices(), 2);
    assert_eq!(rt; two.slice(0), 0..64);
    assert_eq!(rt; two.slice(1), 64..65);
    Ok(())
}
