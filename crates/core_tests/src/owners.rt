use crate::rows::holds;
use ctss_types::UserNo;
use onion_swap::{Owners, Plan};
use std::process::Abort;

/// A user's number, its blocks, one of them that is kept on the drum, and how it is loaded.
static PLANS: [(u8, u8, Option<u8>, Plan); 3] = [
    // User 1 stays at 0; its blocks 2 and 3 are to lie where user 2's are.
    (
        1,
        4,
        Some(3),
        Plan {
            base: 0,
            moved: false,
            dumped: 2,
            read: 1,
            fresh: 1,
        },
    ),
    // User 2 fits from 2 on with 126 blocks, and not with 127: then the first place with the fewest of others is 0 or 1.
    (
        2,
        127,
        None,
        Plan {
            base: 1,
            moved: true,
            dumped: 3,
            read: 2,
            fresh: 125,
        },
    ),
    // A user without places goes behind both.
    (
        3,
        8,
        None,
        Plan {
            base: 4,
            moved: false,
            dumped: 0,
            read: 0,
            fresh: 8,
        },
    ),
];

/// Which blocks are kept on the drum, where only this one may be.
fn only(block: Option<u8>) -> [bool; 128] {
    let mut kept = [false; 128];
    if let Some(block) = block
        && block < 128
    {
        kept[usize::from(block)] = true;
    }
    kept
}

/// Tries how users 1, 2 and 3 are loaded where users 1 and 2 have two blocks each, from 0 and from 2 on.
fn plans(rt: &impl Abort, owners: &Owners) {
    for (row, (number, blocks, kept, plan)) in PLANS.iter().enumerate() {
        assert!(rt; 1 <= *number && *number <= 30 && *blocks <= 128);
        let user = UserNo::of(*number);
        holds(rt, row, owners.plan(user, *blocks, &only(*kept)) == *plan);
    }
}

/// Places, and who owns them where user 1 has given up all but its first block.
static OWNERS: [(u8, u8); 4] = [(0, 1), (1, 0), (2, 2), (3, 2)];

fn has_owners(rt: &impl Abort, owners: &Owners) {
    for (row, (place, owner)) in OWNERS.iter().enumerate() {
        assert!(rt; *place < 128);
        holds(rt, row, owners.owner(*place) == *owner);
    }
}

#[test]
fn plans_and_gives_up(rt: HostRuntime) {
    let (one, two) = (UserNo::of(1), UserNo::of(2));
    let mut owners = Owners::new();
    owners.settle(two, 2);
    assert!(rt; owners.base(one).is_none() && owners.base(two).is_none());
    owners.set(one, 0);
    owners.set(one, 1);
    owners.set(two, 0);
    owners.set(two, 1);
    assert!(rt; owners.base(one) == Some(0) && owners.base(two) == Some(2));
    plans(&rt, &owners);
    owners.give_up(one, 1);
    has_owners(&rt, &owners);
    owners.empty(2);
    assert!(rt; !owners.has(two, 0) && owners.has(two, 1));
    assert!(rt; owners.place(two, 1) == 3 && owners.block(two, 3) == 1);
}
