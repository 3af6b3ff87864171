//! What a keeper gets.
use crate::kept::Counter;
use crate::tried::{Tried, call_of};
use std::alloc::Global;
use std::process::Abort;
use std::test::Fail;

#[test]
fn a_keeper_gets_the_effects_of_accepted_calls(rt: HostRuntime) -> Result<(), Fail> {
    keep_logins(&rt, rt.alloc(), &mut Tried::new(rt.alloc())?)
}

fn keep_logins(rt: &impl Abort, alloc: Global, tried: &mut Tried) -> Result<(), Fail> {
    assert_eq!(rt; tried.connect(alloc)?, Ok(1));
    let mut keeper = Counter {
        kept: 0,
        is_full: false,
    };
    // Whether the keeper is full, what session 1 asks, how many effects the keeper has got then,
    // and whether the record is short.
    let rows: [(bool, &[u8], u32, bool); 4] = [
        (false, b"1 62 5 1Hx 0\n", 0, false),
        (false, b"2 62 5 0H 0\n", 1, false),
        (true, b"3 62 5 0H 0\n", 1, true),
        (true, b"4 56\n", 1, false),
    ];
    for (is_full, line, kept, short) in rows {
        keeper.is_full = is_full;
        let call = call_of(alloc, 1, line)?;
        assert_eq!(rt; tried.make_kept(call, &mut keeper)?, Some(short));
        assert_eq!(rt; keeper.kept, kept);
    }
    Ok(())
}
