//! Chains of blocks: the last block is used again, and a refused append changes nothing.
use map_chain::{Chain, Memory};
use std::test::Fail;

// Adds the pair of a local and a text 1000 above it, where all locals there are below.
fn add(chain: &mut Chain, local: u32) -> Result<(), Memory> {
    let next = chain.from(local).next();
    match next {
        Some(_) => Ok(()),
        None => chain.append(local, local.wrapping_add(1000)),
    }
}

// What may move to another thread.
fn movable<T: Send>(value: T) -> T {
    value
}

#[test]
fn the_last_block_is_used_again(rt: HostRuntime) -> Result<(), Fail> {
    let mut chain = movable(Chain::new(rt.alloc()));
    chain.reserve(200)?;
    for local in 1..=200u32 {
        add(&mut chain, local)?;
    }
    for back in 0..72u32 {
        assert_eq!(rt; chain.remove(200 - back), Some(1200 - back));
    }
    for local in 201..=330u32 {
        add(&mut chain, local)?;
    }
    assert_eq!(rt; chain.len(), 258);
    assert_eq!(rt; chain.before(201).next(), Some((128, 1128)));
    assert_eq!(rt; chain.from(129).next(), Some((201, 1201)));
    for local in 1..=330u32 {
        chain.remove(local);
    }
    assert!(rt; chain.is_empty());
    assert_eq!(rt; chain.before(330).next(), None);
    add(&mut chain, 7)?;
    assert_eq!(rt; chain.from(0).next(), Some((7, 1007)));
    Ok(())
}

// With all the memory that is asked for, and with some of it refused.
#[test]
fn a_refused_append_changes_nothing(rt: HostRuntime) -> Result<(), Fail> {
    let mut chain = Chain::new(rt.alloc());
    let mut kept = [false; 300];
    for (local, there) in kept.iter_mut().enumerate() {
        *there = add(&mut chain, local as u32).is_ok();
    }
    let mut pairs = chain.before(300);
    for (local, there) in kept.iter().enumerate().rev() {
        let local = local as u32;
        let pair = (local, local.wrapping_add(1000));
        assert_eq!(rt; chain.get(local), if *there { Some(pair.1) } else { None });
        if *there {
            assert_eq!(rt; pairs.next(), Some(pair));
        }
    }
    assert_eq!(rt; pairs.next(), None);
    Ok(())
}
