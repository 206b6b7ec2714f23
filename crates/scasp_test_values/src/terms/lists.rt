//! Lists.
use scasp_list::{Memory, Sequence};
use std::alloc::{AllocError, Global};
use std::test::Fail;

/// The numbers below `count`.
fn below(alloc: Global, count: u64) -> Result<Sequence<u64>, Memory> {
    let mut numbers = Sequence::new(alloc);
    for number in 0..count {
        numbers.push(number)?;
    }
    Ok(numbers)
}

#[test]
fn keeps_items_in_order(rt: HostRuntime) -> Result<(), Fail> {
    let numbers = below(rt.alloc(), 3)?;
    assert_eq!(rt; numbers.as_slice(), [0, 1, 2].as_slice());
    assert_eq!(rt; numbers.get(2), Some(&2));
    assert_eq!(rt; numbers.get(3), None);
    Ok(())
}

#[test]
fn counts_items(rt: HostRuntime) -> Result<(), Fail> {
    let numbers = below(rt.alloc(), 3)?;
    assert!(rt; numbers.len() == 3 && !numbers.is_empty());
    assert!(rt; below(rt.alloc(), 0)?.is_empty());
    Ok(())
}

#[test]
fn becomes_a_vec_and_back(rt: HostRuntime) -> Result<(), Fail> {
    let mut list = below(rt.alloc(), 3)?.into_vec();
    list.push(9)?;
    assert_eq!(rt; Sequence::from(list).as_slice(), [0, 1, 2, 9].as_slice());
    Ok(())
}

#[test]
fn is_copied(rt: HostRuntime) -> Result<(), Fail> {
    let numbers = below(rt.alloc(), 3)?;
    assert_eq!(rt; numbers.clone()?.as_slice(), [0, 1, 2].as_slice());
    assert_eq!(rt;
        below(numbers.allocator(), 2)?.as_slice(),
        [0, 1].as_slice()
    );
    Ok(())
}

#[test]
fn want_of_memory_is_told(rt: HostRuntime) -> Result<(), Fail> {
    assert_eq!(rt; Memory::from(AllocError), Memory);
    Ok(())
}
