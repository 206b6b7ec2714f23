//! Places below literals and within cases.
use crate::places::made::p_of;
use scasp_lines_places::Place;
use scasp_list::Memory;
use std::alloc::Global;
use std::test::Fail;

/// Below two literals.
fn below(alloc: Global) -> Result<Place, Memory> {
    let atom = p_of(alloc, 0, 1)?;
    let outer = Place::start(9).below_literal(alloc, 1, true, &atom)?;
    outer.below_literal(alloc, 2, false, &atom)
}

fn within(alloc: Global) -> Result<Place, Memory> {
    below(alloc)?.within_case(alloc, 4, true)?.share()
}

/// Below a literal and within a case both are there, the innermost first.
#[test]
fn below_and_within(rt: HostRuntime) -> Result<(), Fail> {
    let here = within(rt.alloc())?;
    let lines = here.above.first().map(|(ancestor, _)| ancestor.at);
    assert_eq!(rt; lines, Some(2));
    let cases = here.around.first().map(|(case, _)| case.at);
    assert_eq!(rt; cases, Some(4));
    Ok(())
}
