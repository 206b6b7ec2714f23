//! The suspended search, in slices of calls.
use crate::programs::program_of;
use crate::searches::{MARK, lines_of};
use crate::stop::{Stop, expect, number_of};
use crate::world::World;
use scasp_name::Names;
use scasp_print_words::{put, put_number};
use scasp_search::{Advance, Search};
use scasp_syntax::Program;
use scasp_written::{Event, Written};
use std::alloc::Global;
use std::hash::RandomState;

/// The slices in which a search goes on to its next event, again and again.
static MIXED: [u64; 8] = [0, 1, 2, 0, 5, 1, 1, 1_000];

/// How often all of them serve for any budget here.
const TURNS: u64 = 1_000;

/// More events than a search here has.
const EVENTS: u64 = 1_000;

/// A program, the number of the first name of samples, and the names with those of samples: `w0` and `w1`.
#[derive(Drop)]
struct Text {
    program: Program,
    names: Names,
    fresh: u64,
}

/// The names with those of samples.
fn with_samples(mut names: Names) -> Result<Names, Stop> {
    let _first = names.intern("w0")?;
    let _second = names.intern("w1")?;
    Ok(names)
}

/// The program that the bytes spell, whose names are hashed by the keys.
fn text_of(alloc: Global, bytes: &[u8], keys: RandomState) -> Result<Text, Stop> {
    let (program, names) = program_of(alloc, bytes, keys)?;
    let fresh = names.len();
    let names = with_samples(names)?;
    Ok(Text {
        program,
        names,
        fresh,
    })
}

/// The suspended search for answers to the query of this number within the budget.
fn search_of(alloc: Global, text: &Text, query: u64, budget: u64) -> Result<Search, Stop> {
    if text.program.query(query).is_none() {
        return Err(Stop::NoStep);
    }
    Ok(Search::open(alloc, &text.program, query, budget, text.fresh)?)
}

/// The search over whole states for the same.
fn written_of(alloc: Global, text: &Text, query: u64, budget: u64) -> Result<Written, Stop> {
    if text.program.query(query).is_none() {
        return Err(Stop::NoStep);
    }
    Ok(Written::open(alloc, &text.program, query, budget, text.fresh)?)
}

/// What comes of a slice, if it is an event.
fn event_of(advance: Advance) -> Result<Option<Event>, Stop> {
    match advance {
        Advance::Answer(cert) => Ok(Some(Event::Answer(cert))),
        Advance::Paused => Ok(None),
        Advance::Ended => Ok(Some(Event::Ended)),
        Advance::Spent => Ok(Some(Event::Spent)),
        Advance::Overflow => Ok(Some(Event::Overflow)),
        Advance::Memory => Err(Stop::Memory),
    }
}

/// Whether so many calls were spent in the slice.
fn is_full(before: u64, slice: u64, now: u64) -> bool {
    before.checked_add(slice) == Some(now)
}

/// The event that comes within the slice, if one does; a pause comes behind exactly as many calls.
fn sliced(search: &mut Search, slice: u64) -> Result<Option<Event>, Stop> {
    let before = search.calls();
    let event = event_of(search.advance(slice))?;
    if event.is_some() || is_full(before, slice, search.calls()) {
        return Ok(event);
    }
    Err(Stop::Differs)
}

/// The event that comes within one turn of the slices, if one does.
fn turned(search: &mut Search) -> Result<Option<Event>, Stop> {
    for slice in &MIXED {
        if let Some(event) = sliced(search, *slice)? {
            return Ok(Some(event));
        }
    }
    Ok(None)
}

/// The next event, in turns of the slices.
fn next_of(search: &mut Search) -> Result<Event, Stop> {
    for _turn in 0..TURNS {
        if let Some(event) = turned(search)? {
            return Ok(event);
        }
    }
    Err(Stop::Differs)
}

/// Puts how many calls were spent.
fn put_calls(text: &mut Vec<u8>, calls: u64) -> Result<(), Stop> {
    put(text, MARK)?;
    put_number(text, calls)?;
    Ok(put(text, "\n")?)
}

/// Puts the lines of the event.
fn put_lines(text: &mut Vec<u8>, names: &Names, event: &Event) -> Result<(), Stop> {
    let lines = lines_of(*text.allocator(), names, event)?;
    Ok(text.extend_from_slice(lines.as_slice())?)
}

/// Puts the event, behind how many calls were spent; whether others may come behind it.
fn put_event(text: &mut Vec<u8>, names: &Names, event: &Event, calls: u64) -> Result<bool, Stop> {
    put_calls(text, calls)?;
    put_lines(text, names, event)?;
    Ok(matches!(event, Event::Answer(_)))
}

/// Puts the next event of the suspended search; whether others may come behind it.
fn put_next(text: &mut Vec<u8>, names: &Names, search: &mut Search) -> Result<bool, Stop> {
    let event = next_of(search)?;
    put_event(text, names, &event, search.calls())
}

/// Puts the next event of the search over whole states; whether others may come behind it.
fn put_written(text: &mut Vec<u8>, names: &Names, search: &mut Written) -> Result<bool, Stop> {
    let event = search.next()?;
    put_event(text, names, &event, search.calls())
}

/// The events of the suspended search, with the last one twice.
fn all_events(alloc: Global, names: &Names, search: &mut Search) -> Result<Vec<u8>, Stop> {
    let mut text = Vec::new(alloc);
    for _event in 0..EVENTS {
        if !put_next(&mut text, names, search)? {
            put_next(&mut text, names, search)?;
            return Ok(text);
        }
    }
    Err(Stop::NoStep)
}

/// The events of the search over whole states, with the last one twice.
fn all_written(alloc: Global, names: &Names, search: &mut Written) -> Result<Vec<u8>, Stop> {
    let mut text = Vec::new(alloc);
    for _event in 0..EVENTS {
        if !put_written(&mut text, names, search)? {
            put_written(&mut text, names, search)?;
            return Ok(text);
        }
    }
    Err(Stop::NoStep)
}

/// The events of the suspended search for the query within the budget.
fn events_of(alloc: Global, text: &Text, query: u64, budget: u64) -> Result<Vec<u8>, Stop> {
    let mut search = search_of(alloc, text, query, budget)?;
    all_events(alloc, &text.names, &mut search)
}

/// The events of the search over whole states.
fn written_events(alloc: Global, text: &Text, query: u64, budget: u64) -> Result<Vec<u8>, Stop> {
    let mut search = written_of(alloc, text, query, budget)?;
    all_written(alloc, &text.names, &mut search)
}

/// Both searches for the query within the budget have the same events.
fn both_agree(alloc: Global, text: &Text, query: u64, budget: u64) -> Result<(), Stop> {
    let suspended = events_of(alloc, text, query, budget)?;
    let written = written_events(alloc, text, query, budget)?;
    expect(suspended.as_slice() == written.as_slice())
}

/// Both searches for each query within the budget have the same events.
fn all_agree(alloc: Global, text: &Text, budget: u64) -> Result<(), Stop> {
    for before in 0..text.program.queries.len() as u64 {
        both_agree(alloc, text, before + 1, budget)?;
    }
    Ok(())
}

/// For each query of the program of the file, within each budget, the search in slices has the events of the one over whole states.
pub fn agree(alloc: Global, world: &World, rest: &[&str]) -> Result<(), Stop> {
    let [name, budgets @ ..] = rest else {
        return Err(Stop::NoStep);
    };
    let text = text_of(alloc, world.file(name)?, world.files.keys)?;
    for budget in budgets {
        all_agree(alloc, &text, number_of(budget)?)?;
    }
    Ok(())
}

/// Puts what comes of the slice.
fn put_slice(
    text: &mut Vec<u8>,
    names: &Names,
    search: &mut Search,
    slice: u64,
) -> Result<(), Stop> {
    match sliced(search, slice)? {
        Some(event) => put_lines(text, names, &event),
        None => Ok(put(text, "paused\n")?),
    }
}

/// What comes of the slices, and then how many calls were spent.
fn told(
    alloc: Global,
    names: &Names,
    search: &mut Search,
    slices: &[&str],
) -> Result<Vec<u8>, Stop> {
    let mut text = Vec::new(alloc);
    for slice in slices {
        put_slice(&mut text, names, search, number_of(slice)?)?;
    }
    put_calls(&mut text, search.calls())?;
    Ok(text)
}

/// What comes of the slices of the search for the query within the budget.
fn come_of(
    alloc: Global,
    text: &Text,
    query: u64,
    budget: u64,
    slices: &[&str],
) -> Result<Vec<u8>, Stop> {
    let mut search = search_of(alloc, text, query, budget)?;
    told(alloc, &text.names, &mut search, slices)
}

/// What comes of these slices of the search for the query within the budget is the text, and then how many calls were spent.
pub fn slices(alloc: Global, world: &mut World, rest: &[&str], text: &[u8]) -> Result<(), Stop> {
    let [name, query, budget, slices @ ..] = rest else {
        return Err(Stop::NoStep);
    };
    let (query, budget) = (number_of(query)?, number_of(budget)?);
    let program = text_of(alloc, world.file(name)?, world.files.keys)?;
    world.printed = come_of(alloc, &program, query, budget, slices)?;
    expect(world.printed.as_slice() == text)
}

/// Slices of one call pause until the budget is spent.
fn is_spent_last(search: &mut Search, budget: u64) -> Result<(), Stop> {
    for _call in 1..budget {
        expect(sliced(search, 1)?.is_none())?;
    }
    expect(matches!(sliced(search, 1)?, Some(Event::Spent)))
}

/// The same of the search for the query.
fn spends(alloc: Global, text: &Text, query: u64, budget: u64) -> Result<(), Stop> {
    let mut search = search_of(alloc, text, query, budget)?;
    is_spent_last(&mut search, budget)
}

/// Slices of one call of the search for the query pause, until the budget is spent.
pub fn pauses(alloc: Global, world: &World, rest: &[&str]) -> Result<(), Stop> {
    let [name, query, budget] = rest else {
        return Err(Stop::NoStep);
    };
    let (query, budget) = (number_of(query)?, number_of(budget)?);
    let text = text_of(alloc, world.file(name)?, world.files.keys)?;
    spends(alloc, &text, query, budget)
}
