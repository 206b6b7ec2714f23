//! The events of a search.
use crate::programs::program_of;
use crate::stop::{Stop, expect, number_of};
use crate::world::World;
use scasp_name::Names;
use scasp_print::print_cert;
use scasp_written::{Event, Written};
use std::alloc::Global;
use std::hash::RandomState;
use std::str;

/// A budget with some to spare.
const SERVES: u64 = 50_000;

/// What the lines of an event begin with.
pub const MARK: &str = "calls ";

/// An event, as the text tells it: how many calls come before it, and its lines.
#[derive(Clone, Copy)]
struct Told<'a> {
    calls: u64,
    lines: &'a str,
}

/// The events that the text tells.
fn events_of(alloc: Global, text: &str) -> Result<Vec<Told<'_>>, Stop> {
    let mut all = Vec::new(alloc);
    for part in text.split(MARK).skip(1) {
        let Some((calls, lines)) = part.split_once('\n') else {
            return Err(Stop::NoStep);
        };
        let calls = number_of(calls)?;
        all.push(Told { calls, lines })?;
    }
    Ok(all)
}

/// What comes within the budget in place of the event.
fn within(told: Told, budget: u64) -> Told {
    if told.calls <= budget {
        told
    } else {
        Told {
            calls: budget,
            lines: "spent\n",
        }
    }
}

/// The lines of the event.
pub fn lines_of(alloc: Global, names: &Names, event: &Event) -> Result<Vec<u8>, Stop> {
    match event {
        Event::Answer(cert) => Ok(print_cert(alloc, names, cert, 1)?),
        Event::Ended => Ok(Vec::from_slice(alloc, b"ended\n")?),
        Event::Spent => Ok(Vec::from_slice(alloc, b"spent\n")?),
        Event::Overflow => Ok(Vec::from_slice(alloc, b"overflow\n")?),
    }
}

/// The next event of the search is this one.
fn met(alloc: Global, names: &Names, search: &mut Written, told: Told) -> Result<(), Stop> {
    let event = search.next()?;
    let lines = lines_of(alloc, names, &event)?;
    expect(lines.as_slice() == told.lines.as_bytes() && search.calls() == told.calls)
}

/// The number of a query of the program that the bytes spell, whose names are hashed by the keys.
#[derive(Clone, Copy)]
struct Asked<'a> {
    bytes: &'a [u8],
    keys: RandomState,
    query: u64,
}

/// A search for the query, and the names of the program and of samples: `w0` and `w1`.
fn search_of(alloc: Global, asked: Asked, budget: u64) -> Result<(Written, Names), Stop> {
    let (program, mut names) = program_of(alloc, asked.bytes, asked.keys)?;
    if program.query(asked.query).is_none() {
        return Err(Stop::NoStep);
    }
    let search = Written::open(alloc, &program, asked.query, budget, names.len())?;
    let _first = names.intern("w0")?;
    let _second = names.intern("w1")?;
    Ok((search, names))
}

/// The events of the query within the budget are the ones that are told.
fn all_met(alloc: Global, asked: Asked, budget: u64, events: &[Told]) -> Result<(), Stop> {
    let (mut search, names) = search_of(alloc, asked, budget)?;
    for event in events {
        met(alloc, &names, &mut search, within(*event, budget))?;
    }
    expect(!events.is_empty())
}

/// The query of this number of the program of the file.
fn asked_of<'a>(world: &'a World, name: &str, query: &str) -> Result<Asked<'a>, Stop> {
    Ok(Asked {
        bytes: world.file(name)?,
        keys: world.files.keys,
        query: number_of(query)?,
    })
}

/// The events of the query are those of the text: for each of them within the budget that just serves for it, and within one less;
/// and within the budgets that stand behind the query.
pub fn events(alloc: Global, world: &World, rest: &[&str], text: &[u8]) -> Result<(), Stop> {
    let ([name, query, budgets @ ..], Ok(text)) = (rest, str::from_utf8(text)) else {
        return Err(Stop::NoStep);
    };
    let asked = asked_of(world, name, query)?;
    let told = events_of(alloc, text)?;
    let all = told.as_slice();
    for event in all {
        all_met(alloc, asked, event.calls, all)?;
        all_met(alloc, asked, event.calls.saturating_sub(1), all)?;
    }
    for budget in budgets {
        all_met(alloc, asked, number_of(budget)?, all)?;
    }
    Ok(())
}

/// The search for the query has so many answers, and then ends.
pub fn answers(alloc: Global, world: &World, rest: &[&str]) -> Result<(), Stop> {
    let [name, query, number] = rest else {
        return Err(Stop::NoStep);
    };
    let asked = asked_of(world, name, query)?;
    let (mut search, _names) = search_of(alloc, asked, SERVES)?;
    for _answer in 0..number_of(number)? {
        expect(matches!(search.next()?, Event::Answer(_)))?;
    }
    expect(matches!(search.next()?, Event::Ended))
}
