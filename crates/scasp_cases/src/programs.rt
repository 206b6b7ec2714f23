//! Steps that read a program, or a file of answers.
use crate::stop::{Stop, expect, number_of};
use crate::world::World;
use scasp_answers::read_answers;
use scasp_command_trial::{trial_line, try_first};
use scasp_name::Names;
use scasp_print_program::print_program;
use scasp_reader::read_program;
use scasp_syntax::Program;
use std::alloc::Global;
use std::hash::RandomState;

/// The program that the bytes spell, and its names, which are hashed by the keys.
pub fn program_of(
    alloc: Global,
    bytes: &[u8],
    keys: RandomState,
) -> Result<(Program, Names), Stop> {
    match read_program(alloc, bytes, Names::new(alloc, keys)?) {
        Ok(read) => Ok(read),
        Err(_) => Err(Stop::Differs),
    }
}

/// The text of the program that the bytes spell.
fn written(alloc: Global, bytes: &[u8], keys: RandomState) -> Result<Vec<u8>, Stop> {
    let (program, names) = program_of(alloc, bytes, keys)?;
    Ok(print_program(alloc, &program, &names)?)
}

/// The program of the file is written as the text, and so is that of the text.
pub fn program(alloc: Global, world: &mut World, rest: &[&str], text: &[u8]) -> Result<(), Stop> {
    let [name] = rest else {
        return Err(Stop::NoStep);
    };
    let keys = world.files.keys;
    world.printed = written(alloc, world.file(name)?, keys)?;
    expect(world.printed.as_slice() == text)?;
    world.printed = written(alloc, text, keys)?;
    expect(world.printed.as_slice() == text)
}

/// The program of the file has so many clauses with its denials, queries, and names with the two that each table has.
pub fn counts(alloc: Global, world: &World, rest: &[&str]) -> Result<(), Stop> {
    let [name, clauses, queries, names] = rest else {
        return Err(Stop::NoStep);
    };
    let (program, table) = program_of(alloc, world.file(name)?, world.files.keys)?;
    expect(
        number_of(clauses)? == program.clauses.len() as u64
            && number_of(queries)? == program.queries.len() as u64
            && number_of(names)? == table.len(),
    )
}

/// The file of answers has so many entries.
pub fn entries(alloc: Global, world: &World, rest: &[&str]) -> Result<(), Stop> {
    let [name, number] = rest else {
        return Err(Stop::NoStep);
    };
    let mut names = Names::new(alloc, world.files.keys)?;
    match read_answers(alloc, world.file(name)?, &mut names) {
        Ok(entries) => expect(number_of(number)? == entries.len() as u64),
        Err(_) => Err(Stop::Differs),
    }
}

/// The trial of the program of the file, within so many calls, comes to the line of the text, as that of one node.
pub fn trial(alloc: Global, world: &mut World, rest: &[&str], text: &[u8]) -> Result<(), Stop> {
    let [name, budget] = rest else {
        return Err(Stop::NoStep);
    };
    let budget = number_of(budget)?;
    let (program, names) = program_of(alloc, world.file(name)?, world.files.keys)?;
    let tried = try_first(alloc, &program, budget, names.len())?;
    world.printed = trial_line(alloc, 1, tried)?;
    expect(world.printed.as_slice() == text)
}
