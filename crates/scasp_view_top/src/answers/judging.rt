//! What is said of a block.
ghost use Rattle.std.specs.Prelude.{◌≡◌, ◌++◌, IfOk, OnOk, map};
ghost use Rattle.scasp_answers.specs.Files.View.{entry_of};
ghost use Rattle.scasp_cert.specs.Certificate.{certificate_of};
ghost use Rattle.scasp_command_check.specs.Texts.{is_accepted};
ghost use Rattle.scasp_view_top.specs.Answers as spec;
ghost use Rattle.scasp_view_top.specs.Blocks.View.{judgement_of};

use crate::blocks::Judged;
use crate::clauses::query_line;
use scasp_answers::{Block, Entry};
use scasp_command_check::{Worth, block_line, find_worth};
use scasp_list::Memory;
use scasp_name::Names;
use scasp_syntax::Program;
use std::alloc::Global;

/// Whether a block that is worth so much is accepted.
fn is_accepted(worth: Worth) -> bool
    ensures { result ≡ is_accepted worth }
{
    match worth {
        Worth::Right | Worth::Joins(_) => true,
        Worth::Refused(_) => false,
    }
}

/// Whether answers to this query are shown, where one is asked for.
fn asks(asked: Option<u64>, query: u64) -> bool
    ensures { result ≡ spec.asks asked query }
{
    match asked {
        None => true,
        Some(asked) => asked == query,
    }
}

/// A block with what is said of it, where its certificate is worth so much.
fn judge_by<'a>(
    alloc: Global,
    worth: Worth,
    program: &Program,
    names: &Names,
    block: &'a Block,
) -> Result<Judged<'a>, Memory>
    ensures { IfOk result (λ judged. judgement_of judged ≡ spec.judgement_by worth program.now names.now block.now.answer (certificate_of block.now.cert)) }
{
    let cert = &block.cert;
    let verdict = block_line(alloc, block.answer, cert, worth)?;
    let shared = block_line(alloc, 0, cert, worth)?;
    let query = query_line(alloc, program, names, cert.query, &cert.terms)?;
    Ok(Judged {
        verdict,
        worth: shared,
        accepted: is_accepted(worth),
        query,
        cert,
    })
}

/// A block with what is said of it.
#[tactic(auto, unfolding(crate::specs::Answers::judgement))]
fn judge<'a>(
    alloc: Global,
    program: &Program,
    names: &Names,
    block: &'a Block,
) -> Result<Judged<'a>, Memory>
    ensures { IfOk result (λ judged. judgement_of judged ≡ spec.judgement program.now names.now block.now.answer (certificate_of block.now.cert)) }
{
    let worth = find_worth(alloc, program, &block.cert)?;
    judge_by(alloc, worth, program, names, block)
}

/// Puts a block at the end with what is said of it, where its query is asked for.
fn put_block<'a>(
    blocks: &mut Vec<Judged<'a>>,
    program: &Program,
    names: &Names,
    asked: Option<u64>,
    block: &'a Block,
) -> Result<(), Memory>
    ensures { OnOk result (map judgement_of blocks.new.items ≡ map judgement_of blocks.old.items ++ spec.judged_block program.now names.now asked block.now.answer (certificate_of block.now.cert)) }
{
    if !asks(asked, block.cert.query) {
        return Ok(());
    }
    let judged = judge(*blocks.allocator(), program, names, block)?;
    blocks.push(judged)?;
    Ok(())
}

/// The same of an entry, where it is a block.
pub(crate) fn put_entry<'a>(
    blocks: &mut Vec<Judged<'a>>,
    program: &Program,
    names: &Names,
    asked: Option<u64>,
    entry: &'a Entry,
) -> Result<(), Memory>
    ensures { OnOk result (map judgement_of blocks.new.items ≡ map judgement_of blocks.old.items ++ spec.judged_in program.now names.now asked (entry_of entry.now)) }
{
    match entry {
        Entry::Block(block) => put_block(blocks, program, names, asked, block),
        Entry::Ended(_, _) | Entry::Rejected(_, _, _, _) => Ok(()),
    }
}
