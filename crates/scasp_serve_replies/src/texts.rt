//! The texts of replies.
ghost use Rattle.std.specs.Prelude.{◌≡◌, ◌++◌, codes, decimal, IfOk};
ghost use Rattle.scasp_cert.specs.Certificate.{certificate_of};
ghost use Rattle.scasp_serve_replies.specs.Texts as spec;

use crate::coming::NoAnswer;
use scasp_cert::Cert;
use scasp_list::Memory;
use scasp_name::Names;
use scasp_print::print_cert;
use scasp_print_words::{put, put_number};
use std::alloc::Global;

/// A line of words and a number.
pub(crate) fn number_line(alloc: Global, words: &str, number: u64) -> Result<Vec<u8>, Memory>
    ensures { IfOk result (λ text. text.items ≡ spec.number_line words.now number) }
{
    let mut text = Vec::new(alloc);
    put(&mut text, words)?;
    put(&mut text, " ")?;
    put_number(&mut text, number)?;
    put(&mut text, "\n")?;
    Ok(text)
}

/// A line of a session's number and a word.
pub(crate) fn session_line(alloc: Global, id: u64, word: &str) -> Result<Vec<u8>, Memory>
    ensures { IfOk result (λ text. text.items ≡ spec.session_line id word.now) }
{
    let mut text = Vec::new(alloc);
    put_number(&mut text, id)?;
    put(&mut text, " ")?;
    put(&mut text, word)?;
    put(&mut text, "\n")?;
    Ok(text)
}

/// The line that says that as many sessions are open as may be.
pub(crate) fn full_line(alloc: Global) -> Result<Vec<u8>, Memory>
    ensures { IfOk result (λ text. text.items ≡ codes "full\n") }
{
    let mut text = Vec::new(alloc);
    put(&mut text, "full\n")?;
    Ok(text)
}

/// The word for what comes in place of an answer.
pub(crate) fn word_of(none: NoAnswer) -> &'static str
    ensures { result.now ≡ spec.word_of none }
{
    match none {
        NoAnswer::Paused => "paused",
        NoAnswer::Ended => "ended",
        NoAnswer::Spent => "spent",
        NoAnswer::Overflow => "overflow",
    }
}

/// The line of an answer, and its block.
pub(crate) fn answer_text(
    alloc: Global,
    names: &Names,
    id: u64,
    number: u64,
    cert: &Cert,
) -> Result<Vec<u8>, Memory>
    ensures { IfOk result (λ text. text.items ≡ spec.answer_text names.now id number (certificate_of cert.now)) }
{
    let mut text = session_line(alloc, id, "answer")?;
    let block = print_cert(alloc, names, cert, number)?;
    text.extend_from_slice(block.as_slice())?;
    Ok(text)
}
