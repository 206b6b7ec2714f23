//! The line of a text that is refused.
ghost use Rattle.std.specs.Prelude.{◌≡◌, IfOk};
ghost use Rattle.scasp_command_inputs.specs.Halts.{IfLine};
ghost use Rattle.scasp_command_inputs.specs.Inputs.{Says};
ghost use Rattle.scasp_command_inputs.specs.Texts as spec;
ghost use Rattle.scasp_command_inputs.specs.declared.refusals.Input.TheVariants as input;

use crate::halt::Halt;
use crate::status::Status;
use itoa::Buffer;
use scasp_answers::{AnswerFault, AnswerKind};
use scasp_list::Memory;
use scasp_reader_terms::{Count, Fault, Kind};
use std::alloc::Global;

/// Which file of a command.
#[derive(Clone, Copy)]
pub enum Input {
    Program,
    Answers,
    Commands,
    Domain,
}

fn input_word(file: Input) -> &'static str
    ensures { result.now ≡ spec.input_word file }
{
    match file {
        Input::Program => "program",
        Input::Answers => "answers",
        Input::Commands => "commands",
        Input::Domain => "domain",
    }
}

/// The word of what has a limit.
fn count_word(count: Count) -> &'static str
    ensures { result.now ≡ spec.count_word count }
{
    match count {
        Count::Bytes => "bytes",
        Count::Clauses => "clauses",
        Count::Items => "items",
        Count::Variables => "variables",
        Count::Arity => "arity",
        Count::Depth => "depth",
    }
}

/// The word of what is wrong with a program's text.
fn kind_word(kind: Kind) -> &'static str
    ensures { result.now ≡ (spec.program_refusal kind).word }
{
    match kind {
        Kind::BadByte => "BadByte",
        Kind::Unclosed => "Unclosed",
        Kind::Expected => "Expected",
        Kind::Unsupported => "Unsupported",
        Kind::NotLinear => "NotLinear",
        Kind::NumberTooLarge => "NumberTooLarge",
        Kind::Limit(count) => count_word(count),
    }
}

/// Whether a count of a program's text passed its limit.
fn is_limit(kind: Kind) -> bool
    ensures { result ≡ (spec.program_refusal kind).limit }
{
    match kind {
        Kind::BadByte
        | Kind::Unclosed
        | Kind::Expected
        | Kind::Unsupported
        | Kind::NotLinear
        | Kind::NumberTooLarge => false,
        Kind::Limit(_) => true,
    }
}

/// The word of what is wrong with an answer file.
fn answer_kind_word(kind: AnswerKind) -> &'static str
    ensures { result.now ≡ (spec.answers_refusal kind).word }
{
    match kind {
        AnswerKind::Line => "Line",
        AnswerKind::Order => "Order",
        AnswerKind::Cut => "Cut",
        AnswerKind::NumberTooLarge => "NumberTooLarge",
        AnswerKind::Limit => "bytes",
    }
}

/// Whether an answer file is too long.
fn is_answer_limit(kind: AnswerKind) -> bool
    ensures { result ≡ (spec.answers_refusal kind).limit }
{
    match kind {
        AnswerKind::Line | AnswerKind::Order | AnswerKind::Cut | AnswerKind::NumberTooLarge =>
            false,
        AnswerKind::Limit => true,
    }
}

/// The line that tells why a file's text is refused, with its place.
fn refusal_text(
    alloc: Global,
    file: Input,
    at: u64,
    limit: bool,
    word: &str,
) -> Result<Vec<u8>, Memory>
    ensures { IfOk result (λ text. text.items ≡ spec.refusal_line file at (record { limit = limit; word = word.now })) }
{
    let first = if limit { "limit" } else { "text" };
    let mut text = Vec::from_slice(alloc, first.as_bytes())?;
    text.extend_from_slice(b" ")?;
    text.extend_from_slice(input_word(file).as_bytes())?;
    text.extend_from_slice(b" ")?;
    text.extend_from_slice(Buffer::new().format(at).as_bytes())?;
    text.extend_from_slice(b" ")?;
    text.extend_from_slice(word.as_bytes())?;
    text.extend_from_slice(b"\n")?;
    Ok(text)
}

/// The same line, and the status.
pub fn refusal(alloc: Global, file: Input, at: u64, limit: bool, word: &str) -> Halt
    ensures { IfLine result (Says (spec.refusal_line file at (record { limit = limit; word = word.now })) (spec.refusal_status (record { limit = limit; word = word.now }))) }
{
    let status = if limit { Status::Limit } else { Status::Text };
    match refusal_text(alloc, file, at, limit, word) {
        Ok(text) => Halt::Line(text, status),
        Err(Memory) => Halt::Memory,
    }
}

/// The line of a program's first fault.
pub(crate) fn program_refusal(alloc: Global, fault: Fault) -> Halt
    ensures { IfLine result (Says (spec.refusal_line input.Program fault.at (spec.program_refusal fault.kind)) (spec.refusal_status (spec.program_refusal fault.kind))) }
{
    let word = kind_word(fault.kind);
    refusal(alloc, Input::Program, fault.at, is_limit(fault.kind), word)
}

/// The line of the first fault of an answer file.
pub(crate) fn answers_refusal(alloc: Global, fault: AnswerFault) -> Halt
    ensures { IfLine result (Says (spec.refusal_line input.Answers fault.at (spec.answers_refusal fault.kind)) (spec.refusal_status (spec.answers_refusal fault.kind))) }
{
    let word = answer_kind_word(fault.kind);
    let limit = is_answer_limit(fault.kind);
    refusal(alloc, Input::Answers, fault.at, limit, word)
}
