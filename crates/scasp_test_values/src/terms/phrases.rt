//! Terms read from tokens.
use scasp_name::Names;
use scasp_reader_terms::Reader;
use scasp_reader_tokens::{Placed, tokens};
use scasp_syntax::{Term, size};
use std::alloc::Global;
use std::hash::RandomState;
use std::test::Fail;

/// Texts, and the size of the term at the front, if there is one.
static TEXTS: [(&[u8], Option<u64>); 5] = [
    (b"a", Some(1)),
    (b"f(X,[a|X],-3/4)", Some(6)),
    (b"[]", Some(1)),
    (b"f(", None),
    (b"1/0", None),
];

/// The term that these tokens begin with, if there is one.
fn term(alloc: Global, all: &[Placed], names: Names) -> Option<Term> {
    let mut reader = Reader::new(alloc, all, names);
    reader.term(alloc, 200).ok()
}

fn size_of(alloc: Global, bytes: &[u8], keys: RandomState) -> Result<Option<u64>, Fail> {
    let all = tokens(alloc, bytes)?;
    let names = Names::new(alloc, keys)?;
    match term(alloc, all.as_slice(), names) {
        Some(term) => Ok(Some(size(alloc, &term)?)),
        None => Ok(None),
    }
}

#[test]
fn terms_are_read(rt: HostRuntime) -> Result<(), Fail> {
    let keys = RandomState::new(&rt)?;
    for (bytes, wanted) in &TEXTS {
        assert_eq!(rt; size_of(rt.alloc(), bytes, keys)?, *wanted);
    }
    Ok(())
}
