//! A literal that was gone into, as it is kept.
use scasp_search_rules::CaseList;
use scasp_syntax::Lit;

/// A literal that was gone into, and the cases around it that are of no plain cover.
#[derive(Drop)]
pub struct Entry {
    pub lit: Lit,
    pub cases: CaseList,
}

/// What is marked of a literal that was gone into.
#[derive(Clone, Copy)]
pub struct Marks {
    pub is_done: bool,
    /// A positive loop leads out of it.
    pub loops: bool,
    /// It has a universal variable of a case that has ended.
    pub is_general: bool,
}

/// A literal that was gone into, with its marks.
#[derive(Clone, Copy)]
pub struct Entered<'a> {
    pub entry: &'a Entry,
    pub marks: Marks,
}
