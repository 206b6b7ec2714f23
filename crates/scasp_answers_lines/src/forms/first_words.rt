//! The first words of lines.
ghost use Rattle.std.specs.Prelude.{◌≡◌};
ghost use Rattle.scasp_answers_lines.specs.Forms.FirstWords.{text_of, candidate, NamesWord};

/// The first word of a node.
#[derive(Clone, Copy)]
pub enum NodeWord {
    Pos,
    Neg,
    Loop,
    Seen,
    Test,
}

/// The first word of a rule or a case.
#[derive(Clone, Copy)]
pub enum CaseWord {
    Rule,
    Split,
    Void,
    Leaf,
    Head,
}

/// The first word of another line in a block.
#[derive(Clone, Copy)]
pub enum BlockWord {
    Answer,
    Given,
    Sample,
    Tree,
    Check,
    Clash,
    Map,
    End,
}

/// The first word of a line between blocks.
#[derive(Clone, Copy)]
pub enum FileWord {
    Scasp,
    Ended,
    Stopped,
    Spent,
    Overflow,
    Rejected,
}

/// The first word of a line.
#[derive(Clone, Copy)]
pub enum FirstWord {
    Node(NodeWord),
    Case(CaseWord),
    Block(BlockWord),
    File(FileWord),
}

impl FirstWord {
    /// Its text.
    fn text(self) -> &'static str
        ensures { result.now ≡ text_of self }
    {
        match self {
            FirstWord::Node(NodeWord::Pos) => "pos",
            FirstWord::Node(NodeWord::Neg) => "neg",
            FirstWord::Node(NodeWord::Loop) => "loop",
            FirstWord::Node(NodeWord::Seen) => "seen",
            FirstWord::Node(NodeWord::Test) => "test",
            FirstWord::Case(CaseWord::Rule) => "rule",
            FirstWord::Case(CaseWord::Split) => "split",
            FirstWord::Case(CaseWord::Void) => "void",
            FirstWord::Case(CaseWord::Leaf) => "leaf",
            FirstWord::Case(CaseWord::Head) => "head",
            FirstWord::Block(BlockWord::Answer) => "answer",
            FirstWord::Block(BlockWord::Given) => "given",
            FirstWord::Block(BlockWord::Sample) => "sample",
            FirstWord::Block(BlockWord::Tree) => "tree",
            FirstWord::Block(BlockWord::Check) => "check",
            FirstWord::Block(BlockWord::Clash) => "clash",
            FirstWord::Block(BlockWord::Map) => "map",
            FirstWord::Block(BlockWord::End) => "end",
            FirstWord::File(FileWord::Scasp) => "scasp",
            FirstWord::File(FileWord::Ended) => "ended",
            FirstWord::File(FileWord::Stopped) => "stopped",
            FirstWord::File(FileWord::Spent) => "spent",
            FirstWord::File(FileWord::Overflow) => "overflow",
            FirstWord::File(FileWord::Rejected) => "rejected",
        }
    }
}

/// The only first word that this may be, told from its first letters, those of frequent lines first.
#[tactic(auto, unfolding(crate::specs::Forms::FirstWords::candidate))]
fn candidate(word: &str) -> Option<FirstWord>
    ensures { result ≡ candidate word.now }
{
    match word.as_bytes() {
        [b'p', ..] => Some(FirstWord::Node(NodeWord::Pos)),
        [b'r', b'u', ..] => Some(FirstWord::Case(CaseWord::Rule)),
        [b'l', b'e', ..] => Some(FirstWord::Case(CaseWord::Leaf)),
        [b'n', ..] => Some(FirstWord::Node(NodeWord::Neg)),
        [b'l', ..] => Some(FirstWord::Node(NodeWord::Loop)),
        [b't', b'e', ..] => Some(FirstWord::Node(NodeWord::Test)),
        [b'h', ..] => Some(FirstWord::Case(CaseWord::Head)),
        [b'v', ..] => Some(FirstWord::Case(CaseWord::Void)),
        [b's', b'e', ..] => Some(FirstWord::Node(NodeWord::Seen)),
        [b's', b'p', b'l', ..] => Some(FirstWord::Case(CaseWord::Split)),
        [b'c', b'h', ..] => Some(FirstWord::Block(BlockWord::Check)),
        [b't', ..] => Some(FirstWord::Block(BlockWord::Tree)),
        [b'a', ..] => Some(FirstWord::Block(BlockWord::Answer)),
        [b'g', ..] => Some(FirstWord::Block(BlockWord::Given)),
        [b's', b'a', ..] => Some(FirstWord::Block(BlockWord::Sample)),
        [b'c', ..] => Some(FirstWord::Block(BlockWord::Clash)),
        [b'm', ..] => Some(FirstWord::Block(BlockWord::Map)),
        [b'e', b'n', b'd', b'e', ..] => Some(FirstWord::File(FileWord::Ended)),
        [b'e', ..] => Some(FirstWord::Block(BlockWord::End)),
        [b's', b'c', ..] => Some(FirstWord::File(FileWord::Scasp)),
        [b's', b't', ..] => Some(FirstWord::File(FileWord::Stopped)),
        [b's', ..] => Some(FirstWord::File(FileWord::Spent)),
        [b'o', ..] => Some(FirstWord::File(FileWord::Overflow)),
        [b'r', ..] => Some(FirstWord::File(FileWord::Rejected)),
        _ => None,
    }
}

/// The first word that this is, if it is one.
pub fn first_word(word: &str) -> Option<FirstWord>
    ensures { NamesWord word.now result }
{
    let first = candidate(word)?;
    if word == first.text() {
        return Some(first);
    }
    None
}
