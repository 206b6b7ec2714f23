//! What trees are shown by.
use crate::trees::numbering::item_numbered;
use crate::trees::wording::Wording;
use scasp_name::Names;
use std::marker::Model;

/// What trees are shown by: the table of names, the clauses in words, and whether blanks alone show how deep a line stands.
#[derive(Drop)]
pub struct View<'a> {
    names: &'a Names,
    clauses: &'a [Wording],
    plain: bool,
}

impl<'a> Model for View<'a> {
    ghost use Rattle.scasp_view_top.specs.Trees.Settings.{Setting};

    ghost Value = { Setting };

    ghost view = { λ v. record { names = v.names.now; clauses = v.clauses.now; plain = v.plain } };
}

impl<'a> View<'a> {
    ghost use Rattle.std.specs.Prelude.{◌≡◌, option_copied};
    ghost use Rattle.scasp_syntax.specs.Programs.{numbered};

    /// What is shown by these.
    pub fn new(names: &'a Names, clauses: &'a [Wording], plain: bool) -> View<'a>
        ensures { result ≡ record { names = names.now; clauses = clauses.now; plain = plain } }
    {
        View {
            names,
            clauses,
            plain,
        }
    }

    /// The table of names.
    pub fn names(&self) -> &Names
        ensures { result.now ≡ self.now.names }
    {
        self.names
    }

    /// The clause of this number, counted from 1.
    pub fn clause(&self, number: u64) -> Option<&Wording>
        ensures { option_copied result ≡ numbered self.now.clauses number }
    {
        item_numbered(self.clauses, number)
    }

    /// Whether blanks alone show how deep a line stands.
    pub fn is_plain(&self) -> bool
        ensures { result ≡ self.now.plain }
    {
        self.plain
    }
}
