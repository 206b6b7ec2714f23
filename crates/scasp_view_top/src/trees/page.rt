//! A page on which rows are put.
use scasp_list::Memory;
use scasp_print_words::{put, put_number};
use std::alloc::Global;
use std::marker::Model;

/// What has been written, and the number of the next row.
#[derive(Drop)]
pub(crate) struct Page {
    text: Vec<u8>,
    line: u64,
}

impl Model for Page {
    ghost use Rattle.scasp_view_top.specs.Trees.Pages.{Written};

    ghost Value = { Written };

    ghost view = { λ p. record { text = p.text.items; line = p.line } };
}

impl Page {
    ghost use Rattle.std.specs.Prelude.{◌≡◌, OnOk};
    ghost use Rattle.scasp_view_top.specs.Trees.Pages.{page_of, with_row};
    ghost use Rattle.scasp_view_top.specs.Trees.Rows.{hidden, shown};

    /// A page with this text, behind which rows are numbered from 1.
    pub(crate) fn new(text: Vec<u8>) -> Page
        ensures { result ≡ page_of text.items }
    {
        Page { text, line: 1 }
    }

    /// The text.
    pub(crate) fn into_text(self) -> Vec<u8>
        ensures { result.items ≡ self.text }
    {
        let Page { text, .. } = self;
        text
    }

    /// The allocator of the text.
    pub(crate) fn allocator(&self) -> Global {
        *self.text.allocator()
    }

    /// Passes the number of a row over.
    pub(crate) fn pass(&mut self) -> Result<(), Memory>
        ensures { OnOk result (self.new ≡ with_row self.old hidden) }
    {
        self.line = self.line.checked_add(1).ok_or(Memory)?;
        Ok(())
    }

    /// Puts a row on it: its number, a tab, what stands before the label, and the label.
    pub(crate) fn put(&mut self, lead: &[u8], label: &[u8]) -> Result<(), Memory>
        ensures { OnOk result (self.new ≡ with_row self.old (shown lead.now label.now)) }
    {
        put_number(&mut self.text, self.line)?;
        put(&mut self.text, "\t")?;
        self.text.extend_from_slice(lead)?;
        self.text.extend_from_slice(label)?;
        self.line = self.line.checked_add(1).ok_or(Memory)?;
        Ok(())
    }
}
