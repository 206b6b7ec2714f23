//! What holds of the text of answers.
ghost use Rattle.std.specs.Prelude.{◌≡◌, ℕ, List, flat_map};
ghost use Rattle.scasp_cert.specs.Certificate.{Certificate};
ghost use Rattle.scasp_cert.specs.Text.Block.{block_text};
ghost use Rattle.scasp_answers.specs.Blocks.Blocks.{block_lines, placed_text};

/// The text of a block is that of its lines, one below the other.
pub fn blocks_are_lines()
    ensures { (names : List (List ℕ)) (c : Certificate) (n : ℕ) → block_text names c n ≡ flat_map (placed_text names) (block_lines c n) }
{}
