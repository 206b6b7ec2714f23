//! What is written is read back.
ghost use Rattle.std.specs.Prelude.{◌≡◌, ℕ, List, [], ◌∷◌, Some};
ghost use Rattle.scasp_cert.specs.Certificate.{Certificate};
ghost use Rattle.scasp_answers_terms.specs.Tokens.Lines.{header_line};
ghost use Rattle.scasp_answers.specs.Blocks.Blocks.{at, block_lines};
ghost use Rattle.scasp_answers.specs.Blocks.States.{State, between, first_state};
ghost use Rattle.scasp_law_answer_text.specs.AnswerReadback.Reading.{read_placed, with_block, has_read, blocks_lines, blocks};

/// Between entries the lines of a block are read as this block.
pub fn blocks_are_read_back()
    ensures { (s : State) (c : Certificate) (n : ℕ) → s.phase ≡ between → s.opens ≡ [] → read_placed s (block_lines c n) ≡ Some (with_block s c n) }
{}

/// A header and the lines of blocks are read as these blocks, in their order.
pub fn files_are_read_back()
    ensures { (answers : List (ℕ × Certificate)) → read_placed first_state (at 0 (header_line 1) ∷ blocks_lines answers) ≡ Some (has_read (blocks answers)) }
{}
