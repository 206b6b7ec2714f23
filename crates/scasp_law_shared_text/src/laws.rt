//! Files of version 2, as they are printed.
ghost use Rattle.std.specs.Prelude.{◌≡◌, ℕ, true, List, length, flat_map, ◌≤◌, Ok};
ghost use Rattle.std.specs.List.{list_all};
ghost use Rattle.scasp_answers.specs.Blocks.Files.{byte_limit, file_in};
ghost use Rattle.scasp_law_answer_text.specs.LineReadback.Texts.{Piece, file_text, piece_entries, is_printable};
ghost use Rattle.scasp_law_answer_text.specs.LineReadback.Writable.{IsTable};
ghost use Rattle.scasp_law_shared_text.specs.Shared.{shared_file};

use scasp_answers::blocks::laws::blocks_are_lines;
use scasp_law_answer_text::line_readback::laws::texts_are_read_back;
use scasp_law_copies::laws::copies_are_read_written_out;
use scasp_print_shared::laws::copies_are_written_out;

/// A file of the header of version 2 and of what is printed, blocks with their copies, remarks between, is read as these
/// blocks, ends and rejected answers, in their order.
pub fn shared_texts_are_read_back()
    ensures { (names : List (List ℕ)) (pieces : List Piece) → IsTable names → list_all (is_printable (length names)) pieces ≡ true → length (file_text names pieces) ≤ byte_limit
        → file_in names (shared_file names pieces) ≡ Ok (flat_map piece_entries pieces) }
{
    blocks_are_lines();
    texts_are_read_back();
    copies_are_read_written_out();
    copies_are_written_out();
}
