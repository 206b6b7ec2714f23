//! What holds of the lines with their copies.
ghost use Rattle.std.specs.Prelude.{◌≡◌, ℕ, ◌+◌, ◌<◌, ◌^◌, true, not, List, length, Some};
ghost use Rattle.std.specs.List.{list_all};
ghost use Rattle.scasp_copies.specs.Pieces.{Piece};
ghost use Rattle.scasp_copies.specs.Writing.{is_copy_line, written_out};
ghost use Rattle.scasp_print_shared.specs.Shared.{shared_lines};

/// The lines with their copies, written out, are the lines.
pub fn copies_are_written_out()
    ensures { (told ps : List Piece) → length told + length ps < 2 ^ 64 → list_all (λ p. not (is_copy_line p)) ps ≡ true → written_out told (shared_lines told ps) ≡ Some ps }
{}
