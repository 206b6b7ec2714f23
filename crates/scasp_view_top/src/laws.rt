//! What holds of a program with numbers, and of answers that are shown once.
ghost use Rattle.scasp_view_top.specs.Program.Meaning as numbers;
ghost use Rattle.scasp_view_top.specs.Blocks.Meaning as once;

/// Without the numbers, and without the generated denials, the lines are the text of the program.
pub fn numbers_are_added()
    ensures { numbers.NumbersAreAdded }
{}

/// So what is read of the text of the program is read of these lines without numbers.
pub fn lines_are_read_as_the_text()
    ensures { numbers.LinesAreReadAsTheText }
{}

/// The first block of each key is shown, whole and in order.
pub fn shows_the_first()
    ensures { once.ShowsTheFirst }
{}

/// All others are counted as left out.
pub fn counts_the_others()
    ensures { once.CountsTheOthers }
{}

/// What is left out has the query, the verdict, the terms and the given constraints of a block that is shown.
pub fn left_out_is_shown()
    ensures { once.LeftOutIsShown }
{}
