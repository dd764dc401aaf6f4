// What holds of each page.
ghost use Rattle.man_lint.specs.Laws.{ComplaintsHaveLines};

/// Each complaint is of a line of the page.
///
/// Proved: The line that a complaint about a page names is one of the page's lines.
pub fn complaints_have_lines()
    ensures { ComplaintsHaveLines }
{}
