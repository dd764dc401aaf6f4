//! What is promised of the table of a page: a law of the definitions alone, so the function does nothing.
ghost use Rattle.utf8_own_page.specs.Laws.{PagesAreCovered};

/// A page whose characters have room is covered by its table.
///
/// Proved: Where all that was counted of a page has room in a table, the page's own table has each letter with its marks that it has and
/// that takes a place: so in UTF-8 none of them is what it looks like. (`pages_that_fit_are_covered`, over `tables_that_fit_cover_all` and
/// `coded_texts_come_back`)
pub fn pages_that_fit_are_covered()
    ensures { PagesAreCovered }
{}
