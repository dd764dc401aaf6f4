//! In which way a row is read back: laws of the definitions alone, so the functions do nothing.
ghost use Rattle.utf8_own_characters.specs.Choosing.{ChoiceIsGood, NoneIsLost, AllFit, FewestAreSides, FirstComeFirst};
ghost use Rattle.utf8_own_characters.specs.Covering.{AllAreCovered};
ghost use Rattle.utf8_own_characters.specs.Fixed.{SameBytes, SameCharacters};
ghost use Rattle.utf8_own_characters.specs.Decoding.{ReadsText};
ghost use Rattle.utf8_own_characters.specs.Ranking.{Falls, KeepsAll, KeepsOnce};
ghost use Rattle.utf8_own_characters.specs.Laws.{Inverse, InverseWhole, OneWay, ColumnsAreBytes, ColumnsStay, HalvesAreApart};

/// The bytes of clusters that have a code are read back as these clusters, also where other bytes come after.
///
/// Proved: The bytes of clusters that have a code are read back as these clusters, whatever comes after, and no two
/// texts have the same bytes. (`bytes_are_read_back`, `rows_are_read_in_one_way`)
pub fn bytes_are_read_back()
    ensures after { Inverse }
    ensures whole { InverseWhole }
{}

/// No two texts have the same bytes, and no byte is a lead and a trail, so a row is read in one way and no pair is cut.
///
/// Proved: No byte is a lead and a trail, and neither is ASCII; a cluster has a byte for each of its columns, and a
/// row shows a column for each of its bytes, however it was laid over. (`rows_are_read_in_one_way`,
/// `columns_are_kept`)
pub fn rows_are_read_in_one_way()
    ensures texts { OneWay }
    ensures halves { HalvesAreApart }
{}

/// A cluster has a byte for each of its columns, and a row shows a column for each byte, however it was laid over.
pub fn columns_are_kept()
    ensures bytes { ColumnsAreBytes }
    ensures rows { ColumnsStay }
{}

/// What is chosen of clusters that are counted once each makes a table that is read in one way. Each of them is in the table or reported, and
/// where all have room, none is reported. Where one has no room, none of those after it that are as wide has.
///
/// Proved: What is chosen of clusters that are counted once each makes such a table; each of them is in it or reported,
/// where all have room none is reported, and where one has none, none of those after it that are as wide has: so those
/// that come most often are in it. (`choices_are_good`, `choose` in choosing.rt)
pub fn choices_are_good()
    ensures good { ChoiceIsGood }
    ensures none_lost { NoneIsLost }
    ensures all { AllFit }
    ensures first { FirstComeFirst }
{}

/// Where all clusters that were counted have room, the table that is made of them has each that came.
///
/// Proved: Where all clusters that were counted have room in a table, that which is made of them has each that came and takes a place; of
/// at most 4,224 that have room none is counted too late. (`tables_that_fit_cover_all`)
pub fn tables_that_fit_cover_all()
    ensures { AllAreCovered }
{}

/// A text in UTF-8 is read as its characters.
///
/// Proved: A text in UTF-8 is read as its characters, for every list of characters. (`texts_are_read`, `Part::read` in
/// decoding.rt)
pub fn texts_are_read()
    ensures { ReadsText }
{}

/// Of clusters that are ranked none comes less often than one after it, and each that was counted still is, once.
///
/// Proved: What is ranked falls: none comes less often than one after it; each that was counted still is, and no
/// other. (`ranked_clusters_fall`, `rank` in ranking.rt)
pub fn ranked_clusters_fall()
    ensures falls { Falls }
    ensures all { KeepsAll }
    ensures once { KeepsOnce }
{}

/// The trails are the least number whose square reaches that of the wide clusters, and the leads as few as reach it with them.
///
/// Proved: The trails are the least number whose square reaches that of the wide clusters, and the leads as few as
/// reach it with them. (`halves_are_fewest`, `halves_for` in choosing.rt)
pub fn halves_are_fewest()
    ensures { FewestAreSides }
{}

/// A character beyond ASCII has in a fixed table, as a table like those of a page, the byte that it has there, and a byte the character.
pub fn fixed_tables_are_tables()
    ensures bytes { SameBytes }
    ensures characters { SameCharacters }
{}
