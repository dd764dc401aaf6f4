//! The characters of a text become clusters.
ghost use Rattle.std.specs.Prelude.{◌≡◌};
ghost use Rattle.utf8_own_characters.specs.Joining as specs;

use super::cluster::{Cluster, is_mark};
use unicode_normalization::char::compose;
use unicode_width::UnicodeWidthChar;

/// What comes of a character of a text.
#[derive(Clone, Copy, Debug, PartialEq, Eq)]
pub struct Heard {
    /// The cluster that ends before it, if one does.
    pub done: Option<Cluster>,
    /// The cluster that is being read. At the end of the text it ends.
    pub held: Option<Cluster>,
}

/// A mark after others. A fourth one is dropped.
fn marked(cluster: Cluster, mark: char) -> Cluster
    ensures { result ≡ specs.marked cluster mark }
{
    if cluster.first_mark == '\0' {
        Cluster {
            first_mark: mark,
            ..cluster
        }
    } else if cluster.second_mark == '\0' {
        Cluster {
            second_mark: mark,
            ..cluster
        }
    } else if cluster.third_mark == '\0' {
        Cluster {
            third_mark: mark,
            ..cluster
        }
    } else {
        cluster
    }
}

/// A cluster with one more mark.
pub(crate) fn with_mark(cluster: Cluster, mark: char) -> Cluster
    ensures { result ≡ specs.with_mark cluster mark }
{
    if cluster.first_mark != '\0' {
        return marked(cluster, mark);
    }
    match compose(cluster.letter, mark) {
        Some(character) => Cluster::single(character),
        None => marked(cluster, mark),
    }
}

/// Whether marks can be put on a cluster.
fn takes_marks(cluster: &Cluster) -> bool
    ensures { result ≡ specs.takes_marks cluster.now }
{
    cluster.letter.width().is_some()
}

/// A mark comes.
fn hear_mark(held: Option<Cluster>, mark: char) -> Heard
    ensures { result ≡ specs.hear_mark held mark }
{
    match held {
        Some(cluster) if takes_marks(&cluster) => Heard {
            done: None,
            held: Some(with_mark(cluster, mark)),
        },
        _ => Heard {
            done: held,
            held: Some(with_mark(Cluster::single(' '), mark)),
        },
    }
}

/// A character of a text comes, where a cluster may be half read.
///
/// Proved: The clusters of a text, their counts, the bytes of one and what a byte of a row shows are those of the
/// definitions, wherever the slots say to look first; the bytes of a fixed table, as such a table, are those of
/// utf8_characters (`fixed_tables_are_tables`). (`hear`, `count_cluster`, `OwnTable::code`, `OwnTable::read`, counting.rt,
/// table.rt, reading.rt)
pub fn hear(held: Option<Cluster>, character: char) -> Heard
    ensures { result ≡ specs.hear held character }
{
    if is_mark(character) {
        return hear_mark(held, character);
    }
    Heard {
        done: held,
        held: Some(Cluster::single(character)),
    }
}
