// The limits that a line of the list of examples with limits sets, as in `stored=64 depth=2`.

use nr_engine::{Limit, Limits};

/// The limits by default, but for those that the words set.
pub(crate) fn limits_of(words: &str) -> anyhow::Result<Limits> {
    let mut limits = Limits::default();
    for word in words.split_whitespace() {
        set(&mut limits, word)?;
    }
    Ok(limits)
}

/// Sets the limit that a word names to its number.
fn set(limits: &mut Limits, word: &str) -> anyhow::Result<()> {
    let (name, digits) = word
        .split_once('=')
        .ok_or(anyhow::anyhow!("no limit: {word}"))?;
    let limit = match name {
        "stored" => Limit::Stored,
        "depth" => Limit::Depth,
        "cells" => Limit::Cells,
        "expansions" => Limit::Expansions,
        "moves" => Limit::Moves,
        _ => anyhow::bail!("no limit: {word}"),
    };
    let number = digits.parse::<u64>()?;
    if !limit.admits(number) {
        anyhow::bail!("out of range: {word}");
    }
    limits.set(limit, number);
    Ok(())
}
