//! The updates of a feed, and its refused records.
ghost use Rattle.std.specs.Prelude.{◌≡◌, ◌≤◌, ◌<◌, ◌+◌, ◌^◌, ◌∷◌, ◌++◌, ℕ, List, IfOk, OnOk, length};
ghost use Rattle.cdm_files.specs.Refused.{OwnWord, if_refused, own_words, refused_by_replies, updates_in};

use cdm_day::Reply;
use cdm_flight::{RefusalWord, Role, Update, push_last};
use std::alloc::{AllocError, Global};

/// The updates that the records of a feed spell, in order.
#[tactic(auto, unfolding(crate::specs::Refused::updates_in))]
pub fn updates_of(
    alloc: Global,
    parsed: &[Result<(Role, Update), RefusalWord>],
) -> Result<Vec<(Role, Update)>, AllocError>
    ensures { IfOk result (λ updates. updates.items ≡ updates_in parsed.now) }
{
    let mut updates = Vec::new(alloc);
    for spelled in parsed {
        if let Ok(update) = spelled {
            push_last(&mut updates, *update)?;
        }
    }
    Ok(updates)
}

/// The word that refuses each record of a feed in itself, in order: none of a record that spells an update.
pub fn words_of(
    alloc: Global,
    parsed: &[Result<(Role, Update), RefusalWord>],
) -> Result<Vec<Option<RefusalWord>>, AllocError>
    ensures { IfOk result (λ words. words.items ≡ own_words parsed.now) }
{
    let mut words = Vec::with_capacity(alloc, parsed.len())?;
    for spelled in parsed {
        push_last(&mut words, spelled.err())?;
    }
    Ok(words)
}

// The word that refuses a record, its own or that of the next of the replies, and the replies to the records behind it.
#[tactic(auto, unfolding(crate::specs::Refused::refused_by_replies))]
fn next_word<'a>(
    own: Option<RefusalWord>,
    replies: &'a [Reply],
) -> (Option<RefusalWord>, &'a [Reply])
    ensures { (number : ℕ) (later : List OwnWord) → refused_by_replies number (own ∷ later) replies.now
        ≡ if_refused number result.0 ++ refused_by_replies (number + 1) later result.1.now }
{
    match (own, replies) {
        (Some(word), _) => (Some(word), replies),
        (None, [Reply::Refused(word), later @ ..]) => (Some(*word), later),
        (None, [Reply::Accepted, later @ ..]) => (None, later),
        (None, []) => (None, replies),
    }
}

// One more record by its number, if a word refuses it.
fn push_if_refused(
    refused: &mut Vec<(u32, RefusalWord)>,
    number: u32,
    word: Option<RefusalWord>,
) -> Result<(), AllocError>
    ensures { OnOk result (refused.new.items ≡ refused.old.items ++ if_refused number word) }
{
    match word {
        Some(word) => push_last(refused, (number, word)),
        None => Ok(()),
    }
}

/// The refused records by their numbers in the feed, where so many stand before them and `words` has each
/// record's own word: those that have one, and those whose update has a reply that refuses it.
#[tactic(auto, unfolding(crate::specs::Refused::refused_by_replies))]
pub fn refusals_of(
    alloc: Global,
    before: u32,
    words: &[Option<RefusalWord>],
    replies: &[Reply],
) -> Result<Vec<(u32, RefusalWord)>, AllocError>
    requires { before + length words.now < 2 ^ 32 }
    ensures refused { IfOk result (λ refused. refused.items ≡ refused_by_replies (before + 1) words.now replies.now) }
    ensures few { IfOk result (λ refused. length refused.items ≤ length words.now) }
{
    let mut refused = Vec::new(alloc);
    let mut number = before;
    let mut left = replies;
    for own in words {
        number += 1;
        let (word, later) = next_word(*own, left);
        push_if_refused(&mut refused, number, word)?;
        left = later;
    }
    Ok(refused)
}
