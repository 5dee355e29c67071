//! What is told of a desk and of its feed.
ghost use Rattle.std.specs.Prelude.{◌≡◌, IfOk};
ghost use Rattle.cdm_live.specs.Live.{desk_line, desk_text};

use cdm_flight::RefusalWord;
use cdm_report::refused_text;
use std::alloc::{AllocError, Global};
use std::fmt::Write;

// A desk's line.
#[tactic(auto, unfolding(crate::specs::Live::desk_line))]
fn line_of(alloc: Global, desk: usize, posts: usize, refused: usize) -> Result<Vec<u8>, AllocError>
    ensures { IfOk result (λ text. text.items ≡ desk_line desk posts refused) }
{
    let mut text = String::new(alloc);
    writeln!(text, "DESK {desk} POSTS {posts} REFUSED {refused}")?;
    Ok(text.into_bytes())
}

/// The text of a desk: how many batches it posted, and the refused records of its feed.
#[tactic(auto, unfolding(crate::specs::Live::desk_text))]
pub(crate) fn desk_text(
    alloc: Global,
    desk: usize,
    posts: usize,
    refused: &[(u32, RefusalWord)],
) -> Result<Vec<u8>, AllocError>
    ensures { IfOk result (λ text. text.items ≡ desk_text desk posts refused.now) }
{
    let mut text = line_of(alloc, desk, posts, refused.len())?;
    for refusal in refused {
        let (number, word) = *refusal;
        text.append(&mut refused_text(alloc, number as usize, word)?)?;
    }
    Ok(text)
}
