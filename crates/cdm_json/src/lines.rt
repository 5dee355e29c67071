//! Lines of JSON.
ghost use Rattle.std.specs.Prelude.{◌≡◌, ◌≤◌, ◌++◌, ◌∷◌, [], ℕ, List, IfOk, OnOk, flat_map};
ghost use Rattle.json.specs.Json.{Json, max_depth};
ghost use Rattle.json.specs.Token.{begin_object};
ghost use Rattle.json.specs.Tree.{depth};
ghost use Rattle.cdm_row.specs.Json.{member_tokens, object_of};
ghost use Rattle.cdm_json.specs.Lines.{IsReadBack, head_members, json_line};

use cdm_row::{push_count, push_text};
use json::Writer;
use std::alloc::{AllocError, Global};

// Writes what stands before an answer's own members.
fn push_head(writer: &mut Writer<Global>, number: Option<u32>, word: &str) -> Result<(), AllocError>
    ensures tokens { OnOk result (writer.new.tokens ≡ writer.old.tokens ++ flat_map member_tokens (head_members number word.now)) }
    ensures before { writer.new.before ≡ writer.old.before }
{
    match number {
        Some(number) => {
            push_count(writer, "record", u64::from(number))?;
            push_text(writer, "reply", word)
        }
        None => Ok(()),
    }
}

/// Begins a line: the object of an answer, with the number of the record that asked and the word of the answer where it is a reply.
pub fn begin_line(
    alloc: Global,
    number: Option<u32>,
    word: &str,
) -> Result<Writer<Global>, AllocError>
    ensures tokens { IfOk result (λ writer. writer.tokens ≡ begin_object ∷ flat_map member_tokens (head_members number word.now)) }
    ensures before { IfOk result (λ writer. writer.before ≡ []) }
{
    let mut writer = Writer::new(Vec::new(alloc));
    writer.begin_object()?;
    push_head(&mut writer, number, word)?;
    Ok(writer)
}

/// Ends the object of a line, and the line.
pub fn end_line(mut writer: Writer<Global>) -> Result<Vec<u8>, AllocError>
    requires { writer.before ≡ [] }
    ensures line { IfOk result (λ text. (members : List (List ℕ × Json)) → writer.tokens ≡ begin_object ∷ flat_map member_tokens members
        → text.items ≡ json_line (object_of members)) }

    // Who reads the line has the object.
    ensures read_back { OnOk result ((members : List (List ℕ × Json)) → writer.tokens ≡ begin_object ∷ flat_map member_tokens members
        → depth (object_of members) ≤ max_depth → IsReadBack (object_of members)) }
{
    writer.end_object()?;
    let mut text = writer.into_inner();
    text.push(b'\n')?;
    Ok(text)
}
