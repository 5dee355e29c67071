//! What could help a flight, as one line of JSON that replies to a question.
ghost use Rattle.std.specs.Prelude.{◌≡◌, ◌++◌, All, IfOk, OnOk, flat_map, map};
ghost use Rattle.json.specs.Tree.{json_tokens};
ghost use Rattle.cdm_row.specs.Columns.{value_of};
ghost use Rattle.cdm_row.specs.Json.{member_tokens, object_of};
ghost use Rattle.cdm_options.specs.Tried.{EndsInTime};
ghost use Rattle.cdm_options_text.specs.Objects.{help_object, helping_member, member_of, options_reply};

use crate::line::sent;
use crate::objects::{Member, flight_members, help_members, push_members};
use cdm_json::{begin_line, end_line};
use cdm_options::{Helping, Options};
use cdm_time::{Day, Minute};
use json::Writer;
use std::alloc::{AllocError, Global};

// Writes the object of these members.
fn push_object(
    writer: &mut Writer<Global>,
    day: Day,
    members: &[Member<'_>],
) -> Result<(), AllocError>
    ensures tokens { OnOk result (writer.new.tokens
        ≡ writer.old.tokens ++ json_tokens (object_of (map (member_of day) (map (λ m. (m.0.now, value_of m.1)) members.now)))) }
    ensures before { writer.new.before ≡ writer.old.before }
{
    writer.begin_object()?;
    push_members(writer, day, members)?;
    writer.end_object()
}

// Writes the object of a record that helps.
fn push_help(
    alloc: Global,
    writer: &mut Writer<Global>,
    day: Day,
    before: &Option<Minute>,
    help: &Helping,
) -> Result<(), AllocError>
    requires { EndsInTime help.now.update }
    ensures tokens { OnOk result (writer.new.tokens ≡ writer.old.tokens ++ json_tokens (help_object day before.now help.now)) }
    ensures before { writer.new.before ≡ writer.old.before }
{
    let line = sent(alloc, day, &help.update)?;
    push_object(writer, day, &help_members(before, help, &line))
}

// Writes the objects of the records that help, one after another.
fn push_each(
    alloc: Global,
    writer: &mut Writer<Global>,
    day: Day,
    options: &Options,
) -> Result<(), AllocError>
    requires { All (λ h. EndsInTime h.update) options.now.helping }
    ensures tokens { OnOk result (writer.new.tokens ≡ writer.old.tokens ++ flat_map json_tokens (map (help_object day options.now.before) options.now.helping)) }
    ensures before { writer.new.before ≡ writer.old.before }
{
    let helping = options.helping.as_slice();
    for help in helping {
        push_help(alloc, writer, day, &options.before, help)?;
    }
    Ok(())
}

// Writes the member of the records that help.
fn push_helping(
    alloc: Global,
    writer: &mut Writer<Global>,
    day: Day,
    options: &Options,
) -> Result<(), AllocError>
    requires { All (λ h. EndsInTime h.update) options.now.helping }
    ensures tokens { OnOk result (writer.new.tokens ≡ writer.old.tokens ++ flat_map member_tokens (helping_member day options.now)) }
    ensures before { writer.new.before ≡ writer.old.before }
{
    writer.key("options")?;
    writer.begin_array()?;
    push_each(alloc, writer, day, options)?;
    writer.end_array()
}

/// What could help a flight, as the line that replies to the question of this number.
pub(crate) fn options_reply(
    alloc: Global,
    number: u32,
    day: Day,
    options: &Options,
) -> Result<Vec<u8>, AllocError>
    requires { All (λ h. EndsInTime h.update) options.now.helping }
    ensures { IfOk result (λ text. text.items ≡ options_reply number day options.now) }
{
    let mut writer = begin_line(alloc, Some(number), "OPTIONS")?;
    push_members(&mut writer, day, &flight_members(options))?;
    push_helping(alloc, &mut writer, day, options)?;
    end_line(writer)
}
