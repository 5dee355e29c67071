//! The whole lines of a journal.
ghost use Rattle.std.specs.Prelude.{◌≡◌, ◌≤◌, length, take};
ghost use Rattle.cdm_journal.specs.Journal.{whole_lines};

use memchr::memrchr;

/// How many bytes the whole lines of a journal have. A last line without a line feed was torn by a stop before its
/// record was on the disk, so no reply told it accepted.
pub fn whole_length(bytes: &[u8]) -> usize
    ensures within { result ≤ length bytes.now }
    ensures whole { take result bytes.now ≡ whole_lines bytes.now }
{
    memrchr(b'\n', bytes).map_or(0, |last| last + 1)
}
