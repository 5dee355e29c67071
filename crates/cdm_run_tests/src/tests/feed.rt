//! What files can't show of inputs, texts and whole runs: devices that give or take little or fail, and workers that
//! meet.
mod runs;

use super::asserts::assert_found;
use super::devices::{Page, Sink, Source, Stop};
use cdm_feed::{Device, FileFault, InputFault, WriteFault, read_input, write_text};
use cdm_flight::RefusalWord;
use std::alloc::Global;
use std::io::Write;

// Whether what was read is this text, or why nothing was.
fn compared(read: Result<Vec<u8>, InputFault>, text: &[u8]) -> Result<bool, InputFault> {
    match read {
        Ok(input) => Ok(input.as_slice() == text),
        Err(fault) => Err(fault),
    }
}

// Whether a text is read to its end, or why not, whether its device has failed then, and how many reads were made.
fn read_text(
    alloc: Global,
    at_a_time: usize,
    fails_at: usize,
) -> (Result<bool, InputFault>, bool, usize) {
    let mut device = Device::new(Source::new(b"abc", at_a_time, fails_at));
    let is_read = compared(read_input(alloc, &mut device), b"abc");
    let failed = device.failed();
    (is_read, failed, device.into_inner().reads)
}

#[test]
fn input_is_read_to_its_end_or_to_a_failed_read(rt: HostRuntime) {
    // How many bytes come at a time, which read fails, and how many reads are made.
    let table = [(1, 0, 4), (2, 0, 3), (9, 0, 2), (1, 1, 1), (1, 4, 4)];
    for (at_a_time, fails_at, reads) in table {
        let is_read = match fails_at {
            0 => Ok(true),
            _ => Err(InputFault::Failed),
        };
        let found = read_text(rt.alloc(), at_a_time, fails_at);
        let wanted = (is_read, fails_at != 0, reads);
        assert_found(&rt, found, wanted, (at_a_time, fails_at));
    }
}

// The fault of a text's writer that stops here, whether its device has failed then, whether it has this prefix, and how
// often it was flushed since its last write.
fn write_to(
    alloc: Global,
    text: &str,
    stop: Stop,
    prefix: &str,
) -> (Option<WriteFault>, bool, bool, usize) {
    let mut device = Device::new(Sink::new(alloc, stop));
    let fault = write_text(&mut device, text.as_bytes()).err();
    let failed = device.failed();
    let sink = device.into_inner();
    let has_prefix = sink.text.as_slice() == prefix.as_bytes();
    (fault, failed, has_prefix, sink.flushes_since_write)
}

#[test]
fn text_is_written_and_flushed_or_a_prefix_is_written(rt: HostRuntime) {
    // A text, where the writer stops, and what it has then.
    let table = [
        ("abc", Stop::Never, "abc"),
        ("", Stop::Never, ""),
        ("abc", Stop::Error(2), "a"),
        ("abc", Stop::NoByte(3), "ab"),
        ("abc", Stop::Flush, "abc"),
    ];
    for (text, stop, prefix) in table {
        let is_whole = stop == Stop::Never;
        let fault = (!is_whole).then_some(WriteFault);
        let found = write_to(rt.alloc(), text, stop, prefix);
        let wanted = (fault, !is_whole, true, usize::from(is_whole));
        assert_found(&rt, found, wanted, stop);
    }
}

// A page of faults, one in a line.
fn page_of_faults() -> Page {
    let file = FileFault::Refused(5, RefusalWord::Unknown);
    let mut page = Page::new();
    let _ = writeln!(page, "{WriteFault}\n{file}");
    for fault in [InputFault::Failed, InputFault::TooLong, InputFault::Memory] {
        let _ = writeln!(page, "{fault}");
    }
    page
}

#[test]
fn fault_texts(rt: HostRuntime) {
    let wanted = "\
the text cannot be written
record 5: UNKNOWN
the input cannot be read
the input is longer than 8388608 bytes
no memory is left for the input
";
    let page = page_of_faults();
    assert_found(&rt, page.text(), wanted.as_bytes(), "texts");
}
