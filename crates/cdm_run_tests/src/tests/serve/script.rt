//! A day that is served: its airport, the journal that it begins with, and the lines of its input.

/// A line of the input, what is replied to it with sentences, and what it puts into the journal. A line with an LF stands for one
/// that is passed over.
pub type Row = (&'static str, &'static str, &'static str);

/// An airport with one runway, on which two flights take off in ten minutes.
pub const AIRPORT: &str = "\
DAY,2025-03-10
RUNWAY,27L,10,2
TAXI,*,27L,15
TAXI,A1,27L,10
";

/// Two records, one with a quoted field and one that CR LF ends.
pub const BEGUN: &str = "AP,\"FLT\",AB1,5\nATC,RWY,AB1,27L\r\n";

/// The same as a journal's own lines.
pub const OWN: &str = "AP,FLT,AB1,5\nATC,RWY,AB1,27L\n";

/// The first part of a record that a stop has torn.
pub const TORN: &str = "AO,TOBT,AB1,2025-0";

/// What is replied at a start on the two.
pub const READY: &str = "READY 2\n";

/// The lines of a day.
pub const SCRIPT: &[Row] = &[
    (
        "AO,TOBT,AB1,2025-03-10T06:00Z",
        "1 ACCEPTED 1\nSLOT 27L AB1     100600   15 ------ 100600 100615 P    0\n",
        "AO,TOBT,AB1,2025-03-10T06:00Z\n",
    ),
    ("", "", ""),
    (
        "AP,FLT,AB2,5",
        "2 ACCEPTED 1\nBLOCKED AB2     TOBT\n",
        "AP,FLT,AB2,5\n",
    ),
    ("ATC,RWY,AB2,27L", "3 ACCEPTED 0\n", "ATC,RWY,AB2,27L\n"),
    (
        "AO,TOBT,AB2,2025-03-10T06:00Z",
        "4 ACCEPTED 1\nSLOT 27L AB2     100600   15 ------ 100600 100615 P    0\n",
        "AO,TOBT,AB2,2025-03-10T06:00Z\n",
    ),
    (
        "AP,FLT,AB2,5",
        "5 REFUSED EXISTS: AB2 was created by record 4\n",
        "",
    ),
    (
        "PLAN",
        "6 PLAN 5
DAY 2025-03-10 NOW 100000
RUNWAY 27L
AB1     100600   15 ------ 100600 100615 P    0
AB2     100600   15 ------ 100600 100615 P    0
TOTAL PLACED 2 DELAY 0 MAX 0 LATE 0 BLOCKED 0
",
        "",
    ),
    (
        "AP,FLT,\"AB3\",5",
        "7 ACCEPTED 1\nBLOCKED AB3     TOBT\n",
        "AP,FLT,AB3,5\n",
    ),
    ("ATC,RWY,AB3,27L\r", "8 ACCEPTED 0\n", "ATC,RWY,AB3,27L\n"),
    (
        "GH,TOBT,AB3,2025-03-10T06:00Z",
        "9 ACCEPTED 1\nSLOT 27L AB3     100600   15 ------ 100605 100620 P    5\n",
        "GH,TOBT,AB3,2025-03-10T06:00Z\n",
    ),
    (
        "WHY,AB3",
        "10 WHY 5
DAY 2025-03-10 NOW 100000
FLIGHT AB3 RUNWAY 27L STAND - PRIORITY 5 GROUP M
TOBT 100600 ICE NONE 0 EXOT 15 CTOT ------
WAIT 100615 100619 RATE 2 AB1 AB2
TSAT 100605 TTOT 100620 DELAY 5
",
        "",
    ),
    (
        "LOAD,27L",
        "11 LOAD 4
DAY 2025-03-10 NOW 100000
RUNWAY 27L CELL 10
100610  2/2  CLOSED  0 AB1 AB2
100620  1/2  CLOSED  0 AB3
",
        "",
    ),
    (
        "AO,CTOT,AB1,2025-03-10T06:30Z",
        "12 REFUSED AUTHORITY: a CTOT is set by NM (Network Manager); AO (operator) may set CNL, TOBT\n",
        "",
    ),
    ("\r", "", ""),
    (
        "AO,CNL,\"AB2",
        "13 ACCEPTED 2
CANCELLED AB2
SLOT 27L AB3     100600   15 ------ 100600 100615 P    0
",
        "AO,CNL,AB2\n",
    ),
    (
        "AO,TOBT,AB2,2025-03-10T07:00Z",
        "14 REFUSED ENDED: AB2 was cancelled by record 10\n",
        "",
    ),
    (
        "WHY,XX",
        "15 REFUSED UNKNOWN: XX has no FLT that was accepted before this record\n",
        "",
    ),
    (
        "NM,CTOT,AB3,2025-03-10T06:40Z",
        "16 ACCEPTED 1\nSLOT 27L AB3     100600   15 100640 100620 100635 P   20\n",
        "NM,CTOT,AB3,2025-03-10T06:40Z\n",
    ),
    (
        "AP,FLT,AB4,5\nAP,FLT,AB5,5",
        "17 REFUSED FIELDS: send one record per line, of 4,096 bytes at most and with LF at its end\n",
        "",
    ),
    (
        "ATC,CLOSE,27L,2025-03-10T06:30Z,2025-03-10T06:40Z",
        "18 ACCEPTED 1\nSLOT 27L AB3     100600   15 100640 100625 100640 P   25\n",
        "ATC,CLOSE,27L,2025-03-10T06:30Z,2025-03-10T06:40Z\n",
    ),
    (
        "GH,ICE,AB1,REMOTE,5",
        "19 ACCEPTED 1\nSLOT 27L AB1     100600   20 ------ 100600 100620 P    0\n",
        "GH,ICE,AB1,REMOTE,5\n",
    ),
    (
        "AP,STAND,AB1,A1",
        "20 ACCEPTED 1\nSLOT 27L AB1     100600   15 ------ 100600 100615 P    0\n",
        "AP,STAND,AB1,A1\n",
    ),
    (
        "XX,TOBT,AB1,2025-03-10T06:00Z",
        "21 REFUSED ROLE: field 1 \"XX\": a role is AO (operator), GH (handler), AP (airport), ATC (tower) or NM (Network Manager)\n",
        "",
    ),
    (
        "ATC,CLOCK,2025-03-10T06:05Z",
        "22 ACCEPTED 1\nSLOT 27L AB1     100600   15 ------ 100605 100620 P    5\n",
        "ATC,CLOCK,2025-03-10T06:05Z\n",
    ),
    (
        "ATC,OFF,AB1,2025-03-10T06:05Z",
        "23 ACCEPTED 1\nSLOT 27L AB1     100600   15 ------ 100605 100620 O ----\n",
        "ATC,OFF,AB1,2025-03-10T06:05Z\n",
    ),
    (
        "AO,TOBT,AB1,2025-03-10T06:30Z",
        "24 REFUSED OFFBLOCK: AB1 has been off-block since record 16; only AIR may follow\n",
        "",
    ),
    (
        "ATC,AIR,AB1,2025-03-10T06:22Z",
        "25 ACCEPTED 1\nSLOT 27L AB1     100600   17 ------ 100605 100622 A ----\n",
        "ATC,AIR,AB1,2025-03-10T06:22Z\n",
    ),
    (
        "PLAN",
        "26 PLAN 5
DAY 2025-03-10 NOW 100605
RUNWAY 27L
AB1     100600   17 ------ 100605 100622 A ----
AB3     100600   15 100640 100625 100640 P   25
TOTAL PLACED 1 DELAY 25 MAX 25 LATE 1 BLOCKED 0
",
        "",
    ),
    (
        "AP,FLT,AB4",
        "27 REFUSED FIELDS: FLT takes 4 fields (role, FLT, flight, priority); this record has 3\n",
        "",
    ),
    (
        "AP,FLT,AB4,9",
        "28 ACCEPTED 1\nBLOCKED AB4     TOBT\n",
        "AP,FLT,AB4,9\n",
    ),
];
