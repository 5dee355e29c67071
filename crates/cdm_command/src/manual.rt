//! What the program says about itself, its files and its output.

use cdm_kinds::{Kind, role_name};
use std::alloc::{AllocError, Global};
use std::fmt::Write;

/// The program's version.
pub const VERSION: &str = "1.1.0 (rules 1)";

/// What the program is.
pub const ABOUT: &str = "\
cdmseq plans departures for Airport CDM: a start-up time, or a blocking rule";

/// What `plan` does.
pub const PLAN_ABOUT: &str = "Plan the day: a start-up time or a blocking rule for each flight";

/// What `next` does.
pub const NEXT_ABOUT: &str = "List the next start-ups, over all runways";

/// What `warnings` does.
pub const WARNINGS_ABOUT: &str = "List what needs attention: overdue, blocked or at risk";

/// What `causes` does.
pub const CAUSES_ABOUT: &str = "Count the minutes of delay by their cause";

/// What `compare` does.
pub const COMPARE_ABOUT: &str = "Compare what-if scenarios, best first";

/// What `why` does.
pub const WHY_ABOUT: &str = "Show what delays or blocks one flight";

/// What `options` does.
pub const OPTIONS_ABOUT: &str = "Show which single records could help one flight";

/// What `load` does.
pub const LOAD_ABOUT: &str = "Show how full each runway is, cell by cell";

/// What `trace` does.
pub const TRACE_ABOUT: &str = "Show which record changed which flight";

/// What `picture` does.
pub const PICTURE_ABOUT: &str = "Draw the day as a timeline (SVG) for a browser";

/// What `live` does.
pub const LIVE_ABOUT: &str = "Run two feeds concurrently on one shared day";

/// What `serve` does.
pub const SERVE_ABOUT: &str = "Run the day in real time: reply to each record, keep a journal";

/// What `carry` does.
pub const CARRY_ABOUT: &str = "Carry the day over: write what the next day has of it, as a feed";

/// What `check` does.
pub const CHECK_ABOUT: &str = "Explain each refused record, with its file and line";

/// What `kinds` does.
pub const KINDS_ABOUT: &str = "Print the kinds of updates, with their roles and fields";

/// What `version` does.
pub const VERSION_ABOUT: &str = "Print the version";

/// What `help` does.
pub const HELP_ABOUT: &str = "Print the manual, or the help of one command";

/// The end of the program's help: examples, and where there is more.
pub const EXAMPLES: &str = "\
Examples:
  cdmseq plan airport.csv feed.csv
Full manual: cdmseq help | less";

/// The end of the help of `plan`.
pub const PLAN_EXAMPLE: &str = "\
Examples:
  cdmseq plan airport.csv feed.csv --scenarios what_if.csv
  cdmseq plan airport.csv feed.csv --format csv > day.csv
- reads standard input in place of one file:
  grep -v AB1 feed.csv | cdmseq plan airport.csv -
Full manual: cdmseq help | less";

/// The end of the help of `next`.
pub const NEXT_EXAMPLE: &str = "\
Examples:
  cdmseq next airport.csv feed.csv
  cdmseq next airport.csv feed.csv 30
- reads standard input in place of one file.
Full manual: cdmseq help | less";

/// The end of the help of `warnings`.
pub const WARNINGS_EXAMPLE: &str = "\
Examples:
  cdmseq warnings airport.csv feed.csv
  cdmseq warnings airport.csv feed.csv --scenarios what_if.csv --scenario SHUT
- reads standard input in place of one file.
Full manual: cdmseq help | less";

/// The end of the help of `causes`.
pub const CAUSES_EXAMPLE: &str = "\
Examples:
  cdmseq causes airport.csv feed.csv
  cdmseq causes airport.csv feed.csv --by operator
- reads standard input in place of one file.
Full manual: cdmseq help | less";

/// The end of the help of `compare`.
pub const COMPARE_EXAMPLE: &str = "\
Examples:
  cdmseq compare airport.csv feed.csv what_if.csv
  cdmseq compare airport.csv feed.csv what_if.csv SHUT
  cdmseq compare airport.csv feed.csv what_if.csv \\
    --each 2025-03-10T06:00Z..2025-03-10T07:00Z/5
- reads standard input in place of one file.
Full manual: cdmseq help | less";

/// The end of the help of `why`.
pub const WHY_EXAMPLE: &str = "\
Examples:
  cdmseq why airport.csv feed.csv AB1
  cdmseq why airport.csv feed.csv AB1 --scenarios what_if.csv --scenario SHUT
- reads standard input in place of one file.
Full manual: cdmseq help | less";

/// The end of the help of `options`.
pub const OPTIONS_EXAMPLE: &str = "\
Examples:
  cdmseq options airport.csv feed.csv AB1
  cdmseq options airport.csv feed.csv AB1 --role NM
- reads standard input in place of one file.
Full manual: cdmseq help | less";

/// The end of the help of `load`.
pub const LOAD_EXAMPLE: &str = "\
Examples:
  cdmseq load airport.csv feed.csv 27L
  cdmseq load airport.csv feed.csv --scenarios what_if.csv --scenario SHUT
- reads standard input in place of one file.
Full manual: cdmseq help | less";

/// The end of the help of `trace`.
pub const TRACE_EXAMPLE: &str = "\
Examples:
  cdmseq trace airport.csv feed.csv AB1
  cdmseq trace airport.csv feed.csv --since 2025-03-10T06:30Z
- reads standard input in place of one file.
Full manual: cdmseq help | less";

/// The end of the help of `picture`.
pub const PICTURE_EXAMPLE: &str = "\
Examples:
  cdmseq picture airport.csv feed.csv > day.svg
  cdmseq picture airport.csv feed.csv --scenarios what_if.csv > day.svg
- reads standard input in place of one file.
Full manual: cdmseq help | less";

/// The end of the help of `live`.
pub const LIVE_EXAMPLE: &str = "\
Examples:
  cdmseq live airport.csv desk_1.csv desk_2.csv
- reads standard input in place of one file.
Full manual: cdmseq help | less";

/// The end of the help of `serve`.
pub const SERVE_EXAMPLE: &str = "\
Examples:
  cdmseq serve airport.csv journal.csv
It reads records from standard input, one per line, and prints the replies.
Full manual: cdmseq help | less";

/// The end of the help of `carry`.
pub const CARRY_EXAMPLE: &str = "\
Examples:
  cdmseq carry airport.csv feed.csv next_airport.csv > next_feed.csv
  cdmseq carry airport.csv feed.csv next_airport.csv --tell
- reads standard input in place of one file.
Full manual: cdmseq help | less";

/// The end of the help of `check`.
pub const CHECK_EXAMPLE: &str = "\
Examples:
  cdmseq check airport.csv feed.csv
  cdmseq check airport.csv feed.csv --scenarios what_if.csv
- reads standard input in place of one file.
Full manual: cdmseq help | less";

/// The end of the help of `kinds`.
pub const KINDS_EXAMPLE: &str = "\
Examples:
  cdmseq kinds
  cdmseq kinds --format json
Full manual: cdmseq help | less";

/// The end of the help of `version`.
pub const VERSION_EXAMPLE: &str = "\
Examples:
  cdmseq version
Full manual: cdmseq help | less";

/// The end of the help of `help`.
pub const HELP_EXAMPLE: &str = "\
Examples:
  cdmseq help plan
Full manual: cdmseq help | less";

/// What the files hold and what the output says, for a reader who has no other paper: up to the kinds of updates.
const BEFORE_KINDS: &str = "\
PURPOSE
  This manual is for everyone who uses cdmseq. cdmseq reads an airport file and
  a feed of updates. For each departure it prints a start-up time, or the rule
  that blocks the flight.

  All times are UTC, in whole minutes. A plan covers two days from 00:00 of the
  airport file's day.

  TOBT   target off-block time: when the operator or handler expects the flight
         to be ready
  EXOT   estimated taxi-out time, in minutes: the taxi time from the stand to
         the runway, and remote de-icing
  CTOT   calculated take-off time of the Network Manager. The flight may take
         off within its CTOT window: from 5 minutes before the CTOT to 10
         minutes after it, unless TOL sets other minutes
  TSAT   target start-up approval time: when air traffic control expects to
         approve the start-up
  TTOT   target take-off time: TSAT + EXOT
  AOBT   actual off-block time
  ATOT   actual take-off time

THE SEQUENCE
  On each runway the planned flights take their turn by priority (0 is first),
  then by TOBT, then by name. Each gets the first take-off minute that meets
  all of these conditions:
    - The flight can be there: it is ready at its TOBT plus its minutes of
      de-icing on the stand, or now if that is later. Then it needs its EXOT.
    - The minute is in its CTOT window, if the flight has a CTOT.
    - The runway is open.
    - The spacing is kept. A take-off takes the runway for the spacing time of
      the flight's wake category, which the airport file sets. The spacing times
      of two flights may not overlap.
    - The cell has room. A capacity cell, or cell, is a fixed stretch of minutes
      with one capacity: so many flights may take off in it.
  Flights that are off-block or airborne, and flights that took their turn
  earlier, keep their minutes. A flight that gets no minute is blocked. This
  order is a local profile, not a rule of the A-CDM manual.

THE FILES
  Each file is a list of records, one per line, with commas between the fields
  and without a header row. Blank lines don't count. A field that begins with a
  double quote goes on to the next double quote, across line ends too. - reads
  standard input in place of one file.
  A flight is 1 to 7 characters A-Z or 0-9, a runway 1 to 3, a stand 1 to 5. A
  number has up to 4 digits. A time is written 2025-03-10T06:00Z. A window goes
  from its first time to the minute before its second, which may be the midnight
  that ends the second day.

  AIRPORT has these kinds of records, each used in this example:

DAY,2025-03-10
RUNWAY,27L,10,2
TAXI,*,27L,15
TAXI,A1,27L,10
SPACE,27L,H,2

    DAY,day                    the first day; the first record, and once
    RUNWAY,runway,cell,cap     a runway: the minutes of a cell (1, 2, 3, 4, 5,
                               6, 10, 12, 15, 20, 30 or 60), and the capacity
                               of each cell (0 to 60)
    TAXI,stand,runway,minutes  taxi time (1 to 120) from a stand to a runway; *
                               is for the stands without a row. If a stand and
                               runway have several rows, the last one wins
    SPACE,runway,group,minutes spacing time (0 to 5) of a wake category (L, M or
                               H) on a runway; 0 without a row. If a runway and
                               category have several rows, the last one wins

  FEED, and FEED1 and FEED2 of live, have the updates, oldest first:

AP,FLT,AB1,5
ATC,RWY,AB1,27L
AO,TOBT,AB1,2025-03-10T06:00Z
AP,FLT,CD2,5
AO,CTOT,AB1,2025-03-10T06:40Z

  The first field is the role of the sender: AO aircraft operator, GH ground
  handler, AP airport operator, ATC air traffic control, NM Network Manager.
  These are the kinds of updates, each with a role that may send it:

";

/// The rest of the manual, behind the kinds of updates.
const AFTER_KINDS: &str = "\

  If several updates set one value, the last one wins.

  SCENARIOS has what-if scenarios: updates that could follow those of FEED.

SCENARIO,SHUT
CLOSE,27L,2025-03-10T06:10Z,2025-03-10T06:30Z
SCENARIO,NO-SUCH
TOBT,CD2,2025-03-10T06:00Z
PRIO,XY9,1

    SCENARIO,name              begins a scenario; its name is 1 to 16 characters
                               A-Z, 0-9 or -. Its updates follow, written as in
                               FEED but without the role; any kind is allowed
  Each scenario follows the accepted updates of FEED, independently of the other
  scenarios. A file has at most 64 scenarios, and a scenario at most 64 updates.

PLAN
  cdmseq plan airport.csv feed.csv prints, for the example files:

    DAY 2025-03-10 NOW 100000
    RUNWAY 27L
    AB1     100600   15 ------ 100600 100615 P    0
    BLOCKED CD2     TOBT
    TOTAL PLACED 1 DELAY 0 MAX 0 LATE 0 BLOCKED 1 TOBT 1
    REFUSED 5 AUTHORITY

  Times are printed as day of the month, hour and minute: 100615 is the 10th,
  06:15. Dashes mean that there is no such value.

  DAY      the first day, and the current time
  RUNWAY   each runway by name, with a line for each of its flights, by TTOT and
           then by name: flight, TOBT, EXOT, CTOT, TSAT, TTOT, a letter, and the
           delay in minutes (TSAT - TOBT)
             P  planned
             O  off-block: AOBT in place of TSAT; TTOT is AOBT + EXOT
             A  airborne: AOBT in place of TSAT, ATOT in place of TTOT, and
                ATOT - AOBT in place of EXOT
           Cancelled flights aren't listed.
  BLOCKED  each planned flight without a minute, by name, with its blocking
           rule, the first of these that applies:
             TOBT     the flight has no TOBT
             RUNWAY   it has no runway
             EXOT     its taxi time isn't known
             HORIZON  it can't take off within the two days
             CTOT     it can't take off within its CTOT window
             CLOSURE  the runway is closed at all these minutes
             SPACING  at each open minute its spacing time overlaps another's
             RATE     every remaining minute is in a full cell
  TOTAL    PLACED the planned flights with a minute; DELAY the sum and MAX the
           maximum of their delays; LATE the delays above 15 minutes; BLOCKED
           the blocked flights, then their number by blocking rule
  REFUSED  each refused record of FEED: its number, from 1, and its refusal
           code, the first of these that applies. A refused record changes
           nothing. check explains each of them.
             FIELDS     wrong number of fields
             ROLE       unknown role
             KIND       unknown kind of update
             TEXT       a field is malformed
             RANGE      a number or time is out of range
             AUTHORITY  the role may not send this kind of update
             UNKNOWN    unknown flight or runway
             EXISTS     the flight exists already
             ENDED      the flight is airborne or cancelled
             OFFBLOCK   the flight is off-block; only AIR may follow
             ORDER      CLOCK goes back; a window is empty or cuts a cell; AIR
                        comes without OFF or is earlier than it
             NOTREADY   OFF without a runway or EXOT, or with a TTOT past the
                        two days
             FULL       the day has 20,000 updates, 2,000 flights or 400 stands
                        with taxi times
           The first invalid record of AIRPORT or SCENARIOS ends the run, with
           one of the same codes. In AIRPORT, ORDER is a first record that isn't
           DAY, or a second DAY; EXISTS is a runway named twice; FULL is a ninth
           runway or a 401st stand. In SCENARIOS, EXISTS is a name used twice;
           ORDER is an update before the first SCENARIO; FULL is a 65th scenario
           or update.

  With --scenarios what_if.csv these lines follow:

    SCENARIO SHUT
    DAY 2025-03-10 NOW 100000
    RUNWAY 27L
    AB1     100600   15 ------ 100615 100630 P   15
    BLOCKED CD2     TOBT
    TOTAL PLACED 1 DELAY 15 MAX 15 LATE 0 BLOCKED 1 TOBT 1
    DELTA PLACED +0 DELAY +15 MAX +15 LATE +0 BLOCKED +0
    SCENARIO NO-SUCH
    REFUSED 2 UNKNOWN

  SCENARIO each scenario, in the order of the file. Its plan follows, from DAY
           to TOTAL. If an update of the scenario is refused, only the number of
           the first such update in the scenario, from 1, and its code follow.
  DELTA    the change of each number of TOTAL against the base plan, which is
           the plan of FEED alone; a blocking rule is listed if its number
           differs

  --format csv prints one row per flight, by name, for the base plan and then
  for each scenario:

    scenario,flight,status,runway,stand,priority,group,tobt,exot,ctot,tsat,...
    ,AB1,PLANNED,27L,,5,M,2025-03-10T06:00Z,15,,2025-03-10T06:00Z,...

  The last columns are ttot, delay and rule. The status is PLANNED, BLOCKED,
  OFFBLOCK, AIRBORNE or CANCELLED. A refused scenario has one row, with the
  status REFUSED and its code in the column rule. Times are written as in the
  files. For a flight that has left, tsat and ttot are its AOBT and its
  take-off.

NEXT
  cdmseq next airport.csv feed.csv 720 lists the planned flights that start up
  within 720 minutes of the current time (60 without a number), by TSAT and
  name:

    DAY 2025-03-10 NOW 100000
    100600 AB1     27L -     100600 ------ 100615    0 -

  A line has TSAT, flight, runway, stand (- for none), TOBT, CTOT, TTOT, the
  delay, and the cause of the last minute that the flight waits, - for none.
  The causes are the wait reasons of why. Unlike in why, NOW comes last: it is
  the cause only of minutes that no other cause explains.

WARNINGS
  cdmseq warnings airport.csv feed.csv lists what needs attention, and last
  their number. The kinds come in this order:

  OVERDUE  off-block, and its take-off minute is more than 5 minutes ago
  MISSED   off-block, and too late for its CTOT window
  BLOCKED  planned, with a TOBT or a CTOT, and without a minute
  EDGE     planned, after its CTOT, in one of the last 3 minutes of the window
  PAST     planned, and part of its delay has no cause but the clock: it could
           have started up before now
  AHEAD    its AOBT or ATOT is more than 2 minutes after the current time
  FULL     a cell with more flights than its capacity, not over yet
  SHUT     off-block, and its runway is closed at its take-off

CAUSES
  cdmseq causes airport.csv feed.csv counts the minutes of delay of the planned
  flights by their cause. The six columns from ICE to NOW add up to DELAY:

    GROUP    PLACED   DELAY     ICE    CTOT CLOSURE SPACING    RATE     NOW ...
    TOTAL         1       0       0       0       0       0       0       0 ...

  The last column is BLOCKED, the blocked flights. --by runway and --by operator
  print a line for each group before TOTAL. An operator is the first three
  letters of a flight that a digit follows; other flights are in the group -.

  With --scenarios FILE --scenario NAME, next, warnings, causes, why and load
  answer for the day with all updates of that scenario. If one of them is
  refused, there is no answer, and the status is 3.

  next, warnings, causes and load take --format csv as well: a row that names
  the columns, then one row per start-up, warning, group or cell. The columns
  are the members in JSON below, those of load runway, cell, from, placed, cap,
  closed and flights. Times and values are written as those of plan.

COMPARE
  compare ranks the base plan and the scenarios. For the three example files
  cdmseq compare airport.csv feed.csv what_if.csv SHUT prints:

    SCENARIO         PLACED  DELAY   MAX  LATE BLOCKED  MOVED
    -                     1      0     0     0       1      0
    SHUT                  1     15    15     0       1      1
    NO-SUCH          REFUSED 2 UNKNOWN
    - SLOT 27L AB1     100600   15 ------ 100600 100615 P    0
    + SLOT 27L AB1     100600   15 ------ 100615 100630 P   15

  -        the base plan, ranked with the scenarios. Best first: fewer blocked
           flights, then less total delay, then the order of the file, with the
           base plan first. Refused scenarios come last.
  PLACED   to BLOCKED: as in TOTAL
  MOVED    how many flights change: another runway or another line, blocked, by
           another rule, cancelled, or unknown in the base plan
  - and +  if you name a scenario, each flight that it changes, by name: its
           line in the base plan, if it is known there, and its line in the
           scenario. SLOT has the runway and the flight's line. If an update of
           the scenario that you name is refused, there is no comparison, and
           the status is 3.
  --each   tries each scenario at each step from FROM up to TO, every STEP
           minutes, as --each 2025-03-10T06:00Z..2025-03-10T07:00Z/5: its
           earliest time is moved to the step, and the times of TOBT, CTOT,
           RATE, CLOSE and OPEN move together. CLOCK, OFF and AIR stay. A
           scenario without a time that moves is tried once. A column AT has
           the step. Of equal lines the earlier step comes first. A time that
           leaves the airport's two days is REFUSED by RANGE. At most 1440
           steps, with text or json, and without the name of a scenario.

  A scenario named - is refused by EXISTS, and so is the whole comparison: - is
  the base plan.

WHY
  cdmseq why airport.csv feed.csv AB1 prints:

    DAY 2025-03-10 NOW 100000
    FLIGHT AB1 RUNWAY 27L STAND - PRIORITY 5 GROUP M
    TOBT 100600 ICE NONE 0 EXOT 15 CTOT ------
    TSAT 100600 TTOT 100615 DELAY 0

  FLIGHT   and TOBT: the flight's current values. EXOT is the one of its line,
           and - for an airborne or cancelled flight.
  WAIT     for a flight that waits: the first and last minute of a stretch, from
           TOBT + EXOT on, in which the flight can't take off, and the wait
           reason, the first of these that applies:
             ICE      its de-icing on the stand isn't over
             NOW      it would have had to leave its stand before now
             CTOT     the minute is outside its CTOT window
             CLOSURE  the runway is closed
             SPACING  its spacing time would overlap those of the flights named
             RATE     the cell is full: its capacity, and its flights
           These minutes are its delay or, for a blocked flight, all minutes to
           the end of the two days. Only flights that take their turn earlier
           are named.
  TSAT     its TSAT, TTOT and delay; or BLOCKED and the blocking rule; or
           OFFBLOCK and the AOBT, with TTOT, or AIRBORNE and the ATOT; or
           CANCELLED

OPTIONS
  options tries records that could help a planned flight: each alone, as a
  scenario of this one update. If FEED also has NM,CTOT,AB1,2025-03-10T06:00Z,
  cdmseq options airport.csv feed.csv AB1 prints:

    DAY 2025-03-10 NOW 100000
    FLIGHT AB1 BLOCKED CTOT CTOT 100600
    OPTION          TTOT  GAIN  DELAY   MAX  LATE BLOCKED  MOVED
    NM,CTOT,AB1,- 100615     -     +0    +0    +0      -1      1
    TRIED 6 HELP 1 REFUSED 0

  These records are tried:
    PRIO   each smaller priority number, from 0
    RWY    each other runway
    CTOT   -, if the flight has a CTOT
    OPEN   the minutes of each of the first 8 WAIT lines of why with CLOSURE,
           up to 23:59 of the second day
    RATE   one flight more in each of the first 16 cells in which a WAIT line
           with RATE has a minute. A cell that takes 60 flights and the last
           cell of the second day don't count.

  FLIGHT   its TTOT, or BLOCKED and its blocking rule; then its CTOT
  OPTION   each record that helps, with the role that may send it: the flight
           gets a minute, or an earlier one. The first has the earliest TTOT,
           then the fewest blocked flights, then the least total delay. If
           several PRIO records give the same numbers, only the one with the
           largest number is listed.
  TTOT     the flight's TTOT with this record
  GAIN     how many minutes earlier that is, - if the flight had no TTOT
  DELAY    to BLOCKED: the change of each number of TOTAL
  MOVED    how many flights change, as in COMPARE
  TRIED    how many records were tried; HELP how many are listed; REFUSED how
           many of those tried were refused, because the day has no room left
  --role   tries only what this role may send: NM may send CTOT, and ATC the
           others. For the other roles nothing is tried.
  A flight that is off-block, airborne or cancelled has no options: the status
  is 3.

LOAD
  cdmseq load airport.csv feed.csv prints:

    DAY 2025-03-10 NOW 100000
    RUNWAY 27L CELL 10
    100610  1/2  CLOSED  0 AB1

  RUNWAY   each runway by name, or the one that you name, with the minutes of
           its cells. One line per cell follows, from the first to the last that
           has a flight, a closed minute or a changed capacity: its first
           minute, its flights/capacity, its closed minutes, and the names of
           its flights by TTOT and name.

TRACE
  cdmseq trace airport.csv feed.csv prints:

    1 ACCEPTED 1
    BLOCKED AB1     TOBT
    3 ACCEPTED 1
    SLOT 27L AB1     100600   15 ------ 100600 100615 P    0
    4 ACCEPTED 1
    BLOCKED CD2     TOBT
    5 REFUSED AUTHORITY

  ACCEPTED how many flights this record changed; their new lines follow, by
           name. Records that change none aren't listed. If you name a flight,
           each record that changes it follows with the flight's new line.
  REFUSED  as in PLAN
  --since  lists only from the first record on that made the current time this
           time or later, as --since 2025-03-10T06:00Z

PICTURE
  picture draws the day and, with --scenarios, each scenario below it, as an SVG
  file for a browser. Each runway is a band. In its upper part are the cells
  with their capacities and flights. In its lower part each delayed flight is a
  bar from TOBT + EXOT to its TTOT, with its name after it; the colour and the
  pattern show what it waits for. A flight off-block or airborne has a bar from
  its AOBT. Closed minutes are hatched. Blocked flights are listed below with
  their rules. In a scenario * marks the flights that change. Point at a flight
  to see its line and its waiting times. Each scenario is drawn whole: with 64
  scenarios of a full day the file has tens of megabytes.

LIVE
  live runs two desks concurrently on one shared day: desk 1 sends FEED1, and
  desk 2 sends FEED2, in batches of 256 updates. After its last batch each desk
  reads the day once; then the run ends. It isn't real time: see SERVE. It
  prints the plan of the day, from DAY to TOTAL, and for each desk:

    DESK 1 POSTS 1 REFUSED 1
    REFUSED 5 AUTHORITY

  DESK     the desk, its batches, and how many records of its feed were refused;
           then their numbers in that feed, with their codes
  If both feeds change the same flights, runways or the clock, the output
  depends on which batch comes first: two runs may print different texts. Each
  is the output of one order of the batches that keeps each feed's own order.
  A run has room for 4096 calls, which are the batches and the two final reads.

SERVE
  serve reads records from standard input, one per line, and replies to each
  before it reads the next. JOURNAL has the accepted records; each is on the
  disk before its reply is written. With an empty JOURNAL
  cdmseq serve airport.csv journal.csv < feed.csv prints:

    READY 0
    1 ACCEPTED 1
    BLOCKED AB1     TOBT
    2 ACCEPTED 0

  and so on, as trace does, but for every record. The journal is itself a feed:
  cdmseq plan airport.csv journal.csv prints the plan at any time.

  READY    how many records JOURNAL has. A restart leaves out an incomplete last
           line, which a crash left.
  PLAN     the line PLAN asks for the plan, WHY,AB1 for what delays a flight,
           LOAD,27L for how full a runway is, OPTIONS,AB1 for what could help a
           flight. The reply has the number, the word and how many lines follow,
           or REFUSED.
  A line that is longer than 4096 bytes or unterminated is refused with FIELDS.
  With --sentences each refusal says why, as check would of the record behind
  those of JOURNAL:

    3 REFUSED EXISTS: AB1 was created by record 1

  At the end of the input the program ends.

CARRY
  cdmseq carry airport.csv feed.csv next_airport.csv prints the feed with which
  the next day begins: those records of FEED that the next day has, one per
  line, oldest first. NEXT_AIRPORT is an airport file for the day after
  AIRPORT's. A flight goes on unless it is cancelled or went off-block before
  the next day. These records go on:
    - each record of such a flight. A TOBT or CTOT before the next day becomes
      its 00:00.
    - CLOSE, OPEN and RATE, if the window ends after 00:00 of the next day. What
      is before is cut off.
    - CLOCK, if its time is in the next day
    - TAXI and TOL
  A record goes on only if both airports accept it.
  With --tell it prints what to know before, in place of the feed:
  LEFT     a flight that went off-block before the next day and isn't airborne:
           the next day doesn't know it
  EARLIER  a planned flight whose TOBT or CTOT was before the next day
  REFUSED  a record that NEXT_AIRPORT doesn't accept, by its number in FEED
  GONE     how many flights stay behind: airborne or cancelled
  STAY     how many flights go on

CHECK
  cdmseq check airport.csv feed.csv prints:

    feed.csv:5: record 5: AUTHORITY: a CTOT is set by NM (Network Manager);
        AO (operator) may set CNL, TOBT
    10 records, 1 refused

  of which the first two are one line.

  Each line has the file, the line on which the record begins, the record's
  number, its refusal code, and a sentence. If AIRPORT is invalid, only its
  first invalid record is listed. Otherwise each refused record of FEED is
  listed, then the first invalid record of SCENARIOS, up to 1000 lines. Hints
  on whole files come first, as: fields are separated by semicolons, not commas.
  If FEED has two records or more and none begins with a role, one hint stands
  for all of them, and ends with their number.
  The last line counts the records of all files, and the refused ones.

KINDS
  kinds prints the kinds of updates: one line per field, with the kind, what it
  is of, the roles that may send it, and the field's name, form and range.

THE BOARD
  cdmboard is a second program: it serves one airport over HTTP, day after day,
  to browsers and to programs. It decides who may speak, and keeps every record
  of all days in a log; cdmseq decides everything else.

    cdmboard AIRPORT LOG [--desks FILE] [--listen HOST:PORT] [--name HOST]
             [--tls CERT KEY | --behind-proxy] [--board NAME] [--clock]
             [--day-at HH:MM]
    cdmboard import AIRPORT LOG FEED
    cdmboard export LOG [--all | --raw | --airport] [--day YYYY-MM-DD]
    cdmboard backup LOG FILE
    cdmboard verify LOG
    cdmboard audit LOG
    cdmboard log init postgresql://..
    cdmboard token

  LOG      a file, made if it is missing, which one server at a time uses; or
           postgresql://.., a log that any number of servers share
  --desks  the desks with their tokens and roles. Without it the board serves
           this machine alone, and whoever opens it may speak in every role
  --listen the address, 127.0.0.1:8270 by default; another machine's needs
           --desks, and --tls or --behind-proxy
  --name   a further name of the server, as browsers call it
  --board  the name of the board in the log; every command with LOG takes it
  --clock  sends CLOCK each minute, by the machine's UTC time
  --day-at begins the next day at this time, UTC, from 01:00 to 21:59. Flights
           that aren't airborne go on, as with carry. Without it the tower's
           desks begin the next day
  import   makes FEED the first records of a new log; all must be accepted
  export   prints the accepted records of the last day as a feed, or of --day;
           --all prints every record of all days, or of --day, with its desk,
           time and reply, --raw every record without asking cdmseq, --airport
           the day's airport file
  backup   copies the log of one moment to a new file, also while it is served
  verify   has cdmseq reply to all records again, and compares the replies
  audit    prints who signed in and out, and from where each record came
  log init makes the tables of the logs in PostgreSQL
  token    prints a new token, and its line for the file of the desks

JSON
  With --format json every command but picture, live and help prints one JSON
  object per line, for programs; carry does so with --tell. Each object has all
  its members, and null where there is no value. Times are written as in the
  files; minutes and counts are numbers.
  plan     for the base plan and each scenario: scenario, day, now, placed,
           delay, max, late, blocked, rules (how many flights each rule blocks),
           flights (the columns of --format csv), refused (record, word)
  next     tsat, flight, runway, stand, tobt, ctot, ttot, delay, cause
  warnings kind, flight, runway, time, ctot, ttot, rule, placed, cap
  causes   group, placed, delay, ice, ctot, closure, spacing, rate, now, blocked
  compare  scenario, placed, delay, max, late, blocked, moved; and if you name a
           scenario flight, before and after for each flight that it changes.
           With --each at (the step, or null) after scenario
  why      row (the flight's columns), ice (kind, minutes), now, waits (from,
           to, reason, cap, flights)
  options  flight, now, ttot, rule, ctot, placed, delay, max, late, blocked,
           tried, help, refused; then for each record that helps record, role,
           ttot, gain, placed, delay, max, late, blocked, moved
  load     runway, cell, now, cells (from, placed, cap, closed, flights)
  trace    for each record that is refused or changes a column of a flight:
           record, reply, and word or accepted (how many updates there are) and
           changes (those flights); if you name a flight record, fields, row
  carry    kind, flight, runway, aobt, ttot, tobt, ctot, record, word, line,
           flights
  check    path, line, record, word, sentence; path, hint; records, refused
  serve    ready; then for each record and question one line: record, reply, and
           the members above; with --sentences a refusal has sentence, too
  kinds    kind, of, roles, fields (name, form, range)
  A refused scenario has scenario, update and word.

STATUS
  0  the complete output was written, even if records were refused
  1  a file can't be read or written, the output can't be written, a standard
     stream that is needed is closed, memory ran out, JOURNAL is in use, or a
     check inside live failed
  2  usage error: a wrong command, option or argument
  3  a file is longer than 8388608 bytes; a record of AIRPORT, NEXT_AIRPORT,
     SCENARIOS or JOURNAL is refused; FEED1 and FEED2 need more than 4096 calls;
     the flight, runway or scenario that you name is unknown, or an update of
     that scenario is refused; the flight that options is to help has left its
     stand or is cancelled; NEXT_AIRPORT isn't for the day after AIRPORT's
  4  check found a refused record, or carry --tell a line LEFT, EARLIER or
     REFUSED; with --strict, FEED has a refused record or none at all
  For 1 and 3 standard error has the error in one line, as
  cdmseq: cannot read FEED (feed.csv: no such file). For 2 it has the error and
  a hint. If it is a terminal, more lines for people can follow.
";

// What a kind of updates says, in lines of 45 characters.
fn words_of(kind: Kind) -> &'static str {
    match kind {
        Kind::Flt => "a new flight, priority 0 to 9",
        Kind::Tobt => "its TOBT",
        Kind::Stand => "its stand",
        Kind::Rwy => "its runway",
        Kind::Ctot => "its CTOT; - in place of the time cancels it",
        Kind::Ice => {
            "de-icing: NONE with 0 minutes, or with 1 to\n60 STAND (on the stand, before it is ready)\nor REMOTE (on the way, part of EXOT)"
        }
        Kind::Prio => "its priority, 0 to 9",
        Kind::Group => "its wake category: L, M or H, initially M",
        Kind::Off => { "it went off-block at this AOBT; this fixes\nits EXOT" }
        Kind::Air => "it took off at this ATOT",
        Kind::Cnl => "it is cancelled",
        Kind::Rate => {
            "the capacity (0 to 60) of the cells of a\nwindow that begins and ends between cells"
        }
        Kind::Close => "no take-off in the window",
        Kind::Reopen => "take-offs again in the window",
        Kind::Taxi => { "taxi time (1 to 120) from a stand; * is for\nthe stands without a row" }
        Kind::Clock => { "the current time; initially 00:00 of the\nfirst day" }
        Kind::Tol => {
            "the CTOT window of all flights: 0 to 15\nminutes before and 0 to 30 after the CTOT,\ninitially 5 and 10"
        }
    }
}

// Puts the roles behind the text, if there is more than one.
fn push_roles(text: &mut String, kind: Kind) -> Result<(), AllocError> {
    let roles = kind.roles();
    if roles.len() < 2 {
        return Ok(());
    }
    let mut before = " (";
    for role in roles {
        text.push_str(before)?;
        text.push_str(role_name(*role))?;
        before = " or ";
    }
    text.push_str(")")
}

// Puts the lines of a kind behind the text: the record with a role that may send it, and what it says.
fn push_kind(alloc: Global, text: &mut String, kind: Kind) -> Result<(), AllocError> {
    let role = kind.roles().first().map_or("", |role| role_name(*role));
    let word = kind.name();
    let mut record = format!(in alloc; "    {role},{word}")?;
    for field in kind.fields() {
        let name = field.name();
        write!(record, ",{name}")?;
    }
    let mut words = String::from_str(alloc, words_of(kind))?;
    push_roles(&mut words, kind)?;
    for line in words.lines() {
        writeln!(text, "{record:<35}{line}")?;
        record.clear();
    }
    Ok(())
}

/// What the files hold and what the output says, for a reader who has no other paper. The kinds of updates are those of
/// their table.
pub(crate) fn manual(alloc: Global) -> Result<String, AllocError> {
    let mut text = String::from_str(alloc, BEFORE_KINDS)?;
    for kind in Kind::all() {
        push_kind(alloc, &mut text, *kind)?;
    }
    text.push_str(AFTER_KINDS)?;
    Ok(text)
}
