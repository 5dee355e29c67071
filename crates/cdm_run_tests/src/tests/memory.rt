//! Calls of which one request for memory may be refused. They answer so, and the same call then gives the answer that it
//! would have given. `cases/refuse` refuses each request in its turn.
mod lines;
mod readers;
mod runs;
mod tables;
