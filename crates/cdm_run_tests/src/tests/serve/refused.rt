//! Served days of which one request for memory may be refused.
use super::memory::Memory;
use super::{NEVER, all_go_on, answer_of, is_whole, port_of};
use crate::tests::asserts::assert_holds;
use cdm_feed::CommonFault;
use cdm_port::PortFault;
use cdm_serve::ServeError;
use std::alloc::AllocError;
use std::thread::Threads;

// Whether a day is served whole, or ends for want of memory and leaves what a new start goes on from.
fn is_kept<R: AllocGlobal + Threads + Sync>(rt: &R, port: &mut Memory) -> bool {
    match answer_of(rt, port) {
        Ok(()) => is_whole(port),
        Err(ServeError::Common(CommonFault::Memory) | ServeError::Port(PortFault::Memory)) => {
            all_go_on(rt, port)
        }
        Err(_) => false,
    }
}

/// A day that is refused memory ends, and a new start on each journal that it may have left has the records that were told
/// and goes on to the journal of the whole day; else the day is served whole.
#[test]
fn refused_memory_ends_a_served_day(rt: HostRuntime) {
    let port = again!(port_of(rt.alloc(), true, NEVER), AllocError);
    let mut port = port.ok().expect(&rt, "no port");
    assert_holds(&rt, is_kept(&rt, &mut port), "the day");
}
