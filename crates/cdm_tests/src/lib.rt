//! Tests of what no clause can say of the libraries below the runs: that pieces and desks run side by side, what a
//! gate sees, a worker without memory, and that a call which lacked memory is answered the next time.
#![tactic(auto)]

#[cfg(test)]
mod tests;
