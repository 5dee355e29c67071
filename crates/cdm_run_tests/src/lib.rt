//! Tests of what no clause and no file can say of runs and of the command line: workers and desks that meet, devices
//! that fail, served days that stop, what words ask for, the help and the lines of faults.
#![tactic(auto)]

#[cfg(test)]
mod tests;
