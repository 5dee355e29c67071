//! Answers by many workers.

mod answers;
mod meeting;
