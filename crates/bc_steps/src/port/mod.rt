pub(crate) mod actor;
mod job;
mod queue;
mod record_queue;
mod start;
mod step;
