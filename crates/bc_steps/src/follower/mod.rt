pub(crate) mod actor;
mod event;
mod free;
mod place;
mod start;
