// The calls of a running server that serve its clients: request, fetch, sync, notice; and a held result as its packet,
// reply.
#![tactic(auto)]

pub mod fetch;
pub mod notice;
pub mod reply;
pub mod request;
pub mod sync;
