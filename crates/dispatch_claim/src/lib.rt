// The dispatcher's types: plain data, no logic. What they mean stands in specs/, with the theorem: a waiting request is
// handed to its server by one of the next 32 servings.
#![tactic(auto)]

use model::{Answer, Request};

// The requests that may wait at a time.
pub const WAITING_PLACES: usize = 32;

pub const WAITING_PLACES_U32: u32 = WAITING_PLACES as u32;

// The first count requests wait, first come first.
#[repr(C)]
#[derive(Clone, Copy)]
pub struct Dispatcher {
    pub count: u32,
    pub requests: [Request; WAITING_PLACES],
}

// What enqueue answers: the dispatcher after it, and 0 or the refusal's number.
#[repr(C)]
#[derive(Clone, Copy)]
pub struct Enqueued {
    pub dispatcher: Dispatcher,
    pub number: u32,
}

// What serve answers: the dispatcher after it, and the answer as request's.
#[derive(Clone, Copy)]
pub struct Served {
    pub dispatcher: Dispatcher,
    pub answer: Answer,
}
