// The lock chamber controller's types: plain data, no logic. What they mean stands in specs/, with the theorem: at no
// place in the order are both gates away from 0.
#![tactic(auto)]

use model::{Client, Received, Refusal, Request};

// The number of points of a lock: two gates, three levels.
pub const LOCK_POINTS: usize = 5;

// The points of a lock. The upper gate stands between levels 1 and 2, the lower between 2 and 3.
#[repr(C)]
#[derive(Clone, Copy)]
pub struct LockPoints {
    pub upper: u8,
    pub lower: u8,
    pub level1: u8,
    pub level2: u8,
    pub level3: u8,
}

// A point's latest completed read; call 0: none yet.
#[repr(C)]
#[derive(Clone, Copy)]
pub struct LatestRead {
    pub call: u32,
    pub value: u32,
    pub quality: u8,
}

// moved: the call number of the last set or part issued, 0: none. reads: by role, in the order of the points.
#[repr(C)]
#[derive(Clone, Copy)]
pub struct Chamber {
    pub client: Client,
    pub points: LockPoints,
    pub moved: u32,
    pub reads: [LatestRead; LOCK_POINTS],
}

// E: what refuses, a `Refusal` or any other value.
#[derive(Clone, Copy)]
pub struct ChamberStart<E> {
    pub chamber: Chamber,
    pub answer: Result<(), E>,
}

// E: as above.
#[derive(Clone, Copy)]
pub struct ChamberSend<E> {
    pub chamber: Chamber,
    pub answer: Result<Request, E>,
}

#[derive(Clone, Copy)]
pub struct ChamberReceive {
    pub chamber: Chamber,
    pub answer: Result<Received, Refusal>,
}
