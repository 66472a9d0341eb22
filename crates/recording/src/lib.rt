// What a planner is handed: a recording with its clock, and a bucket. Serves document 01, "A recording and its units" and "How bits arrive
// and leave".

#![tactic(auto)]

pub mod judged;

// Sizes in bits and removal ticks of the pictures, TS and NU. Kept: two lists, as the C interface lends them.
#[derive(Clone, Copy)]
pub struct Recording<'a> {
    pub sizes: &'a [u64],
    pub ticks: &'a [u64],
    pub ts: u64,
    pub nu: u64,
}

// Rate R, buffer B and start fullness F.
#[derive(Clone, Copy)]
pub struct Bucket {
    pub rate: u64,
    pub buffer: u64,
    pub fullness: u64,
}
