// An order: its durations, the timings of its resources and its requirements (models/activity.rs; 01, 'Durations, setups, transport' up to
// speeds, and the orders of 'Placing'). The checks of it are the crate `activity_checks`.
#![tactic(auto)]

use calendar::Calendar;

pub mod basics;
pub mod order;
mod timing;

#[derive(Clone, Copy)]
pub struct ActivityDuration {
    pub setup: u64,
    pub process: u64,
    pub teardown: u64,
}

// How an order's time changes on one resource.
#[derive(Clone, Copy)]
pub enum ResourceTiming {
    Nothing,
    Speed(f64),
    Duration(ActivityDuration),
}

// Resources needed: those of the 16-bit candidate set, or those of the type where it is empty, with every skill.
#[derive(Clone, Copy)]
pub struct ResourceRequirement {
    pub kind: u8,
    pub candidates: u16,
    pub skills: u64,
    pub quantity: u32,
    pub usage: u32,
}

// 01: order. `release` is the earliest start of the order's own, where it has one, `origins` is the 16-bit set of the places come from,
// `timings` go by resource number, and the first `len` requirements count. No windows and no blocks: an order without a calendar.
// A length beside the cells, and no slice: an order is a plain value, and a length of 5 stands for any above.
#[derive(Clone, Copy)]
pub struct Activity {
    pub category: u8,
    pub duration: ActivityDuration,
    pub resumable: bool,
    pub release: Option<u64>,
    pub calendar: Calendar,
    pub origins: u16,
    pub requirements: [ResourceRequirement; 4],
    pub len: usize,
    pub timings: [ResourceTiming; 16],
}
