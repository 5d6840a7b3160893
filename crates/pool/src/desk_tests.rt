//! A desk without workers, and while workers run: each call, whole searches, a gate, many members, refusals and limits, turns.
mod acts;
mod calls;
mod gates;
mod gathers;
mod lives;
mod plays;
mod rows;
mod turns;
