//! The numbers and the texts of faults, and each law of histories.
use crate::tests_below::is_text;
use crate::{
    DeskFault, histories_agree, histories_are_true, histories_go_on, reads_are_told,
    replies_are_exact, sessions_are_runs, shares_add_up,
};
use hall::Fault;
use std::alloc::AllocError;

/// Faults, with their numbers and texts.
static FAULTS: [(DeskFault, u64, &str); 5] = [
    (DeskFault::Hall(Fault::NoTenant), 62, "bad hello"),
    (DeskFault::Hall(Fault::Memory), 90, "memory"),
    (DeskFault::Rewound { front: 3 }, 91, "rewound"),
    (DeskFault::PassesOut, 92, "passes out"),
    (DeskFault::NoThread, 93, "no thread"),
];

#[test]
fn numbers_and_texts(rt: HostRuntime) -> Result<(), AllocError> {
    for (fault, number, text) in &FAULTS {
        assert!(rt; fault.number() == *number && is_text(rt.alloc(), fault, text)?);
    }
    Ok(())
}

#[test]
fn each_law_of_histories_once() {
    histories_go_on();
    histories_are_true();
    histories_agree();
    reads_are_told();
    sessions_are_runs();
    shares_add_up();
    replies_are_exact();
}
