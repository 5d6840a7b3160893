use super::*;

/// Numbers, and the texts of those that stand for a refusal.
static TEXTS: [(u64, Option<&str>); 10] = [
    (11, Some("empty name")),
    (26, Some("parts")),
    (28, None),
    (45, Some("opens limit")),
    (90, Some("memory")),
    (91, Some("rewound")),
    (0, None),
    (29, None),
    (92, None),
    (93, None),
];

#[test]
fn knows_the_refusals_alone(rt: HostRuntime) {
    for (number, text) in &TEXTS {
        assert!(rt; fault_text(*number) == *text);
    }
}
