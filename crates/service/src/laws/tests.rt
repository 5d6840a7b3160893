use super::*;

#[test]
fn each_law_once(_rt: HostRuntime) {
    rosters_have_one_reading();
    two_scripts();
    scripts_are_isolated();
}
