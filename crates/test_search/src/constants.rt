//! The public constant whose value no law states. For the others the laws are `limits_of_files_are_these`,
//! `limits_of_runs_are_these` and those of labels, of heaps and of steps.
use ea_search::NO_LEVEL;

/// NO_LEVEL is above each level.
#[test]
fn no_level_is_above_all(rt: HostRuntime) {
    assert_eq!(rt; NO_LEVEL, u32::MAX);
}
