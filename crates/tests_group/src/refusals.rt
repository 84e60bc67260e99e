//! The printed refusals of the group's crates, each by its number and its name.
use super::words::see;
use bpf_asm::{AsmError, AsmFault};
use builtin_classes::BuiltInFailure;
use group_world::{HandleError, MonitorError};
use pg_log::{LogError, NoMemory};
use placement::PlacementError;
use replication::UnpackError;
use std::alloc::Global;
use std::fmt::Display;
use std::process::Abort;
use verifier::{Refusal, Rule};

const OF_THE_LOG: [(LogError, &str); 6] = [
    (LogError::LogFull, "1 LogFull"),
    (LogError::StaleNumber, "2 StaleNumber"),
    (LogError::NoMemory, "3 NoMemory"),
    (LogError::NoClass, "4 NoClass"),
    (LogError::NoMethod, "5 NoMethod"),
    (LogError::InputTooLong, "6 InputTooLong"),
];

const OF_A_NODE: [(HandleError, &str); 8] = [
    (HandleError::NotPrimary, "1 NotPrimary"),
    (HandleError::Peering, "2 Peering"),
    (HandleError::LogFull, "3 LogFull"),
    (HandleError::StaleNumber, "4 StaleNumber"),
    (HandleError::NoClass, "5 NoClass"),
    (HandleError::NoMethod, "6 NoMethod"),
    (HandleError::InputTooLong, "7 InputTooLong"),
    (HandleError::NoMemory, "8 NoMemory"),
];

const OF_THE_MONITOR: [(MonitorError, &str); 4] = [
    (MonitorError::BadActing, "1 BadActing"),
    (MonitorError::NotNewest, "2 NotNewest"),
    (MonitorError::EpochsUsedUp, "3 EpochsUsedUp"),
    (MonitorError::NoMemory, "4 NoMemory"),
];

const OF_PLACEMENT: [(PlacementError, &str); 3] = [
    (PlacementError::NoneUp, "1 NoneUp"),
    (PlacementError::Limit, "2 Limit"),
    (PlacementError::NoMemory, "3 NoMemory"),
];

const OF_UNPACKING: [(UnpackError, &str); 2] = [
    (UnpackError::TooShort, "1 TooShort"),
    (UnpackError::NoMemory, "2 NoMemory"),
];

const OF_MEMORY: [(NoMemory, &str); 1] = [(NoMemory, "NoMemory")];

const NO_WORD: AsmError = AsmError {
    line: 2,
    fault: AsmFault::Word,
};

const UNSET: Refusal = Refusal {
    method: 0,
    slot: 12,
    rule: Rule::UnsetRead,
};

const OF_CLASSES: [(BuiltInFailure, &str); 3] = [
    (BuiltInFailure::NoMemory, "no memory"),
    (BuiltInFailure::Text(NO_WORD), "line 2: 1 Word"),
    (
        BuiltInFailure::Verdict(UNSET),
        "refused method 0 slot 12: 5 UnsetRead",
    ),
];

/// Checks that each value prints as the text beside it.
fn check<T: Display, R: Abort>(rt: &R, alloc: Global, rows: &[(T, &str)]) {
    for (value, text) in rows {
        let printed = value.to_string(alloc).expect(rt, "memory");
        see(rt, printed.as_str() == *text, text);
    }
}

#[test]
fn printed_refusals(rt: HostRuntime) {
    let alloc = rt.alloc();
    check(&rt, alloc, &OF_THE_LOG);
    check(&rt, alloc, &OF_A_NODE);
    check(&rt, alloc, &OF_THE_MONITOR);
    check(&rt, alloc, &OF_PLACEMENT);
    check(&rt, alloc, &OF_UNPACKING);
    check(&rt, alloc, &OF_MEMORY);
    check(&rt, alloc, &OF_CLASSES);
}

/// A node gives the log's refusals by the same names; and its number and the log's are printed.
#[test]
fn refusals_of_the_log(rt: HostRuntime) {
    for (why, text) in OF_THE_LOG {
        see(&rt, HandleError::from(why).name() == why.name(), text);
    }
    assert!(rt; LogError::NoClass.number() == 4 && HandleError::NoClass.number() == 5);
    assert!(rt; MonitorError::NotNewest.number() == 2);
    assert!(rt; MonitorError::NotNewest.name() == "NotNewest");
}
