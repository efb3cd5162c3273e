mod faulty;
mod runs;
mod sizes;
mod streams;

use std::process::Abort;
use strm_pool::{Refusal, Which};
use strm_run::RunFault;
use strm_script::{Fault, Kind};

// The statuses of docs/MODEL.md.
#[test]
fn each_fault_has_its_status(rt: HostRuntime) {
    let cut = Fault {
        line: 1,
        kind: Kind::Cut,
    };
    let rows = [
        (RunFault::Read, 1),
        (RunFault::Write, 1),
        (RunFault::TooLong, 1),
        (RunFault::Script(cut), 2),
        (RunFault::Config(Which::Mblks), 2),
        (RunFault::Memory, 3),
        (RunFault::Refused(Refusal::Worn), 4),
    ];
    for (fault, status) in rows {
        assert_eq!(rt; fault.status(), status, "{fault:?}");
    }
}
