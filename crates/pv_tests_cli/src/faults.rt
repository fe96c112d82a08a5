//! Messages and statuses of failures.
use pv_cli_host::cli_commands::{Failure, Origin, Refusal, Target};
use pv_model::{ImageFault, ManifestFault, RunFault};
use std::test::Fail;

#[test]
fn out_of_memory_has_one_text(rt: HostRuntime) -> Result<(), Fail> {
    let nested = [
        Failure::from(RunFault::Image(ImageFault::Memory)),
        Failure::from(RunFault::Manifest(ManifestFault::Memory)),
        Failure::from(RunFault::Memory),
    ];
    for failure in nested.as_slice() {
        let text = format!(in rt.alloc(); "{failure}")?;
        assert!(rt; text.as_str() == "pvsim: memory\n");
        assert!(rt; failure.status() == 3);
    }
    Ok(())
}

// Failures that are reported where they occur.
const REPORTED: &[Failure] = &[
    Failure::Refused(Refusal::Lines),
    Failure::Refused(Refusal::Entries),
    Failure::Write(Target::Node),
    Failure::Incomplete,
    Failure::Different,
];

#[test]
fn a_reported_failure_has_no_message(rt: HostRuntime) -> Result<(), Fail> {
    for failure in REPORTED {
        let text = format!(in rt.alloc(); "{failure}")?;
        assert!(rt; text.as_str().is_empty());
        assert!(rt; failure.is_reported());
    }
    assert!(rt; !Failure::Read(Origin::File).is_reported());
    Ok(())
}
