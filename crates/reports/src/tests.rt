use crate::{audit_file, time_file};

#[test]
fn a_missing_file_is_an_error(rt: HostRuntime) {
    assert!(rt; audit_file(&rt, "no/such/file").is_err());
    assert!(rt; time_file(&rt, "no/such/file").is_err());
}

#[test]
fn an_empty_file_is_reported(rt: HostRuntime) {
    assert!(rt; audit_file(&rt, "/dev/null").is_ok());
    assert!(rt; time_file(&rt, "/dev/null").is_ok());
}
