use crate::fixtures::token;
use lock_fencing::{Guard, deployments_fence, guards_refuse_older, tokens_fence};

#[test]
fn a_guard_refuses_lower_tokens(rt: HostRuntime) {
    tokens_fence();
    deployments_fence();
    guards_refuse_older();
    let mut guard = Guard::new(Some(token(2)));
    assert!(rt;
        !guard.serve(token(1)),
        "one below that with which it goes on"
    );
    assert!(rt; guard.serve(token(3)), "one above it");
    assert!(rt; guard.greatest() == Some(token(3)), "which it keeps");
}
