use crate::written::written;
use ctss_types::Script;
use made_script::make_script;
use script_read::ScriptText;
use std::process::Abort;
use std::test::Fail;

/// The script of 0.
const ZERO: &[u8] = b"PARAM 1024 100 2 480 300 10\n\
    USER 1 U1 P1 16 5\n\
    USER 2 U2 P2 16 5\n\
    USER 3 U3 P3 16 5\n\
    USER 4 U4 P4 16 5\n\
    FILE 1 LOOP BSS 1\n\
    O 000000000017 000012000000 077400100544 200001100001 007400400005\n\
    O 000001000007 007400400006 010100000010 010100000011 244645256060\n\
    O 665126436760 242521246060\n\
    FILE 2 LOOP BSS 1\n\
    O 000000000015 000012000000 077400101545 200001100001 007400400005\n\
    O 000001000007 007400400006 010100000010 010100000011 244645256060\n\
    O 665126436760 242521246060\n\
    FILE 3 LOOP BSS 1\n\
    O 000000000003 000012000000 077400101522 200001100001 007400400005\n\
    O 000001000007 007400400006 010100000010 010100000011 244645256060\n\
    O 665126436760 242521246060\n\
    FILE 4 LOOP BSS 1\n\
    O 000000000017 000012000000 077400102025 200001100001 007400400005\n\
    O 000001000007 007400400006 010100000010 010100000011 244645256060\n\
    O 665126436760 242521246060\n\
    AT 100 1 DIAL\n\
    AT 100 1 LINE LOGIN U1\n\
    AT 100 1 LINE P1\n\
    AT 100 1 LINE LOADGO LOOP\n\
    AT 100 1 LINE LOADGO LOOP\n\
    AT 100 1 LINE LOGOUT\n\
    AT 200 2 DIAL\n\
    AT 200 2 LINE LOGIN U2\n\
    AT 200 2 LINE P2\n\
    AT 200 2 LINE LOADGO LOOP\n\
    AT 200 2 LINE LOADGO LOOP\n\
    AT 200 2 LINE LOGOUT\n\
    AT 300 3 DIAL\n\
    AT 300 3 LINE LOGIN U3\n\
    AT 300 3 LINE P3\n\
    AT 300 3 LINE LOADGO LOOP\n\
    AT 300 3 LINE LOADGO LOOP\n\
    AT 300 3 LINE LOGOUT\n\
    AT 400 4 DIAL\n\
    AT 400 4 LINE LOGIN U4\n\
    AT 400 4 LINE P4\n\
    AT 400 4 LINE LOADGO LOOP\n\
    AT 400 4 LINE LOADGO LOOP\n\
    AT 400 4 LINE LOGOUT\n\
    END 1000000\n";

#[test]
fn zero_makes_four_users(rt: HostRuntime) -> Result<(), Fail> {
    let script = make_script(rt.alloc(), 0)?;
    let sink = written(&rt, rt.alloc(), &ScriptText { script: &script })?;
    assert!(rt; sink.bytes() == ZERO);
    Ok(())
}

/// Tries the counts of the script of 26, and its last event.
fn has_thirty_users(rt: &impl Abort, script: &Script) {
    let counts = (
        script.accounts.len(),
        script.files.len(),
        script.events.len(),
    );
    assert!(rt; counts == (30, 30, 180));
    match script.events.as_slice().last() {
        Some(last) => assert!(rt; (last.tick, last.console.number()) == (3000, 30)),
        None => panic!(rt; "no events"),
    }
    for (file, user) in script.files.as_slice().iter().zip(1..=30) {
        assert!(rt; file.owner.number() == user);
    }
}

#[test]
fn twenty_six_makes_thirty_users(rt: HostRuntime) -> Result<(), Fail> {
    let script = make_script(rt.alloc(), 26)?;
    has_thirty_users(&rt, &script);
    Ok(())
}
