//! Requests for memory that are refused. In a plain run none is; the test command can refuse one.

use crate::tests::asserts::{holds_at, same_in};
use crate::tests::rows::text_of;
use arrayvec::ArrayVec;
use kbsim::{RunError, run_script};

const SCRIPT: &[u8] = b"fetch\nset 0 0 4192\nscans 5 0\npoll\ncut\nentry 0 0\n";

const PRINTED: &[u8] = b"1 fetched 99\n2 ack\n3 ok\n4 report 029201000000000000 read 000c0192\n\
    5 restart\n6 4192\n";

const REFUSED: &[u8] = b"fault memory\n";

#[test]
fn whole_lines_and_then_the_fault(rt: HostRuntime) {
    let mut reader = SCRIPT;
    let mut printed: ArrayVec<u8, 128> = ArrayVec::new();
    let ended = run_script(rt.alloc(), 2, &mut reader, &mut printed);
    if ended == Ok(()) {
        same_in(&rt, &printed.as_slice(), &PRINTED, "a whole run");
    } else {
        let text = text_of(printed.as_slice());
        same_in(&rt, &ended, &Err(RunError::Memory), text);
        let front = printed.as_slice().strip_suffix(REFUSED);
        let is_front = front.is_some_and(|lines| is_whole(lines) && PRINTED.starts_with(lines));
        holds_at(&rt, is_front, &text);
    }
}

fn is_whole(lines: &[u8]) -> bool {
    lines.is_empty() || lines.last() == Some(&b'\n')
}
