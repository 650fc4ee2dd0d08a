use crate::status::Status;
use crate::zpc::zpc;
use std::alloc::Global;
use std::process::Abort;
use zl_outside::{MemShelf, MemSink};
use zl_value::print_number;

const RAMP: &[u8] = b"let hybrid main() = x where rec der x = 1.0 init 0.0";

const WIDEST: &[u8] = b"let hybrid main() = x where rec der x = 9223372036854775807.0 init 0.0";

const COMMENTED: &[u8] = b"(* a (* b *) *) let hybrid main() = x where rec der x = 1.0 init 0.0";

const TOO_WIDE: &[u8] = b"let hybrid main() = x where rec der x = 9223372036854775808.0 init 0.0";

const TOO_SMALL: &[u8] = b"let hybrid main() = x where rec der x = 1e-19 init 0.0";

const OTHER: &[u8] = b"let hybrid main() = x where rec x = 1.0";

const CUT: &[u8] = b"let hybrid main() = x where rec der x = 1.0 init";

const USAGE: &[u8] =
    b"usage: zpc check FILE, code FILE, run FILE SCRIPT, exec CODE SCRIPT, gen SEED\n";

/// Calls the program on words, with a file FILE and a script SCRIPT, and a sink whose put of this number fails.
fn call(
    rt: &impl Abort,
    alloc: Global,
    words: &[&str],
    file: &[u8],
    script: &[u8],
    failing: u64,
) -> (Status, MemSink) {
    let mut given = Vec::new(alloc);
    for word in words {
        let word = String::from_str(alloc, word).expect(rt, "there is memory");
        given.push(word).expect(rt, "there is memory");
    }
    let mut shelf = MemShelf::new(alloc);
    shelf.add("FILE", file).expect(rt, "there is memory");
    shelf.add("SCRIPT", script).expect(rt, "there is memory");
    let mut sink = MemSink::new(alloc, 1000).expect(rt, "there is memory");
    sink.fail_at(failing).expect(rt, "there is memory");
    let status = zpc(alloc, &given, &mut shelf, &mut sink);
    (status, sink)
}

fn assert_run(
    rt: &impl Abort,
    alloc: Global,
    file: &[u8],
    script: &[u8],
    status: Status,
    text: &[u8],
) {
    let (ended, sink) = call(rt, alloc, &["run", "FILE", "SCRIPT"], file, script, 0);
    assert_eq!(rt; ended, status);
    assert_eq!(rt; sink.bytes(), text);
}

#[test]
fn ramp_runs_to_its_horizon(rt: HostRuntime) {
    let text = b"0 #0 x=0\n3/2 - x=3/2\nend horizon\n";
    assert_run(&rt, rt.alloc(), RAMP, b"horizon 3/2\n", Status::Done, text);
}

#[test]
fn nothing_flows_at_horizon_zero(rt: HostRuntime) {
    assert_run(
        &rt,
        rt.alloc(),
        RAMP,
        b"horizon 0\n",
        Status::Done,
        b"0 #0 x=0\nend horizon\n",
    );
}

#[test]
fn widest_slope_fits_for_one_unit(rt: HostRuntime) {
    let text = b"0 #0 x=0\n1 - x=9223372036854775807\nend horizon\n";
    assert_run(&rt, rt.alloc(), WIDEST, b"horizon 1\n", Status::Done, text);
}

#[test]
fn increment_past_the_width_is_a_fault(rt: HostRuntime) {
    let text = b"0 #0 x=0\nfault range 0 ~ 1:37\n";
    assert_run(
        &rt,
        rt.alloc(),
        WIDEST,
        b"horizon 2\n",
        Status::ArithFault,
        text,
    );
}

#[test]
fn other_forms_keep_the_rules_and_are_not_run(rt: HostRuntime) {
    assert_check(&rt, rt.alloc(), OTHER, Status::Done, b"ok\n");
    let text = b"refused unbuilt 1:1\n";
    assert_run(
        &rt,
        rt.alloc(),
        OTHER,
        b"horizon 1\n",
        Status::RefusedFile,
        text,
    );
    let text = b"refused script unbuilt 1\n";
    assert_run(&rt, rt.alloc(), RAMP, b"# c\n", Status::RefusedScript, text);
}

/// Checks a file.
fn assert_check(rt: &impl Abort, alloc: Global, file: &[u8], status: Status, text: &[u8]) {
    let (ended, sink) = call(rt, alloc, &["check", "FILE"], file, b"", 0);
    assert_eq!(rt; ended, status);
    assert_eq!(rt; sink.bytes(), text);
}

#[test]
fn thin_files_are_ok(rt: HostRuntime) {
    assert_check(&rt, rt.alloc(), RAMP, Status::Done, b"ok\n");
    assert_check(&rt, rt.alloc(), COMMENTED, Status::Done, b"ok\n");
}

#[test]
fn tokens_and_literals_are_refused_at_their_place(rt: HostRuntime) {
    assert_check(
        &rt,
        rt.alloc(),
        b"(* a",
        Status::RefusedFile,
        b"refused token 1:1\n",
    );
    assert_check(
        &rt,
        rt.alloc(),
        TOO_WIDE,
        Status::RefusedFile,
        b"refused literal 1:41\n",
    );
    assert_check(
        &rt,
        rt.alloc(),
        TOO_SMALL,
        Status::RefusedFile,
        b"refused literal 1:41\n",
    );
    assert_check(
        &rt,
        rt.alloc(),
        b"let \xff",
        Status::RefusedFile,
        b"refused utf8 1:5\n",
    );
}

#[test]
fn tokens_without_a_tree_are_refused(rt: HostRuntime) {
    let (status, _) = call(&rt, rt.alloc(), &["check", "FILE"], CUT, b"", 0);
    assert_eq!(&rt; status, Status::RefusedFile);
}

#[test]
fn rules_of_names_are_refused_at_their_place(rt: HostRuntime) {
    assert_check(
        &rt,
        rt.alloc(),
        b"let f(a) = a let f(b) = c",
        Status::RefusedFile,
        b"refused name-unknown 1:25\n",
    );
    assert_check(
        &rt,
        rt.alloc(),
        b"",
        Status::RefusedFile,
        b"refused main 1:1\n",
    );
}

#[test]
fn rules_behind_the_names_are_refused_at_their_place(rt: HostRuntime) {
    assert_check(
        &rt,
        rt.alloc(),
        b"let hybrid main() = x where rec x = 1 +. 2.0",
        Status::RefusedFile,
        b"refused type-clash 1:39\n",
    );
    assert_check(
        &rt,
        rt.alloc(),
        b"let hybrid main() = x where rec x = pre x +. 1.0",
        Status::RefusedFile,
        b"refused kind 1:37\n",
    );
    assert_check(
        &rt,
        rt.alloc(),
        b"let hybrid main() = x where rec der x = 1.0",
        Status::RefusedFile,
        b"refused init 1:37\n",
    );
    assert_check(
        &rt,
        rt.alloc(),
        b"let hybrid main() = h where rec h = g +. 1.0 and g = h -. 1.0",
        Status::RefusedFile,
        b"refused causality 1:33\n",
    );
    assert_check(
        &rt,
        rt.alloc(),
        b"let hybrid main() = y where rec der x = 1.0 init 0.0 and der y = x init 0.0",
        Status::RefusedFile,
        b"refused grade 1:66\n",
    );
}

#[test]
fn words_without_a_form_get_the_usage(rt: HostRuntime) {
    let (status, sink) = call(&rt, rt.alloc(), &["run", "FILE"], RAMP, b"horizon 1\n", 0);
    assert_eq!(&rt; status, Status::Usage);
    assert_eq!(&rt; sink.bytes(), USAGE);
}

#[test]
fn missing_files_are_read_faults(rt: HostRuntime) {
    let (status, sink) = call(
        &rt,
        rt.alloc(),
        &["run", "nosuch", "SCRIPT"],
        RAMP,
        b"horizon 1\n",
        0,
    );
    assert_eq!(&rt; status, Status::ReadFault);
    assert_eq!(&rt; sink.bytes(), b"read fault\n".as_slice());
    let (status, sink) = call(
        &rt,
        rt.alloc(),
        &["run", "FILE", "nosuch"],
        RAMP,
        b"horizon 1\n",
        0,
    );
    assert_eq!(&rt; status, Status::ReadFault);
    assert_eq!(&rt; sink.bytes(), b"read fault\n".as_slice());
}

#[test]
fn failing_put_cuts_the_trace(rt: HostRuntime) {
    let (status, sink) = call(
        &rt,
        rt.alloc(),
        &["run", "FILE", "SCRIPT"],
        RAMP,
        b"horizon 3/2\n",
        3,
    );
    assert_eq!(&rt; status, Status::WriteFault);
    assert_eq!(&rt; sink.bytes(), b"0 #0 x=0\n3/2 - x=3/2\n".as_slice());
}

/// A program whose automaton has this many states.
fn automaton(rt: &impl Abort, alloc: Global, states: u64) -> Vec<u8> {
    let mut text = Vec::new(alloc);
    text.extend_from_slice(b"let hybrid main() = x where rec der x = 1.0 init 0.0 and automaton\n")
        .expect(rt, "there is memory");
    for number in 0..states {
        text.extend_from_slice(b"| S").expect(rt, "there is memory");
        print_number(&mut text, number).expect(rt, "there is memory");
        text.extend_from_slice(b" -> do done\n")
            .expect(rt, "there is memory");
    }
    text
}

#[test]
fn states_fill_the_blocks_up_to_their_limit(rt: HostRuntime) {
    let most = automaton(&rt, rt.alloc(), 32767);
    assert_check(&rt, rt.alloc(), most.as_slice(), Status::Done, b"ok\n");
    let more = automaton(&rt, rt.alloc(), 32768);
    assert_check(
        &rt,
        rt.alloc(),
        more.as_slice(),
        Status::RefusedFile,
        b"refused expand-size 1:12\n",
    );
}
