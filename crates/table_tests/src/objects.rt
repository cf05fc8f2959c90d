//! What the commands print as JSON Lines, against texts that were written by hand.
use command_faults::CliFault;
use json_lines::Form;
use pcap_file::{FromRead, ToWrite};
use std::alloc::Global;
use std::process::Abort;
use table_commands::{TableOptions, compare_as, pick_as, table_as};

const OPTIONS: TableOptions<'static> = TableOptions {
    form: Form::Json,
    size: 7,
    hash: "sum",
};

fn kept(alloc: Global) -> ToWrite<Vec<u8>> {
    ToWrite::new(Vec::new(alloc))
}

// All is well, and this is written.
fn writes(rt: &impl Abort, done: Result<(), CliFault>, out: ToWrite<Vec<u8>>, text: &str) {
    assert_eq!(rt; done, Ok(()));
    let found = out.into_inner();
    assert_eq!(rt; found.as_slice(), text.as_bytes());
}

const TABLE: &str = r#"{"type":"maglev","version":1,"command":"table"}
{"type":"table","size":7,"backends":3}
{"type":"slot","slot":0,"backend":"B"}
{"type":"slot","slot":1,"backend":"A"}
{"type":"slot","slot":2,"backend":"B"}
{"type":"slot","slot":3,"backend":"C"}
{"type":"slot","slot":4,"backend":"C"}
{"type":"slot","slot":5,"backend":"A"}
{"type":"slot","slot":6,"backend":"A"}
{"type":"count","backend":"A","slots":3}
{"type":"count","backend":"B","slots":2}
{"type":"count","backend":"C","slots":2}
"#;

#[test]
fn a_table_has_an_object_for_each_slot(rt: HostRuntime) {
    let mut out = kept(rt.alloc());
    let done = table_as(rt.alloc(), OPTIONS, &["A", "B", "C"], &mut out);
    writes(&rt, done, out, TABLE);
}

const MOVED: &str = r#"{"type":"maglev","version":1,"command":"compare"}
{"type":"compare","size":7,"old":3,"new":2,"differ":3}
{"type":"slot","slot":0,"old":{"backend":"B","address":"10.8.0.2"},"new":{"backend":"A","address":"10.8.0.1"}}
{"type":"slot","slot":2,"old":{"backend":"B","address":"10.8.0.2"},"new":{"backend":"A","address":"10.8.0.1"}}
{"type":"slot","slot":5,"old":{"backend":"A","address":"10.8.0.1"},"new":{"backend":"C","address":"10.8.0.3"}}
"#;

const GONE: &str = r#"{"type":"maglev","version":1,"command":"compare"}
{"type":"compare","size":7,"old":1,"new":0,"differ":7}
{"type":"slot","slot":0,"old":{"backend":"A","address":"10.8.0.1"},"new":null}
{"type":"slot","slot":1,"old":{"backend":"A","address":"10.8.0.1"},"new":null}
{"type":"slot","slot":2,"old":{"backend":"A","address":"10.8.0.1"},"new":null}
{"type":"slot","slot":3,"old":{"backend":"A","address":"10.8.0.1"},"new":null}
{"type":"slot","slot":4,"old":{"backend":"A","address":"10.8.0.1"},"new":null}
{"type":"slot","slot":5,"old":{"backend":"A","address":"10.8.0.1"},"new":null}
{"type":"slot","slot":6,"old":{"backend":"A","address":"10.8.0.1"},"new":null}
"#;

#[test]
fn a_slot_that_names_nobody_has_null(rt: HostRuntime) {
    let mut out = kept(rt.alloc());
    let three = "A@10.8.0.1 B@10.8.0.2 C@10.8.0.3";
    let two = "A@10.8.0.1 B@10.8.0.2/down C@10.8.0.3";
    let done = compare_as(rt.alloc(), OPTIONS, three, two, &mut out);
    writes(&rt, done, out, MOVED);
    let mut out = kept(rt.alloc());
    let done = compare_as(
        rt.alloc(),
        OPTIONS,
        "A@10.8.0.1",
        "A@10.8.0.1/down",
        &mut out,
    );
    writes(&rt, done, out, GONE);
}

const TCP: &str =
    "45000028000100004006aecd0a000001c000020103e8005000000001000000005002200000000000";

const PICKED: &str = r#"{"type":"maglev","version":1,"command":"pick"}
{"type":"pick","flow":"tcp 10.0.0.1:1000>192.0.2.1:80","slot":6,"backend":"A"}
"#;

const DROPPED: &str = r#"{"type":"maglev","version":1,"command":"pick"}
{"type":"drop","cause":"Truncated"}
"#;

#[test]
fn a_pick_is_an_object_of_its_flow_or_its_drop(rt: HostRuntime) {
    let names = ["C", "A", "B"];
    let mut out = kept(rt.alloc());
    let mut input = FromRead::new(TCP.as_bytes());
    let done = pick_as(rt.alloc(), OPTIONS, true, &names, &mut input, &mut out);
    writes(&rt, done, out, PICKED);
    let mut out = kept(rt.alloc());
    let mut input = FromRead::new(b"45".as_slice());
    let done = pick_as(rt.alloc(), OPTIONS, true, &names, &mut input, &mut out);
    writes(&rt, done, out, DROPPED);
}
