use std::test::Fail;
use zl_outside::{Failed, MemSink, Sink, StdSink};

#[test]
fn keeps_the_pieces_that_it_has_room_for(rt: HostRuntime) -> Result<(), Fail> {
    let mut sink = MemSink::new(rt.alloc(), 4)?;
    sink.fail_at(2)?;
    assert_eq!(rt; sink.put(b"ab"), Ok(()));
    assert_eq!(rt; sink.put(b""), Ok(()));
    assert_eq!(rt; sink.put(b"c"), Err(Failed), "planned");
    assert_eq!(rt; sink.put(b"cde"), Err(Failed), "no room");
    assert_eq!(rt; sink.put(b"cd"), Ok(()));
    assert_eq!(rt; sink.bytes(), b"abcd".as_slice());
    Ok(())
}

#[test]
fn standard_output_takes_pieces(rt: HostRuntime) {
    let mut sink = StdSink::new(&rt);
    assert_eq!(rt; sink.put(b""), Ok(()));
    assert_eq!(rt; sink.put(b"a line\n"), Ok(()));
}
