//! Each line once, in the bytes of its format.

use daa_config::{Kind, Resolution};
use daa_io::MemSink;
use daa_report::{
    HeldLines, Line, SinkFault, put, write_alert, write_band, write_config, write_differs,
    write_done, write_last, write_moment, write_now, write_recover, write_refused, write_resolve,
    write_same,
};
use daa_state::Id;
use std::alloc::{AllocError, Global};
use std::error::Error;
use std::test::Fail;

fn sink(alloc: Global, fails: &[u64]) -> Result<MemSink, AllocError> {
    Ok(MemSink::over(
        vec![in alloc; 0; 300]?,
        Vec::new(alloc),
        fails.to_vec(alloc)?,
    ))
}

#[test]
fn each_line_is_written(rt: HostRuntime) -> Result<(), Fail> {
    let mut out = sink(rt.alloc(), &[])?;
    let id = Id::of(b"A_b-1").ok_or("an identifier")?;
    let said = [
        write_refused(&mut out, 18446744073709551615, 14),
        write_moment(&mut out, 4294967295),
        write_now(&mut out, &id, 4),
        write_alert(&mut out, &id, 0, None),
        write_alert(&mut out, &id, 3, Some(179)),
        write_done(&mut out, 0),
        write_config(&mut out, 8),
        write_same(&mut out),
        write_differs(&mut out, 18446744073709551615),
        put(
            &mut out,
            Line::numbers("count", &[0, 4294967295]).as_bytes(),
        ),
        put(&mut out, Line::numbers("done", &[]).as_bytes()),
        put(&mut out, b"any bytes"),
        put(&mut out, b""),
    ];
    for one in said {
        assert_eq!(rt; one, Ok(()));
    }
    assert_eq!(rt;
        out.taken(),
        b"refused 18446744073709551615 14\nmoment 4294967295\nnow A_b-1 4\n\
          alert A_b-1 0 -\nalert A_b-1 3 179\ndone 0\nconfig 8\nsame\n\
          differs 18446744073709551615\ncount 0 4294967295\ndone\nany bytes"
            .as_slice()
    );
    Ok(())
}

#[test]
fn each_band_and_answer_is_written(rt: HostRuntime) -> Result<(), Fail> {
    let alloc = rt.alloc();
    let mut out = MemSink::over(vec![in alloc; 0; 400]?, Vec::new(alloc), Vec::new(alloc));
    let (keep, none) = (Resolution::Keep, Resolution::Nothing);
    let said = [
        write_band(&mut out, Kind::Track, 0, 270, 0),
        write_band(&mut out, Kind::GroundSpeed, 3600, 10000, 1),
        write_band(&mut out, Kind::VerticalSpeed, -5000, -100, 2),
        write_band(&mut out, Kind::Altitude, -2000, 60000, 4),
        write_resolve(&mut out, Kind::Track, Resolution::To(359), none),
        write_resolve(&mut out, Kind::GroundSpeed, keep, keep),
        write_resolve(
            &mut out,
            Kind::VerticalSpeed,
            Resolution::To(-200),
            Resolution::To(0),
        ),
        write_resolve(&mut out, Kind::Altitude, none, Resolution::To(1500)),
        write_last(&mut out, Kind::Track, Some(0)),
        write_last(&mut out, Kind::Altitude, Some(179)),
        write_last(&mut out, Kind::GroundSpeed, None),
        write_recover(&mut out, Kind::VerticalSpeed, Some((179, -10000))),
        write_recover(&mut out, Kind::GroundSpeed, None),
    ];
    for one in said {
        assert_eq!(rt; one, Ok(()));
    }
    assert_eq!(rt;
        out.taken(),
        b"track 0 270 0\ngs 3600 10000 1\nvs -5000 -100 2\nalt -2000 60000 4\n\
          resolve track left 359 right none\nresolve gs down keep up keep\n\
          resolve vs down -200 up 0\nresolve alt down none up 1500\nlast track 0\n\
          last alt 179\nlast gs none\nrecover vs 179 -10000\nrecover gs none\n"
            .as_slice()
    );
    Ok(())
}

#[test]
fn held_lines_are_written_at_the_flush(rt: HostRuntime) -> Result<(), Fail> {
    let mut out = sink(rt.alloc(), &[1])?;
    let mut held = HeldLines::new();
    assert_eq!(rt; held.say(&mut out, &Line::moment(1)), Ok(()));
    assert_eq!(rt; held.say(&mut out, &Line::done(1)), Ok(()));
    assert_eq!(rt; out.taken(), b"".as_slice());
    assert_eq!(rt; held.flush(&mut out), Ok(()));
    assert_eq!(rt; out.taken(), b"moment 1\ndone 1\n".as_slice());
    // the second write fails
    assert_eq!(rt; held.say(&mut out, &Line::moment(2)), Ok(()));
    assert_eq!(rt; held.flush(&mut out), Err(SinkFault));
    assert_eq!(rt; out.taken(), b"moment 1\ndone 1\n".as_slice());
    Ok(())
}

#[test]
fn lines_without_room_for_one_more_are_written_first(rt: HostRuntime) -> Result<(), Fail> {
    let alloc = rt.alloc();
    let mut out = MemSink::over(vec![in alloc; 0; 5000]?, Vec::new(alloc), Vec::new(alloc));
    let mut held = HeldLines::new();
    for _ in 0..300 {
        assert_eq!(rt; held.say(&mut out, &Line::moment(1234567)), Ok(()));
    }
    // 269 lines of 15 bytes leave less than 64 bytes of 4096
    assert_eq!(rt; out.taken().len(), 269 * 15);
    Ok(())
}

/// The sentence of an error, as a caller prints it.
fn sentence_of<E: Error>(alloc: Global, error: E) -> Result<String, AllocError> {
    format!(in alloc; "{error}")
}

#[test]
fn the_fault_has_a_sentence(rt: HostRuntime) -> Result<(), Fail> {
    let sentence = sentence_of(rt.alloc(), SinkFault)?;
    assert_eq!(rt;
        sentence.as_str(),
        "the sink failed before it took the whole text"
    );
    Ok(())
}

fn may_be_sent<T: Send>() {}

// The check refuses a type that may not be sent between threads.
#[test]
fn values_may_be_sent() {
    may_be_sent::<Line>();
    may_be_sent::<HeldLines>();
    may_be_sent::<SinkFault>();
}
