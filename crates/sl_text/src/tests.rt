use super::*;
use std::test::Fail;

#[test]
fn texts_are_made_and_compared(rt: HostRuntime) -> Result<(), Fail> {
    let text = Text::from_str(rt.alloc(), "é")?;
    let same = Text::from_str(rt.alloc(), "é")?;
    let other = Text::from_str(rt.alloc(), "e")?;
    assert_eq!(rt; text.as_str(), "é");
    assert!(rt; text.equals(&same));
    assert!(rt; !text.equals(&other));
    Ok(())
}

#[test]
fn faults_print_their_cause(rt: HostRuntime) -> Result<(), Fail> {
    let rule = Rule {
        phase: Phase::Y,
        number: 12,
    };
    let span = Span {
        file: 1,
        from: 40,
        to: 42,
    };
    let broken = Fault::Broken(Broken { rule, span });
    let line = format!(in rt.alloc(); "{rule}; {broken}; {}; {}", Fault::Mem, Mem)?;
    assert_eq!(rt;
        line.as_str(),
        "Y12; Y12 is broken in file 1 at byte 40; no memory; no memory"
    );
    Ok(())
}

#[test]
fn places_have_lines_and_columns(rt: HostRuntime) -> Result<(), Fail> {
    let table: [(&[u8], u32, u32, u32); 15] = [
        (b"", 0, 1, 1),
        (b"ab\ncd\n", 0, 1, 1),
        (b"ab\ncd\n", 2, 1, 3),
        (b"ab\ncd\n", 3, 2, 1),
        (b"ab\ncd\n", 5, 2, 3),
        (b"ab\ncd\n", 6, 3, 1),
        (b"a\r\nb", 1, 1, 2),
        (b"a\r\nb", 2, 1, 3),
        (b"a\r\nb", 3, 2, 1),
        ("éx".as_bytes(), 2, 1, 3),
        ("éx".as_bytes(), 3, 1, 4),
        (b"\n\n\n", 0, 1, 1),
        (b"\n\n\n", 1, 2, 1),
        (b"\n\n\n", 2, 3, 1),
        (b"\n\n\n", 3, 4, 1),
    ];
    for (bytes, place, line, column) in table {
        assert!(rt; bytes.len() < 100);
        assert!(rt; place as usize <= bytes.len());
        let lines = Lines::new(rt.alloc(), bytes)?;
        assert_eq!(rt; lines.at(place), (line, column), "at {place}");
    }
    Ok(())
}
