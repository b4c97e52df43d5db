use kinds::UnknownKind;
use std::test::Fail;
use syntax::{Span, SyntaxKind};

fn span(start: u32, end: u32) -> Span {
    Span { start, end }
}

// The examples in the original's documentation of `Span`.
#[test]
fn documented(rt: HostRuntime) {
    assert_eq!(rt; span(0, 3).len(), 3);
    assert_eq!(rt; span(1, 3).len(), 2);
    assert!(rt; span(0, 0).is_empty() && span(1, 1).is_empty() && !span(1, 2).is_empty());
    assert!(rt; span(0, 3).contains(&span(0, 2)) && span(0, 3).contains(&span(1, 3)));
    assert!(rt; span(0, 3).contains(&span(0, 3)) && !span(0, 3).contains(&span(0, 4)));
    assert!(rt; !span(0, 3).contains(&span(3, 4)));
    assert_eq!(rt; span(0, 1).offset(1), Some(span(1, 2)));
    assert_eq!(rt; span(1, 2).offset(-1), Some(span(0, 1)));
    assert_eq!(rt; span(0, 1).offset(-1), None);
}

#[test]
fn limits(rt: HostRuntime) {
    let last = Some(span(4294967294, 4294967295));
    assert_eq!(rt; span(0, 1).offset(4294967294), last);
    for offset in [4294967295, 4294967296, -4294967296, isize::MAX, isize::MIN] {
        assert_eq!(rt; span(0, 1).offset(offset), None, "{offset}");
    }
    assert_eq!(rt; span(5, 9).subspan(4, 0), Some(span(9, 5)));
    assert_eq!(rt; span(5, 9).subspan(5, 0), None);
    assert_eq!(rt; span(5, 9).subspan(0, 5), None);
    assert_eq!(rt; span(9, 5).subspan(0, 0), None);
}

// A span as the original prints it, and as a range.
#[test]
fn shown(rt: HostRuntime) -> Result<(), Fail> {
    assert_eq!(rt; span(1, 4).to_string(rt.alloc())?.as_str(), "[1..4]");
    assert_eq!(rt; span(1, 4).range(), 1..4);
    Ok(())
}

#[test]
fn last_kind(rt: HostRuntime) -> Result<(), Fail> {
    let last = SyntaxKind::INVALID_UTF8;
    assert_eq!(rt; last.number(), 126);
    assert_eq!(rt; u16::from(last), 126);
    assert_eq!(rt; SyntaxKind::from_number(126), Some(last));
    assert_eq!(rt; SyntaxKind::try_from(126), Ok(last));
    for number in [127, 65535] {
        assert_eq!(rt; SyntaxKind::from_number(number), None);
        assert_eq!(rt; SyntaxKind::try_from(number), Err(UnknownKind));
    }
    assert_eq!(rt; last.to_string(rt.alloc())?.as_str(), "INVALID_UTF8");
    assert_eq!(rt; SyntaxKind::from_name("INVALID_UTF8"), Some(last));
    assert_eq!(rt; "INVALID_UTF8".parse(), Ok(last));
    for name in ["", "all_kw"] {
        assert_eq!(rt; SyntaxKind::from_name(name), None);
        assert_eq!(rt; name.parse::<SyntaxKind>(), Err(UnknownKind));
    }
    Ok(())
}
