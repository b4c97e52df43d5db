use crate::answer::{Kind, answer};
use lent::Lent;
use literal::{StringValue, string_lit};
use std::test::Fail;
use syntax::Span;

#[test]
fn empty_tokens(rt: HostRuntime) -> Result<(), Fail> {
    let heap = rt.alloc();
    assert_eq!(rt; answer(heap, Kind::Name, "0", "-")?.as_str(), "name");
    assert_eq!(rt;
        answer(heap, Kind::Integer, "0", "-")?.as_str(),
        "refused:6:0..0"
    );
    assert_eq!(rt;
        answer(heap, Kind::Float, "0", "-")?.as_str(),
        "refused:7:0..0"
    );
    assert_eq!(rt;
        answer(heap, Kind::String, "0", "-")?.as_str(),
        "refused:10:0..0"
    );
    assert_eq!(rt;
        answer(heap, Kind::Regexp, "0", "-")?.as_str(),
        "refused:10:0..0"
    );
    Ok(())
}

// The text is written as far as it goes, and the count goes on.
#[test]
fn short_text(rt: HostRuntime) {
    let source = b"\"\\n\\t\\r\"";
    let mut text = [7u8; 4];
    let mut lent = Lent {
        items: &mut text,
        used: 2,
    };
    let value = string_lit(source, Span { start: 0, end: 8 }, &mut lent);
    assert_eq!(rt; value, Ok(StringValue::Decoded { start: 2, len: 3 }));
    assert_eq!(rt; lent.used, 5);
    assert!(rt; !lent.fits());
    assert_eq!(rt; text, [7, 7, 10, 9]);
}
